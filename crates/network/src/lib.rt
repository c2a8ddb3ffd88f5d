// Networks, each known by its PLMN, and the names under which their N3IWFs are looked up.
#![tactic(auto)]

ghost use Rattle.network.specs.Laws.{Laws};

// The highest MCC and MNC.
pub const MOST_CODE: u64 = 999;

// A buffer for a name has at least so many octets.
pub const NAME_ROOM: usize = 64;

// A PLMN: the code of a country and the code of a network within it.
#[derive(Clone, Copy, PartialEq, Eq)]
pub struct Plmn {
    pub mcc: u64,
    pub mnc: u64,
}

// Does nothing; its promise is the laws of this crate's definitions.
pub fn laws()
    ensures { Laws }
{}
