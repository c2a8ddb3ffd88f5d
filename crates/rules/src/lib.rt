// The rules of document 01, what they ask of the daemon, and what is claimed of them.
#![tactic(auto)]

ghost use Rattle.std.specs.Prelude.{◌≡◌, ◌≤◌};
ghost use Rattle.record.specs.Sound.{last_line, last_tenant};
ghost use Rattle.rules.specs.Call.{pair_of};
ghost use Rattle.rules.specs.Claims.{Claims};

use address::Address;
use record::LINES;
use selection::Stop;

// The numbers of a start as C hands them in: the place and the visited MCC, whether registered and to which PLMN, the local IP version.
#[derive(Clone, Copy)]
pub struct StartNumbers {
    pub place: u64,
    pub mcc: u64,
    pub registered: u64,
    pub registered_mcc: u64,
    pub registered_mnc: u64,
    pub version: u64,
}

// What the daemon has to do.
#[derive(Clone, Copy)]
pub enum Action {
    Nothing,
    // Selection stopped: where, and how many addresses were passed over.
    Stopped(Stop, usize),
    // Ask for the visited-country name: how many octets of the name buffer it has.
    AskCountry(usize),
    // Ask for the gateway name that lies in the text: where it begins, and how many octets it has.
    AskText(usize, usize),
    // Ask for the gateway name in the name buffer: how many octets it has.
    AskBuilt(usize),
    // An address is chosen, behind so many that were passed over.
    Chose(Address, usize),
    SendInit,
    SendAuthRequest,
    AskNas,
    // Hand up the NAS that lies in the packet: where it begins, and how many octets it has.
    HandUp(usize, usize),
    // Send so many octets of the reply buffer.
    SendResponse(usize),
    SendAuth,
    Live,
    // Released: whether an EAP session ended.
    Released(bool),
    // Hand the error up: whether an EAP session ended, and the error's number.
    ErrorUp(bool, u64),
    // So many octets of the listing are written.
    Listed(usize),
}

// The number of a pair of a tenant and a line.
pub fn pair_of(tenant: u64, line: u64) -> u64
    requires { (tenant ≤ last_tenant) × (line ≤ last_line) }
    ensures { result ≡ pair_of tenant line }
{
    LINES * tenant + line + 1
}

// Does nothing; its promise is every claim about the rules.
pub fn claims()
    ensures { Claims }
{}
