// IP addresses of both versions, and when one is permitted.
#![tactic(auto)]

ghost use Rattle.std.specs.Prelude.{◌≡◌};
ghost use Rattle.address.specs.Address.{held_addresses, same_address, stands, version_of};

// An address: 32 bits of version 4, or the two halves of 128 bits of version 6.
#[derive(Clone, Copy, PartialEq, Eq)]
pub enum Address {
    V4(u64),
    V6(u64, u64),
}

impl Address {
    // The IP version of an address: 4 or 6.
    pub fn version(self) -> u64
        ensures { result ≡ version_of self }
    {
        match self {
            Address::V4(_) => 4,
            Address::V6(_, _) => 6,
        }
    }
}

// When a hold ends; `Never` has a name of its own, since `None` would say that no end is known.
#[derive(Clone, Copy, PartialEq, Eq)]
pub enum End {
    At(u64),
    Never,
}

// An address on hold until it is free again.
#[derive(Clone, Copy, PartialEq, Eq)]
pub struct Hold {
    pub address: Address,
    pub end: End,
}

impl Hold {
    // Whether a hold is for an address.
    #[tactic(auto, using(crate::proofs::Same::eq_same))]
    fn is_for(self, a: Address) -> bool
        ensures { result ≡ same_address a self.address }
    {
        a == self.address
    }
}

// How many holds a line has room for.
pub const HOLDS: usize = 8;

// Whether an address is one of those on hold.
pub fn is_held(holds: &[Hold], a: Address) -> bool
    ensures { result ≡ stands a (held_addresses holds.now) }
{
    holds.iter().any(|hold| hold.is_for(a))
}
