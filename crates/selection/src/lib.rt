// Choosing a network and a gateway, up to the name that is asked, S1 to S4: the choice, and what is claimed of it.
#![tactic(auto)]

ghost use Rattle.std.specs.Prelude.{◌≡◌};
ghost use Rattle.selection.specs.Networks.{NetworkExactly};
ghost use Rattle.selection.specs.Query.{BuiltAsked};
ghost use Rattle.selection.specs.Stop.{stop_number};
ghost use Rattle.selection.specs.Stops.{StopsExactly};

use address::Address;
use network::Plmn;

// Where selection stops.
#[derive(Clone, Copy, PartialEq, Eq)]
pub enum Stop {
    // The place is unknown.
    Place,
    // The country query got no reply.
    NoReply,
    // Every listed network is barred.
    Barred,
    // No address of the list is permitted.
    Address,
}

impl Stop {
    // The number of the place where selection stops.
    pub fn number(self) -> u64
        ensures { result ≡ stop_number self }
    {
        match self {
            Stop::Place => 1,
            Stop::NoReply => 2,
            Stop::Barred => 3,
            Stop::Address => 4,
        }
    }
}

// What is done next.
#[derive(Clone, Copy)]
pub enum Choice {
    // Selection stops, and where.
    Stop(Stop),
    // The visited-country name of an MCC is asked.
    Country(u64),
    // The name that stands in the configuration text is asked.
    Text { at: usize, length: usize },
    // The operator name of a network is asked.
    Network(Plmn),
    // An address is treated as an answer list of one.
    Address(Address),
}

// Does nothing; its promise is the claim `stops_exactly`.
pub fn stops()
    ensures { StopsExactly }
{}

// Does nothing; its promise is the claim `network_exactly`.
pub fn networks()
    ensures { NetworkExactly }
{}

// Does nothing; its promise is that a name that is built is the one that is asked.
pub fn names()
    ensures { BuiltAsked }
{}
