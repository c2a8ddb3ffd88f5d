// What a line does, with the data of its phase, in octets.
#![tactic(auto)]

ghost use Rattle.std.specs.Prelude.{◌≡◌};
ghost use Rattle.phase.specs.Awaited.{awaited_in};
ghost use Rattle.phase.specs.Chosen.{chosen};
ghost use Rattle.phase.specs.Laws.{Laws};
ghost use Rattle.phase.specs.Stage.{stage_number, stage_of};

use address::Address;
use place::Facts;

// How far an EAP session is: the identifier that is owed or was answered last.
#[derive(Clone, Copy)]
pub enum Turn {
    // Owed, and the session's first reply is still to come.
    First(u64),
    // Owed.
    Owed(u64),
    // Answered, and none is owed.
    Answered(u64),
}

// A phase with its own data: the place facts while DNS runs, the chosen address from then on, identifiers during EAP.
#[derive(Clone, Copy)]
pub enum Phase {
    Idle,
    Country(Facts),
    Name(Facts),
    Chosen(Address),
    Init(Address),
    Auth(Address),
    Eap(Address, Turn),
    Sure(Address),
    Live(Address),
}

// What a phase says beside its place facts and its address: its number and, of an EAP session, how far it is and the identifier.
#[derive(Clone, Copy)]
pub struct Standing {
    // The numbers are octets of a record, which are laid down.
    pub stage: u64,
    pub turn: u64,
    pub identifier: u64,
}

// The number of each phase in a record.
pub const IDLE: u64 = 0;

pub const COUNTRY: u64 = 1;

pub const NAME: u64 = 2;

pub const CHOSEN: u64 = 3;

pub const INIT: u64 = 4;

pub const AUTH: u64 = 5;

pub const EAP: u64 = 6;

pub const SURE: u64 = 7;

pub const LIVE: u64 = 8;

impl Phase {
    // The number of a phase.
    pub fn number(self) -> u64
        ensures { result ≡ stage_number (stage_of self) }
    {
        match self {
            Phase::Idle => IDLE,
            Phase::Country(_) => COUNTRY,
            Phase::Name(_) => NAME,
            Phase::Chosen(_) => CHOSEN,
            Phase::Init(_) => INIT,
            Phase::Auth(_) => AUTH,
            Phase::Eap(_, _) => EAP,
            Phase::Sure(_) => SURE,
            Phase::Live(_) => LIVE,
        }
    }

    // The chosen address of a phase.
    #[tactic(auto, unfolding(crate::specs::Chosen::chosen))]
    pub fn chosen(self) -> Option<Address>
        ensures { result ≡ chosen self }
    {
        match self {
            Phase::Idle | Phase::Country(_) | Phase::Name(_) => None,
            Phase::Chosen(a)
            | Phase::Init(a)
            | Phase::Auth(a)
            | Phase::Eap(a, _)
            | Phase::Sure(a)
            | Phase::Live(a) => Some(a),
        }
    }

    // The place facts of a line that waits for the country answer.
    #[tactic(auto, unfolding(crate::specs::Awaited::awaited_in))]
    pub fn awaited(self) -> Option<Facts>
        ensures { result ≡ awaited_in self }
    {
        match self {
            Phase::Country(facts) => Some(facts),
            _ => None,
        }
    }
}

// Does nothing; its promise is that writing and reading undo each other.
pub fn laws()
    ensures { Laws }
{}
