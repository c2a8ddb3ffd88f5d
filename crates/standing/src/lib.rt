// Where a phase stands, read from its octets and stored without its place facts and its address.
#![tactic(auto)]

ghost use Rattle.std.specs.Prelude.{◌≡◌, ◌+◌, ◌≤◌, length};
ghost use Rattle.phase.specs.Phase.{having_from, phase_from, phase_length};
ghost use Rattle.phase.specs.Standing.{bare, standing, turned, Stood};

use address::Address;
use buffer::number::{get, put};
use phase::{AUTH, CHOSEN, COUNTRY, EAP, IDLE, INIT, NAME, Phase, SURE, Standing, Turn};
use phase_codec::read_turn;
use place::{Facts, Place};

// How far an EAP session is.
#[tactic(auto, unfolding(phase::specs::Standing::turned))]
fn turned(turn: Turn) -> Standing
    ensures { result ≡ turned turn }
{
    let (turn, identifier) = match turn {
        Turn::First(identifier) => (1, identifier),
        Turn::Owed(identifier) => (2, identifier),
        Turn::Answered(identifier) => (3, identifier),
    };
    Standing {
        stage: EAP,
        turn,
        identifier,
    }
}

// What a phase says beside its place facts and its address; both types are of a lower crate, so that this is no `From`.
#[tactic(auto, unfolding(phase::specs::Standing::standing, phase::specs::Standing::turned))]
pub fn standing_of(phase: Phase) -> Standing
    ensures { result ≡ standing phase }
{
    match phase {
        Phase::Eap(_, turn) => turned(turn),
        _ => Standing {
            stage: phase.number(),
            turn: 0,
            identifier: 0,
        },
    }
}

// A phase that keeps an address, by its number and without the address.
#[tactic(auto, unfolding(phase::specs::Standing::bare, phase::specs::Phase::having_from))]
fn bare_having(list: &[u8], at: usize, number: u64) -> Phase
    requires { at + phase_length ≤ length list.now }
    ensures { result ≡ bare (having_from list.now at number) }
{
    let nowhere = Address::V4(0);
    match number {
        CHOSEN => Phase::Chosen(nowhere),
        INIT => Phase::Init(nowhere),
        AUTH => Phase::Auth(nowhere),
        EAP => Phase::Eap(nowhere, read_turn(list, at + 18)),
        SURE => Phase::Sure(nowhere),
        _ => Phase::Live(nowhere),
    }
}

// A phase from 20 octets, of whose data only the local IP version and the identifiers are read.
#[tactic(auto, unfolding(phase::specs::Standing::bare, phase::specs::Phase::phase_from, phase::specs::Facts::facts_from))]
pub fn read_bare(list: &[u8], at: usize) -> Phase
    requires { at + phase_length ≤ length list.now }
    ensures { result ≡ bare (phase_from list.now at) }
{
    let facts = Facts {
        place: Place::Unknown,
        registered: None,
        version: get(list, at + 9, 1),
    };
    match get(list, at, 1) {
        IDLE => Phase::Idle,
        COUNTRY => Phase::Country(facts),
        NAME => Phase::Name(facts),
        number => bare_having(list, at, number),
    }
}

// Stores where a phase stands: an idle phase is zeros, and any other keeps the data that are there.
pub fn put_standing(list: &mut [u8], at: usize, s: Standing)
    requires { at + phase_length ≤ length list.old }
    ensures { Stood list.old at s list.new }
{
    if s.stage == IDLE {
        put(list, at, 20, 0);
        return;
    }
    put(list, at, 1, s.stage);
    put(list, at + 18, 1, s.turn);
    put(list, at + 19, 1, s.identifier);
}
