// A phase read from its octets, written and tested there.
#![tactic(auto)]

ghost use Rattle.std.specs.Prelude.{◌≡◌, ◌+◌, ◌≤◌, length};
ghost use Rattle.octets.specs.Part.{Wrote};
ghost use Rattle.phase.specs.Awaited.{awaited_in};
ghost use Rattle.phase.specs.Branch.{is_asking, is_country, is_having, is_eap};
ghost use Rattle.phase.specs.Phase.{asking_octets, having_from, having_octets, is_abroad, is_phase, phase_from, phase_length, phase_octets, turn_from, turn_octets, turn_written};

use address::Address;
use addresses::{is_address, put_address, read_address};
use buffer::number::{get, put};
use buffer::slice::zeros_at;
use facts_codec::{is_facts, put_facts, read_facts, read_place};
use phase::{AUTH, CHOSEN, COUNTRY, EAP, IDLE, INIT, LIVE, NAME, Phase, SURE, Turn};
use place::{Facts, Place};

// How far an EAP session is, from 2 octets.
#[tactic(auto, unfolding(phase::specs::Phase::turn_from))]
pub fn read_turn(list: &[u8], at: usize) -> Turn
    requires { at + 2 ≤ length list.now }
    ensures { result ≡ turn_from list.now at }
{
    let identifier = get(list, at + 1, 1);
    match get(list, at, 1) {
        1 => Turn::First(identifier),
        2 => Turn::Owed(identifier),
        _ => Turn::Answered(identifier),
    }
}

// Stores in 2 octets how far an EAP session is.
fn put_turn(list: &mut [u8], at: usize, turn: Turn)
    requires { at + 2 ≤ length list.old }
    ensures { Wrote list.old at (turn_octets turn) list.new }
{
    let (kind, identifier) = match turn {
        Turn::First(identifier) => (1, identifier),
        Turn::Owed(identifier) => (2, identifier),
        Turn::Answered(identifier) => (3, identifier),
    };
    put(list, at, 1, kind);
    put(list, at + 1, 1, identifier);
}

// A phase that keeps an address, by its number.
#[tactic(auto, unfolding(phase::specs::Phase::having_from))]
fn read_having(list: &[u8], at: usize, number: u64) -> Phase
    requires { at + phase_length ≤ length list.now }
    ensures { result ≡ having_from list.now at number }
{
    let address = read_address(list, at + 1);
    match number {
        CHOSEN => Phase::Chosen(address),
        INIT => Phase::Init(address),
        AUTH => Phase::Auth(address),
        EAP => Phase::Eap(address, read_turn(list, at + 18)),
        SURE => Phase::Sure(address),
        _ => Phase::Live(address),
    }
}

// A phase with its own data, from 20 octets.
#[tactic(auto, unfolding(phase::specs::Phase::phase_from))]
pub fn read_phase(list: &[u8], at: usize) -> Phase
    requires { at + phase_length ≤ length list.now }
    ensures { result ≡ phase_from list.now at }
{
    match get(list, at, 1) {
        IDLE => Phase::Idle,
        COUNTRY => Phase::Country(read_facts(list, at + 1)),
        NAME => Phase::Name(read_facts(list, at + 1)),
        number => read_having(list, at, number),
    }
}

// The place facts of a line that waits for the country answer, from the 20 octets of its phase.
#[tactic(auto, unfolding(phase::specs::Awaited::awaited_in, phase::specs::Phase::phase_from, phase::specs::Phase::having_from))]
pub fn read_awaited(list: &[u8], at: usize) -> Option<Facts>
    requires { at + phase_length ≤ length list.now }
    ensures { result ≡ awaited_in (phase_from list.now at) }
{
    if get(list, at, 1) != COUNTRY {
        return None;
    }
    Some(read_facts(list, at + 1))
}

// Stores a phase that keeps place facts.
fn put_asking(list: &mut [u8], at: usize, number: u64, facts: Facts)
    requires { at + phase_length ≤ length list.old }
    ensures { Wrote list.old at (asking_octets number facts) list.new }
{
    put(list, at, 1, number);
    put_facts(list, at + 1, facts);
    put(list, at + 10, 10, 0);
}

// Stores a phase that keeps an address alone.
fn put_having(list: &mut [u8], at: usize, number: u64, address: Address)
    requires { at + phase_length ≤ length list.old }
    ensures { Wrote list.old at (having_octets number address) list.new }
{
    put(list, at, 1, number);
    put_address(list, at + 1, address);
    put(list, at + 18, 2, 0);
}

// Stores a phase with its own data in 20 octets.
pub fn put_phase(list: &mut [u8], at: usize, phase: Phase)
    requires { at + phase_length ≤ length list.old }
    ensures { Wrote list.old at (phase_octets phase) list.new }
{
    match phase {
        Phase::Idle => put(list, at, 20, 0),
        Phase::Country(facts) => put_asking(list, at, COUNTRY, facts),
        Phase::Name(facts) => put_asking(list, at, NAME, facts),
        Phase::Chosen(address) => put_having(list, at, CHOSEN, address),
        Phase::Init(address) => put_having(list, at, INIT, address),
        Phase::Auth(address) => put_having(list, at, AUTH, address),
        Phase::Eap(address, turn) => {
            put(list, at, 1, EAP);
            put_address(list, at + 1, address);
            put_turn(list, at + 18, turn);
        }
        Phase::Sure(address) => put_having(list, at, SURE, address),
        Phase::Live(address) => put_having(list, at, LIVE, address),
    }
}

// Whether 2 octets say how far an EAP session is.
#[tactic(auto, unfolding(phase::specs::Phase::turn_written))]
fn is_turn(list: &[u8], at: usize) -> bool
    requires { at + 2 ≤ length list.now }
    ensures { result ≡ turn_written list.now at }
{
    matches!(get(list, at, 1), 1..=3)
}

// Whether place facts and zeros stand behind the number of a phase.
#[tactic(auto, unfolding(phase::specs::Branch::is_asking))]
fn is_asking(list: &[u8], at: usize) -> bool
    requires { at + phase_length ≤ length list.now }
    ensures { result ≡ is_asking list.now at }
{
    is_facts(list, at + 1) && zeros_at(list, at + 10, 10)
}

// Whether place facts abroad and zeros stand behind the number of a phase.
#[tactic(auto, unfolding(phase::specs::Branch::is_country, phase::specs::Phase::is_abroad))]
fn is_country(list: &[u8], at: usize) -> bool
    requires { at + phase_length ≤ length list.now }
    ensures { result ≡ is_country list.now at }
{
    is_asking(list, at) && matches!(read_place(list, at + 1), Place::Abroad(_))
}

// Whether an address and zeros stand behind the number of a phase.
#[tactic(auto, unfolding(phase::specs::Branch::is_having))]
fn is_having(list: &[u8], at: usize) -> bool
    requires { at + phase_length ≤ length list.now }
    ensures { result ≡ is_having list.now at }
{
    is_address(list, at + 1) && zeros_at(list, at + 18, 2)
}

// Whether an address and an identifier stand behind the number of a phase.
#[tactic(auto, unfolding(phase::specs::Branch::is_eap))]
fn is_eap(list: &[u8], at: usize) -> bool
    requires { at + phase_length ≤ length list.now }
    ensures { result ≡ is_eap list.now at }
{
    is_address(list, at + 1) && is_turn(list, at + 18)
}

// Whether a phase with its own data stands in 20 octets.
#[tactic(auto, unfolding(phase::specs::Phase::is_phase, phase::specs::Phase::phase_written, phase::specs::Phase::phase_fits, phase::specs::Phase::phase_from, phase::specs::Phase::having_from, phase::specs::Branch::is_asking, phase::specs::Branch::is_country, phase::specs::Branch::is_having, phase::specs::Branch::is_eap))]
pub fn is_phase(list: &[u8], at: usize) -> bool
    requires { at + phase_length ≤ length list.now }
    ensures { result ≡ is_phase list.now at }
{
    match get(list, at, 1) {
        IDLE => zeros_at(list, at + 1, 19),
        COUNTRY => is_country(list, at),
        NAME => is_asking(list, at),
        EAP => is_eap(list, at),
        CHOSEN..=LIVE => is_having(list, at),
        _ => false,
    }
}
