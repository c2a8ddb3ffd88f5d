// Place facts read from their octets, written and tested there.
#![tactic(auto)]

ghost use Rattle.std.specs.Prelude.{◌&&◌, ◌≡◌, ◌+◌, ◌≤◌, length};
ghost use Rattle.octets.specs.Part.{Wrote};
ghost use Rattle.phase.specs.Branch.{is_place, is_registered};
ghost use Rattle.phase.specs.Facts.{facts_fit, facts_from, facts_octets, facts_written, place_from, place_octets, registered_from, registered_octets};

use buffer::number::{get, put};
use buffer::slice::zeros_at;
use network::{MOST_CODE, Plmn};
use place::{Facts, Place};

// The place of a line, from 3 octets.
#[tactic(auto, unfolding(phase::specs::Facts::place_from))]
pub fn read_place(list: &[u8], at: usize) -> Place
    requires { at + 3 ≤ length list.now }
    ensures { result ≡ place_from list.now at }
{
    match get(list, at, 1) {
        1 => Place::Home,
        2 => Place::Abroad(get(list, at + 1, 2)),
        _ => Place::Unknown,
    }
}

// The registered PLMN or none, from 5 octets.
#[tactic(auto, unfolding(phase::specs::Facts::registered_from))]
fn read_registered(list: &[u8], at: usize) -> Option<Plmn>
    requires { at + 5 ≤ length list.now }
    ensures { result ≡ registered_from list.now at }
{
    if get(list, at, 1) != 1 {
        return None;
    }
    Some(Plmn {
        mcc: get(list, at + 1, 2),
        mnc: get(list, at + 3, 2),
    })
}

// The place facts, from 9 octets.
#[tactic(auto, unfolding(phase::specs::Facts::facts_from))]
pub fn read_facts(list: &[u8], at: usize) -> Facts
    requires { at + 9 ≤ length list.now }
    ensures { result ≡ facts_from list.now at }
{
    Facts {
        place: read_place(list, at),
        registered: read_registered(list, at + 3),
        version: get(list, at + 8, 1),
    }
}

// Stores a place in 3 octets.
fn put_place(list: &mut [u8], at: usize, place: Place)
    requires { at + 3 ≤ length list.old }
    ensures { Wrote list.old at (place_octets place) list.new }
{
    match place {
        Place::Unknown => put(list, at, 3, 0),
        Place::Home => {
            put(list, at, 1, 1);
            put(list, at + 1, 2, 0);
        }
        Place::Abroad(mcc) => {
            put(list, at, 1, 2);
            put(list, at + 1, 2, mcc);
        }
    }
}

// Stores a registered PLMN or none in 5 octets.
fn put_registered(list: &mut [u8], at: usize, registered: Option<Plmn>)
    requires { at + 5 ≤ length list.old }
    ensures { Wrote list.old at (registered_octets registered) list.new }
{
    match registered {
        Some(p) => {
            put(list, at, 1, 1);
            put(list, at + 1, 2, p.mcc);
            put(list, at + 3, 2, p.mnc);
        }
        None => put(list, at, 5, 0),
    }
}

// Stores place facts in 9 octets.
pub fn put_facts(list: &mut [u8], at: usize, facts: Facts)
    requires { at + 9 ≤ length list.old }
    ensures { Wrote list.old at (facts_octets facts) list.new }
{
    put_place(list, at, facts.place);
    put_registered(list, at + 3, facts.registered);
    put(list, at + 8, 1, facts.version);
}

// Whether a place that may be kept stands in 3 octets.
#[tactic(auto, unfolding(phase::specs::Branch::is_place, phase::specs::Facts::place_written, phase::specs::Facts::place_from, phase::specs::Facts::place_fits))]
fn is_place(list: &[u8], at: usize) -> bool
    requires { at + 3 ≤ length list.now }
    ensures { result ≡ is_place list.now at }
{
    match get(list, at, 1) {
        1 => zeros_at(list, at + 1, 2),
        2 => get(list, at + 1, 2) <= MOST_CODE,
        _ => false,
    }
}

// Whether a registered PLMN in its ranges, or none, stands in 5 octets.
#[tactic(auto, unfolding(phase::specs::Branch::is_registered, phase::specs::Facts::registered_written, phase::specs::Facts::registered_from, phase::specs::Facts::registered_fits))]
fn is_registered(list: &[u8], at: usize) -> bool
    requires { at + 5 ≤ length list.now }
    ensures { result ≡ is_registered list.now at }
{
    match get(list, at, 1) {
        0 => zeros_at(list, at + 1, 4),
        1 => get(list, at + 1, 2) <= MOST_CODE && get(list, at + 3, 2) <= MOST_CODE,
        _ => false,
    }
}

// Whether place facts that may be kept stand in 9 octets.
#[tactic(auto, unfolding(phase::specs::Branch::is_place, phase::specs::Branch::is_registered, phase::specs::Facts::facts_written, phase::specs::Facts::facts_from, phase::specs::Facts::facts_fit, address::specs::Address::is_version))]
pub fn is_facts(list: &[u8], at: usize) -> bool
    requires { at + 9 ≤ length list.now }
    ensures { result ≡ facts_written list.now at && facts_fit (facts_from list.now at) }
{
    is_place(list, at) && is_registered(list, at + 3) && matches!(get(list, at + 8, 1), 4 | 6)
}
