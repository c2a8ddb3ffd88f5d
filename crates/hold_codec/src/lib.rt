// Holds read from their octets, written and tested there.
#![tactic(auto)]

ghost use Rattle.std.specs.Prelude.{◌&&◌, ◌≡◌, ◌+◌, ◌≤◌, length};
ghost use Rattle.octets.specs.Digits.{field};
ghost use Rattle.octets.specs.Part.{Wrote};
ghost use Rattle.octets.specs.Row.{joined, only};
ghost use Rattle.octets.specs.Search.{all_of};
ghost use Rattle.address.specs.Address.{held_addresses, most_holds, stands};
ghost use Rattle.addresses.specs.Addresses.{address_length};
ghost use Rattle.holds.specs.Holds.{different, end_after, end_number, end_of, ends_after, hold_from, hold_length, hold_octets, holds_from, holds_room, holds_written};
ghost use Rattle.holds.specs.Keys.{KeysOf};
ghost use Rattle.holds.specs.Listed.{holds_of};

use address::{Address, End, HOLDS, Hold, is_held};
use addresses::{ADDRESS, is_address, key_at, put_address, read_address};
use bounded::Bounded;
use buffer::number::{get, put};
use buffer::slice::zeros_at;
use differ::pick;
use holds::{HOLD, HOLDS_ROOM, Holds};

// What stands in the places that hold nothing.
const NOTHING: Hold = Hold {
    address: Address::V4(0),
    end: End::Never,
};

// The end of a hold as a number; octets are laid down here and not with the type, so that this is no `From`.
fn end_number(end: End) -> u64
    ensures { result ≡ end_number end }
{
    match end {
        End::At(time) => time,
        End::Never => 0,
    }
}

// The end of a hold from its number.
fn end_of(number: u64) -> End
    ensures { result ≡ end_of number }
{
    if number == 0 {
        return End::Never;
    }
    End::At(number)
}

// The hold at a place.
fn read_hold(b: &[u8], at: usize) -> Hold
    requires { at + hold_length ≤ length b.now }
    ensures { result ≡ hold_from b.now at }
{
    let address = read_address(b, at);
    let end = end_of(get(b, at + ADDRESS, 5));
    Hold { address, end }
}

// Stores a hold at a place.
pub fn put_hold(b: &mut [u8], at: usize, hold: Hold)
    requires { at + hold_length ≤ length b.old }
    ensures { Wrote b.old at (hold_octets hold) b.new }
{
    put_address(b, at, hold.address);
    put(b, at + ADDRESS, 5, end_number(hold.end));
}

// The first n holds of those that begin at a place.
pub fn read_holds(b: &[u8], at: usize, n: usize) -> Holds
    requires { (at + holds_room ≤ length b.now) × (n ≤ most_holds) }
    ensures { holds_of result ≡ holds_from b.now at n }
{
    Bounded::from_fn(n, NOTHING, |i| read_hold(b, at + HOLD * i))
}

// Stores holds from a place on.
pub fn put_holds(b: &mut [u8], at: usize, holds: &[Hold])
    requires { (at + holds_room ≤ length b.old) × (length holds.now ≤ most_holds) }
    ensures { Wrote b.old at (joined hold_octets holds.now) b.new }
{
    for i in 0..holds.len() {
        put_hold(b, at + HOLD * i, holds[i]);
    }
}

// Whether the hold at a place ends after a time.
fn ends_at_after(b: &[u8], at: usize, time: u64) -> bool
    requires { at + hold_length ≤ length b.now }
    ensures { result ≡ end_after time (end_of (field b.now (at + address_length) 5)) }
{
    // The five octets of the end are the last of eight, which are one load.
    let end = get(b, at + ADDRESS - 3, 8) % 1099511627776;
    (end == 0) | (time < end)
}

// Whether each of the n holds at a place ends after a time.
pub fn all_in_force(b: &[u8], at: usize, n: usize, time: u64) -> bool
    requires { (at + holds_room ≤ length b.now) × (n ≤ most_holds) }
    ensures { result ≡ all_of (ends_after time) (holds_from b.now at n) }
{
    for i in 0..n {
        if !ends_at_after(b, at + HOLD * i, time) {
            return false;
        }
    }
    true
}

// How many of the n holds at a place end after a time.
pub fn count_in_force(b: &[u8], at: usize, n: usize, time: u64) -> usize
    requires { (at + holds_room ≤ length b.now) × (n ≤ most_holds) }
    ensures { result ≡ length (only (ends_after time) (holds_from b.now at n)) }
{
    let mut count = 0;
    for i in 0..n {
        if ends_at_after(b, at + HOLD * i, time) {
            count += 1;
        }
    }
    count
}

// Whether one of the n holds at a place is for an address and has not ended at a time.
pub fn is_held_at(b: &[u8], at: usize, n: usize, time: u64, a: Address) -> bool
    requires { (at + holds_room ≤ length b.now) × (n ≤ most_holds) }
    ensures { result ≡ stands a (held_addresses (only (ends_after time) (holds_from b.now at n))) }
{
    for i in 0..n {
        if (a == read_address(b, at + HOLD * i)) & ends_at_after(b, at + HOLD * i, time) {
            return true;
        }
    }
    false
}

// Whether at most 8 holds stand at a place, each with an address and not ended at a time, and zeros behind them.
pub fn stand_in_force(b: &[u8], at: usize, n: usize, time: u64) -> bool
    requires { at + holds_room ≤ length b.now }
    ensures { result ≡ holds_written b.now at n && all_of (ends_after time) (holds_from b.now at n) }
{
    if n == 0 {
        return zeros_at(b, at, HOLDS_ROOM);
    }
    if HOLDS < n {
        return false;
    }
    for i in 0..n {
        if !is_address(b, at + HOLD * i) {
            return false;
        }
        if !ends_at_after(b, at + HOLD * i, time) {
            return false;
        }
    }
    zeros_at(b, at + HOLD * n, HOLDS_ROOM - HOLD * n)
}

// The keys of the first n addresses held, and the key `other` in the last of the eight places where that is free.
pub fn keys(b: &[u8], at: usize, n: usize, other: u64) -> [u64; HOLDS]
    requires { (at + holds_room ≤ length b.now) × (n ≤ most_holds) }
    ensures { KeysOf b.now at n other result }
{
    let mut list = [0u64; HOLDS];
    for i in 0..HOLDS {
        let key = key_at(b, at + HOLD * i);
        let free = pick(i == HOLDS - 1, other, i as u64);
        list[i] = pick(i < n, key, free);
    }
    list
}

// Whether the holds are for different addresses.
pub fn are_different(holds: &[Hold]) -> bool
    ensures { result ≡ different (held_addresses holds.now) }
{
    for i in 0..holds.len() {
        if is_held(&holds[i + 1..], holds[i].address) {
            return false;
        }
    }
    true
}

// Whether a hold ends after a time.
fn ends_after(end: End, time: u64) -> bool
    ensures { result ≡ end_after time end }
{
    match end {
        End::At(t) => time < t,
        End::Never => true,
    }
}

// Those of the holds that end after a time, in their order.
pub fn in_force(holds: &[Hold], time: u64) -> Holds
    requires { length holds.now ≤ most_holds }
    ensures { holds_of result ≡ only (ends_after time) holds.now }
{
    Bounded::only(holds, NOTHING, |hold| ends_after(hold.end, time))
}
