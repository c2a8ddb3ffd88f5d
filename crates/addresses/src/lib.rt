// Addresses in octets.
#![tactic(auto)]

ghost use Rattle.std.specs.Prelude.{◌≡◌, ◌+◌, ◌≤◌, length};
ghost use Rattle.octets.specs.Part.{Wrote};
ghost use Rattle.addresses.specs.Addresses.{address_from, address_length, address_octets, is_address};
ghost use Rattle.addresses.specs.Keys.{key_at};
ghost use Rattle.addresses.specs.Laws.{Laws};

use address::Address;
use buffer::number::{get, put};
use buffer::slice::{word, zeros_at};

// The octets of an address.
pub const ADDRESS: usize = 17;

// The address at a place.
#[tactic(auto, unfolding(crate::specs::Addresses::address_from, crate::specs::Addresses::version_from, address::specs::Address::address_of, address::specs::Address::width_of))]
pub fn read_address(list: &[u8], at: usize) -> Address
    requires { at + address_length ≤ length list.now }
    ensures { result ≡ address_from list.now at }
{
    match get(list, at, 1) {
        4 => Address::V4(get(list, at + 1, 4)),
        _ => Address::V6(get(list, at + 1, 8), get(list, at + 9, 8)),
    }
}

// Whether an address stands at a place.
#[tactic(auto, unfolding(crate::specs::Addresses::is_address, crate::specs::Addresses::version_from, address::specs::Address::is_version, address::specs::Address::width_of, octets::specs::Part::zeros_at))]
pub fn is_address(list: &[u8], at: usize) -> bool
    requires { at + address_length ≤ length list.now }
    ensures { result ≡ is_address list.now at }
{
    match get(list, at, 1) {
        4 => zeros_at(list, at + 5, 12),
        6 => true,
        _ => false,
    }
}

// The key of the address at a place.
pub fn key_at(list: &[u8], at: usize) -> u64
    requires { at + address_length ≤ length list.now }
    ensures { result ≡ key_at list.now at }
{
    word(list, at + 1) ^ word(list, at + 9)
}

// Stores an address at a place.
pub fn put_address(list: &mut [u8], at: usize, a: Address)
    requires { at + address_length ≤ length list.old }
    ensures { Wrote list.old at (address_octets a) list.new }
{
    match a {
        Address::V4(x) => {
            put(list, at, 1, 4);
            put(list, at + 1, 4, x);
            put(list, at + 5, 12, 0);
        }
        Address::V6(high, low) => {
            put(list, at, 1, 6);
            put(list, at + 1, 8, high);
            put(list, at + 9, 8, low);
        }
    }
}

// Does nothing; its promise is that writing and reading undo each other.
pub fn laws()
    ensures { Laws }
{}
