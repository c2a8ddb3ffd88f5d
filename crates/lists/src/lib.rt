// Lent lists of networks and of addresses, read entry by entry.
#![tactic(auto)]

ghost use Rattle.std.specs.Prelude.{◌≡◌, ◌+◌, ◌*◌, ◌≤◌, ◌<◌, length};
ghost use Rattle.addresses.specs.Addresses.{address_length};
ghost use Rattle.lists.specs.Lists.{address_at, addresses_fit, address_fits, network_at, network_fits, network_length, networks_fit, whole};

use address::Address;
use addresses::{ADDRESS, is_address, read_address};
use buffer::number::get;
use network::{MOST_CODE, Plmn};

// The octets of a network.
pub const NETWORK: usize = 4;

// How many entries a lent list may have.
pub const ENTRIES: usize = 16;

// Whether a list has at most 16 whole entries of a size.
#[tactic(auto, unfolding(crate::specs::Lists::whole))]
fn is_whole(list: &[u8], size: usize) -> bool
    requires { 0 < size }
    ensures { result ≡ whole size list.now }
{
    list.len() % size == 0 && list.len() / size <= ENTRIES
}

// The network at a place.
#[tactic(auto, unfolding(crate::specs::Lists::network_at))]
pub fn network_at(list: &[u8], i: usize) -> Plmn
    requires { network_length * i + network_length ≤ length list.now }
    ensures { result ≡ network_at list.now i }
{
    Plmn {
        mcc: get(list, NETWORK * i, 2),
        mnc: get(list, NETWORK * i + 2, 2),
    }
}

// Whether the numbers of the network at a place are in their ranges.
#[tactic(auto, unfolding(crate::specs::Lists::network_fits))]
fn network_fits(list: &[u8], i: usize) -> bool
    requires { network_length * i + network_length ≤ length list.now }
    ensures { result ≡ network_fits list.now i }
{
    let p = network_at(list, i);
    (p.mcc <= MOST_CODE) & (p.mnc <= MOST_CODE)
}

// Whether a list is one of networks.
#[tactic(auto, unfolding(crate::specs::Lists::networks_fit))]
pub fn networks_fit(list: &[u8]) -> bool
    ensures { result ≡ networks_fit list.now }
{
    is_whole(list, NETWORK) && (0..list.len() / NETWORK).all(|i| network_fits(list, i))
}

// The address at a place.
#[tactic(auto, unfolding(crate::specs::Lists::address_at))]
pub fn address_at(list: &[u8], i: usize) -> Address
    requires { address_length * i + address_length ≤ length list.now }
    ensures { result ≡ address_at list.now i }
{
    read_address(list, ADDRESS * i)
}

// Whether an address stands at a place.
#[tactic(auto, unfolding(crate::specs::Lists::address_fits))]
fn address_fits(list: &[u8], i: usize) -> bool
    requires { address_length * i + address_length ≤ length list.now }
    ensures { result ≡ address_fits list.now i }
{
    is_address(list, ADDRESS * i)
}

// Whether a list is one of addresses.
#[tactic(auto, unfolding(crate::specs::Lists::addresses_fit))]
pub fn addresses_fit(list: &[u8]) -> bool
    ensures { result ≡ addresses_fit list.now }
{
    is_whole(list, ADDRESS) && (0..list.len() / ADDRESS).all(|i| address_fits(list, i))
}
