// Choosing an address of the gateway.
#![tactic(auto)]

ghost use Rattle.std.specs.Prelude.{List, [], ◌∷◌, ◌≡◌, ◌*◌, ◌≤◌, length};
ghost use Rattle.address.specs.Address.{stands};
ghost use Rattle.address.specs.declared.Address.{Address};
ghost use Rattle.addresses.specs.Addresses.{address_length};
ghost use Rattle.lists.specs.Held.{HeldAre};
ghost use Rattle.lists.specs.Lists.{addresses_in, most_entries};
ghost use Rattle.gateway.specs.Gateway.{choose};
ghost use Rattle.gateway.specs.Laws.{Laws};

use address::Address;
use addresses::ADDRESS;
use lists::{ENTRIES, address_at};

// What a list of addresses gives; both cases carry a count and none permitted is no error, so that this is no `Result`.
#[derive(Clone, Copy)]
pub enum Found {
    // An address, and how many were passed over before it.
    Chosen(Address, usize),
    // None is permitted: how many were passed over.
    Nothing(usize),
}

// Chooses from a list of addresses, of each of which it is told whether it is on hold.
pub fn choose(list: &[u8], local: u64, held: [bool; ENTRIES]) -> Found
    requires { length list.now ≤ address_length * most_entries }
    ensures { (hs : List Address) → HeldAre held list.now hs → result ≡ choose local hs (addresses_in list.now) }
{
    let count = list.len() / ADDRESS;
    for i in 0..count {
        let a = address_at(list, i);
        if a.version() == local && !held[i] {
            return Found::Chosen(a, i);
        }
    }
    Found::Nothing(count)
}

// Chooses from a list of one address, of which it is told whether it is on hold.
#[tactic(auto, unfolding(crate::specs::Gateway::choose, crate::specs::Gateway::found_at, octets::specs::Row::place, address::specs::Address::permitted))]
pub fn choose_one(a: Address, local: u64, held: bool) -> Found
    ensures { (hs : List Address) → held ≡ stands a hs → result ≡ choose local hs (a ∷ []) }
{
    if a.version() == local && !held {
        return Found::Chosen(a, 0);
    }
    Found::Nothing(1)
}

// Does nothing; its promise is the laws of this crate's definitions.
pub fn laws()
    ensures { Laws }
{}
