// Networks that a configuration bars, prefers and ranks.
#![tactic(auto)]

ghost use Rattle.std.specs.Prelude.{◌≡◌};
ghost use Rattle.network.specs.Plmn.{among};
ghost use Rattle.config.specs.Settings.{settings_of};
ghost use Rattle.lists.specs.Lists.{networks_in};
ghost use Rattle.ranking.specs.Branch.{best_of};
ghost use Rattle.preference.specs.Preference.{barred, eligible, offered, preferred, provisioned, ranked, unranked, visited};

use config::Configuration;
use entries::list::has_preferred;
use entry::field::Preferred;
use lists::{NETWORK, network_at};
use network::Plmn;
use place::Place;

// Whether a configuration has a `node` or a `plmn` record.
pub fn is_provisioned(configuration: Configuration) -> bool
    ensures { result ≡ provisioned (settings_of configuration.entry) }
{
    configuration.node.is_some() || !configuration.plmns.is_empty()
}

// Whether a PLMN is on the forbidden list.
pub fn is_barred(configuration: Configuration, p: Plmn) -> bool
    ensures { result ≡ barred (settings_of configuration.entry) p }
{
    has_preferred(configuration.bars, p)
}

// Whether a PLMN has a `plmn` record.
pub fn is_preferred(configuration: Configuration, p: Plmn) -> bool
    ensures { result ≡ preferred (settings_of configuration.entry) p }
{
    has_preferred(configuration.plmns, p)
}

// Whether a PLMN has the visited MCC.
fn is_visited(place: Place, p: Plmn) -> bool
    ensures { result ≡ visited place p }
{
    match place {
        Place::Abroad(mcc) => p.mcc == mcc,
        _ => false,
    }
}

// Whether a PLMN stands in a list of networks.
pub fn is_listed(networks: &[u8], p: Plmn) -> bool
    ensures { result ≡ among p (networks_in networks.now) }
{
    (0..networks.len() / NETWORK).any(|i| p == network_at(networks, i))
}

// Whether a country answer offers a network.
fn is_offered(networks: &[u8], place: Place, p: Plmn) -> bool
    ensures { result ≡ offered (networks_in networks.now) place p }
{
    if networks.len() < NETWORK {
        return is_visited(place, p);
    }
    is_listed(networks, p)
}

// Whether the network of a `plmn` record is offered and not barred.
fn is_eligible(configuration: Configuration, networks: &[u8], place: Place, x: Preferred) -> bool
    ensures { result ≡ eligible (settings_of configuration.entry) (networks_in networks.now) place x }
{
    is_offered(networks, place, x.plmn) && !is_barred(configuration, x.plmn)
}

// The better of the best record so far, where there is one, and a later record.
fn better_of(best: Option<Preferred>, x: Preferred) -> Preferred
    ensures { Some result ≡ best_of best (Some x) }
{
    let Some(y) = best else {
        return x;
    };
    if y.priority <= x.priority { y } else { x }
}

// The network of best priority among the records that are eligible.
pub fn ranked(configuration: Configuration, networks: &[u8], place: Place) -> Option<Plmn>
    ensures { result ≡ ranked (settings_of configuration.entry) (networks_in networks.now) place }
{
    // The contract of `min_by_key` leaves goals that no short answer closes, so the records are gone through.
    let mut best = None;
    for x in configuration.plmns {
        if is_eligible(configuration, networks, place, *x) {
            best = Some(better_of(best, *x));
        }
    }
    best.map(|x| x.plmn)
}

// The pick where no priority decides.
pub fn unranked(configuration: Configuration, networks: &[u8]) -> Option<Plmn>
    ensures { result ≡ unranked (settings_of configuration.entry) (networks_in networks.now) }
{
    (0..networks.len() / NETWORK)
        .map(|i| network_at(networks, i))
        .find(|p| !is_barred(configuration, *p))
}
