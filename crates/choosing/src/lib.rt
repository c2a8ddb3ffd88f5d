// Choosing a network and a gateway, up to the name that is asked: the code of S1 to S4.
#![tactic(auto)]

ghost use Rattle.std.specs.Prelude.{◌≡◌};
ghost use Rattle.config.specs.Settings.{settings_of};
ghost use Rattle.lists.specs.Lists.{networks_in};
ghost use Rattle.selection.specs.Selection.{abroad, country_reply, ask_or, at_home, counting, country, direct, home_abroad, if_listed, one_or_more, start};
ghost use Rattle.preference.specs.Preference.{ranked};

use config::{Configuration, Node};
use lists::NETWORK;
use network::Plmn;
use place::{Facts, Place};
use ranking::{is_barred, is_listed, is_preferred, is_provisioned, ranked, unranked};
use selection::{Choice, Stop};

// Whether a place is abroad with the home MCC.
pub fn is_home_abroad(configuration: Configuration, place: Place) -> bool
    ensures { result ≡ home_abroad (settings_of configuration.entry) place }
{
    match place {
        Place::Abroad(mcc) => mcc == configuration.home.mcc,
        _ => false,
    }
}

// The registered PLMN, where it is not the home PLMN.
fn counting(configuration: Configuration, registered: Option<Plmn>) -> Option<Plmn>
    ensures { result ≡ counting (settings_of configuration.entry) registered }
{
    registered.filter(|p| *p != configuration.home)
}

// S2: the `node` record decides, or the home PLMN.
fn at_home(configuration: Configuration) -> Choice
    ensures { result ≡ at_home (settings_of configuration.entry) }
{
    match configuration.node {
        Some(Node::Address(a)) => Choice::Address(a),
        Some(Node::Name { at, length }) => Choice::Text { at, length },
        None => Choice::Network(configuration.home),
    }
}

// S3: whether the name of a registered PLMN is asked at once.
fn is_direct(configuration: Configuration, p: Plmn) -> bool
    ensures { result ≡ direct (settings_of configuration.entry) p }
{
    is_provisioned(configuration) && !is_barred(configuration, p) && is_preferred(configuration, p)
}

// S3, and S4 up to its question.
fn abroad(configuration: Configuration, registered: Option<Plmn>, mcc: u64) -> Choice
    ensures { result ≡ abroad (settings_of configuration.entry) registered mcc }
{
    match registered {
        Some(p) if is_direct(configuration, p) => Choice::Network(p),
        _ => Choice::Country(mcc),
    }
}

// What start comes to.
pub fn start(configuration: Configuration, facts: Facts) -> Choice
    ensures { result ≡ start (settings_of configuration.entry) facts }
{
    match facts.place {
        Place::Unknown => Choice::Stop(Stop::Place),
        Place::Home => at_home(configuration),
        Place::Abroad(mcc) => {
            abroad(
                configuration,
                counting(configuration, facts.registered),
                mcc,
            )
        }
    }
}

// The registered PLMN, where it is listed and not barred.
fn if_listed(
    configuration: Configuration,
    registered: Option<Plmn>,
    networks: &[u8],
) -> Option<Plmn>
    ensures { result ≡ if_listed (settings_of configuration.entry) registered (networks_in networks.now) }
{
    let p = registered?;
    let counts = is_listed(networks, p) && !is_barred(configuration, p);
    counts.then_some(p)
}

// The name of a network is asked, where there is one.
fn ask_or(network: Option<Plmn>, other: Choice) -> Choice
    ensures { result ≡ ask_or network other }
{
    match network {
        Some(p) => Choice::Network(p),
        None => other,
    }
}

// S4 where one or more networks are listed.
fn one_or_more(configuration: Configuration, facts: Facts, networks: &[u8]) -> Choice
    ensures { result ≡ one_or_more (settings_of configuration.entry) facts (networks_in networks.now) }
{
    let registered = counting(configuration, facts.registered);
    if let Some(p) = if_listed(configuration, registered, networks) {
        return Choice::Network(p);
    }
    if let Some(p) = ranked(configuration, networks, facts.place) {
        return Choice::Network(p);
    }
    ask_or(
        unranked(configuration, networks),
        Choice::Stop(Stop::Barred),
    )
}

// S4 where no network is listed.
fn none_listed(configuration: Configuration, place: Place, networks: &[u8]) -> Choice
    ensures { result ≡ ask_or (ranked (settings_of configuration.entry) (networks_in networks.now) place) (at_home (settings_of configuration.entry)) }
{
    ask_or(
        ranked(configuration, networks, place),
        at_home(configuration),
    )
}

// What the country answer comes to.
pub fn country(configuration: Configuration, facts: Facts, replied: bool, networks: &[u8]) -> Choice
    ensures { result ≡ country (settings_of configuration.entry) facts (country_reply replied (networks_in networks.now)) }
{
    if !replied {
        return Choice::Stop(Stop::NoReply);
    }
    if networks.len() < NETWORK {
        return none_listed(configuration, facts.place, networks);
    }
    one_or_more(configuration, facts, networks)
}
