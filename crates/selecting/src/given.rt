// The numbers of a start.
ghost use Rattle.std.specs.Prelude.{◌≡◌};
ghost use Rattle.rules.specs.Call.{facts_of, place_of, registered_of, start_numbers_fit};

use network::{MOST_CODE, Plmn};
use place::{Facts, Place};
use rules::StartNumbers;

// Whether the numbers of a start are in their ranges, those that it does not have being 0.
#[tactic(auto, unfolding(rules::specs::Call::start_numbers_fit, address::specs::Address::is_version))]
pub(crate) fn numbers_fit(g: StartNumbers) -> bool
    ensures { result ≡ start_numbers_fit g }
{
    (g.place <= 2)
        & (g.mcc <= MOST_CODE)
        & ((g.place == 2) | (g.mcc == 0))
        & (g.registered <= 1)
        & (g.registered_mcc <= MOST_CODE)
        & (g.registered_mnc <= MOST_CODE)
        & ((g.registered == 1) | ((g.registered_mcc == 0) & (g.registered_mnc == 0)))
        & ((g.version == 4) | (g.version == 6))
}

// The place that its number says, with the visited MCC.
#[tactic(auto, unfolding(rules::specs::Call::place_of))]
fn place_of(place: u64, mcc: u64) -> Place
    ensures { result ≡ place_of place mcc }
{
    match place {
        1 => Place::Home,
        2 => Place::Abroad(mcc),
        _ => Place::Unknown,
    }
}

// The PLMN that a line is registered to, where it is.
#[tactic(auto, unfolding(rules::specs::Call::registered_of))]
fn registered_of(registered: u64, mcc: u64, mnc: u64) -> Option<Plmn>
    ensures { result ≡ registered_of registered mcc mnc }
{
    (registered == 1).then_some(Plmn { mcc, mnc })
}

// The place facts that the numbers of a start say; both types are of lower crates, so that this is no `From`.
#[tactic(auto, unfolding(rules::specs::Call::facts_of))]
pub(crate) fn facts_of(g: StartNumbers) -> Facts
    ensures { result ≡ facts_of g }
{
    Facts {
        place: place_of(g.place, g.mcc),
        registered: registered_of(g.registered, g.registered_mcc, g.registered_mnc),
        version: g.version,
    }
}
