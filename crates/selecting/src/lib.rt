// What selection comes to on a line, up to the choice of a name or an address.
#![tactic(auto)]

mod given;
mod lent;

ghost use Rattle.std.specs.Prelude.{◌≡◌, ℕ, ltb, length};
ghost use Rattle.phase.specs.Awaited.{awaited_in};
ghost use Rattle.record.specs.Line.{Line};
ghost use Rattle.rules.specs.Call.{country, last_time, start};
ghost use Rattle.rules.specs.Refusals.{bad_networks};
ghost use Rattle.selecting.specs.Selects.{Selects};

use crate::given::{facts_of, numbers_fit};
use crate::lent::{UNLISTED, read};
use address::HOLDS;
use config::MOST_LISTED;
use lists::networks_fit;
use phase::Phase;
use place::Facts;
use refusal::Refusal;
use rules::StartNumbers;
use selection::Choice;
use step::LAST_TIME;

// What selection came to: the place facts of the attempt and the choice.
#[derive(Clone, Copy)]
pub struct Selected {
    pub facts: Facts,
    pub choice: Choice,
}

// What start comes to on a line in a phase that has so many holds in force.
pub fn start_choice(
    phase: Phase,
    time: u64,
    given: StartNumbers,
    text: &[u8],
    in_force: usize,
) -> Result<Selected, Refusal>
    ensures { (x : Line) (room : ℕ) → x.phase ≡ phase → length x.holds ≡ in_force → Selects result (start given text.now room) (ltb last_time time) x text.now }
{
    if (LAST_TIME < time) | !numbers_fit(given) {
        return Err(Refusal::Range);
    }
    let facts = facts_of(given);
    let mut preferred = [UNLISTED; MOST_LISTED];
    let mut barred = [UNLISTED; MOST_LISTED];
    let config = read(text, Some(facts), &mut preferred, &mut barred)?;
    let Phase::Idle = phase else {
        return Err(Refusal::Phase);
    };
    if HOLDS <= in_force {
        return Err(Refusal::Holds);
    }
    let choice = choosing::start(config.lent(&preferred, &barred), facts);
    Ok(Selected { facts, choice })
}

// Whether a lent list of networks is out of its range, or comes without a reply.
#[tactic(auto, unfolding(rules::specs::Refusals::bad_networks))]
fn are_bad(replied: u64, networks: &[u8]) -> bool
    ensures { result ≡ bad_networks replied networks.now }
{
    (1 < replied) | !networks_fit(networks) | ((replied == 0) & (0 < networks.len()))
}

// What the country answer comes to on a line, told of the place facts where the line waits for it.
pub fn country_choice(
    awaited: Option<Facts>,
    time: u64,
    replied: u64,
    networks: &[u8],
    text: &[u8],
) -> Result<Selected, Refusal>
    ensures { (x : Line) (room : ℕ) → awaited ≡ awaited_in x.phase → Selects result (country replied networks.now text.now room) (ltb last_time time) x text.now }
{
    if (LAST_TIME < time) | are_bad(replied, networks) {
        return Err(Refusal::Range);
    }
    let mut preferred = [UNLISTED; MOST_LISTED];
    let mut barred = [UNLISTED; MOST_LISTED];
    let config = read(text, awaited, &mut preferred, &mut barred)?;
    let Some(facts) = awaited else {
        return Err(Refusal::Phase);
    };
    let configuration = config.lent(&preferred, &barred);
    let choice = choosing::country(configuration, facts, replied == 1, networks);
    Ok(Selected { facts, choice })
}
