// The configuration text that is lent with a call.
ghost use Rattle.config.specs.Settings.{Room};
ghost use Rattle.selecting.specs.Lent.{LentIs};

use choosing::is_home_abroad;
use config::{Config, MOST_TEXT};
use entry::field::Preferred;
use network::Plmn;
use parser::parse::parse;
use place::Facts;
use refusal::Refusal;

// What stands in a place of a list in which no entry is kept.
pub(crate) const UNLISTED: Preferred = Preferred {
    plmn: Plmn { mcc: 0, mnc: 0 },
    priority: 0,
};

// Reads a lent text once, and leaves its `plmn` entries and barred PLMNs in two lists; it is out of range where it is too long or the place is abroad with its home MCC.
pub(crate) fn read(
    text: &[u8],
    facts: Option<Facts>,
    preferred: &mut [Preferred],
    barred: &mut [Preferred],
) -> Result<Config, Refusal>
    requires { Room preferred.old barred.old }
    ensures { LentIs result preferred.new barred.new text.now facts }
{
    if MOST_TEXT < text.len() {
        return Err(Refusal::Range);
    }
    let Some(config) = parse(text, preferred, barred) else {
        return Err(Refusal::Malformed);
    };
    if let Some(facts) = facts {
        if is_home_abroad(config.lent(preferred, barred), facts.place) {
            return Err(Refusal::Range);
        }
    }
    Ok(config)
}
