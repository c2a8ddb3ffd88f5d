// Lines of the configuration text, each begun by its word.
ghost use Rattle.std.specs.Prelude.{◌≤◌, length};
ghost use Rattle.entries.specs.Branch.{BeginsIs, HomeIs, ListedIs};
ghost use Rattle.config.specs.declared.Kind.TheVariants as Kind;

use entry::field::Preferred;
use entry::{NEWLINE, TAB};
use fields::field::Field;
use fields::read::{plmn_at, priority_at};
use network::Plmn;

// The octets of the word `bar` and a tab.
const BEHIND_BAR: usize = 4;

// The octets of the word `home` or `plmn` and a tab.
const BEHIND_WORD: usize = 5;

// Whether octets stand at a place.
pub(crate) fn begins(text: &[u8], at: usize, octets: &[u8]) -> bool
    requires { at ≤ length text.now }
    ensures { BeginsIs text.now at octets.now result }
{
    text[at..].starts_with(octets)
}

// A `bar` entry at a place, which has priority 0.
pub fn bar_at(text: &[u8], at: usize) -> Option<Field<Preferred>>
    requires { at ≤ length text.now }
    ensures { ListedIs Kind.Bar text.now at result }
{
    if !begins(text, at, b"bar\t") {
        return None;
    }
    let plmn = plmn_at(text, at + BEHIND_BAR, NEWLINE)?;
    Some(Field {
        value: Preferred {
            plmn: plmn.value,
            priority: 0,
        },
        next: plmn.next,
    })
}

// A `plmn` entry at a place.
pub fn preference_at(text: &[u8], at: usize) -> Option<Field<Preferred>>
    requires { at ≤ length text.now }
    ensures { ListedIs Kind.Plmn text.now at result }
{
    if !begins(text, at, b"plmn\t") {
        return None;
    }
    let plmn = plmn_at(text, at + BEHIND_WORD, TAB)?;
    let priority = priority_at(text, plmn.next)?;
    Some(Field {
        value: Preferred {
            plmn: plmn.value,
            priority: priority.value,
        },
        next: priority.next,
    })
}

// `home` at the start of the text: its PLMN.
pub fn home_at(text: &[u8]) -> Option<Field<Plmn>>
    ensures { HomeIs text.now result }
{
    if !begins(text, 0, b"home\t") {
        return None;
    }
    plmn_at(text, BEHIND_WORD, NEWLINE)
}
