// Lists of PLMNs in the configuration text.
ghost use Rattle.std.specs.Prelude.{◌≤◌, length};
ghost use Rattle.entries.specs.Branch.{ListedIs};
ghost use Rattle.parser.specs.Section.{SectionIs};
ghost use Rattle.config.specs.Settings.{most_listed};

use config::{Kind, MOST_LISTED};
use entries::line::{bar_at, preference_at};
use entries::list::has_preferred;
use entry::field::Preferred;
use fields::field::Field;

// The entry of a kind at a place.
fn listed_at(text: &[u8], at: usize, kind: Kind) -> Option<Field<Preferred>>
    requires { at ≤ length text.now }
    ensures { ListedIs kind text.now at result }
{
    match kind {
        Kind::Plmn => preference_at(text, at),
        Kind::Bar => bar_at(text, at),
    }
}

// The entries of one kind from a place on: how many there are, and where the next line begins.
#[derive(Clone, Copy)]
pub(crate) struct Section {
    pub count: usize,
    pub next: usize,
}

// Collects the entries of one kind that follow one another in a list, where there are at most `MOST_LISTED` and no PLMN stands twice.
pub(crate) fn collect(
    text: &[u8],
    start: usize,
    kind: Kind,
    list: &mut [Preferred],
) -> Option<Section>
    requires { (start ≤ length text.now) × (most_listed ≤ length list.old) }
    ensures { SectionIs kind text.now start list.new result }
{
    let mut count = 0;
    let mut at = start;
    while let Some(listed) = listed_at(text, at, kind) {
        if (count == MOST_LISTED) | has_preferred(&list[..count], listed.value.plmn) {
            return None;
        }
        list[count] = listed.value;
        count += 1;
        at = listed.next;
    }
    Some(Section { count, next: at })
}
