// The child associations of a live line: made, deleted, and gone with the IKE association.
#![tactic(auto)]

ghost use Rattle.std.specs.Prelude.{List, [], ◌≡◌, ◌<◌, length, OnOk};
ghost use Rattle.children.specs.Children.{has_spi, most_children};
ghost use Rattle.children.specs.declared.Child.{Child};
ghost use Rattle.record.specs.Changes.{with_children};
ghost use Rattle.record.specs.Line.{line_of};
ghost use Rattle.rules.specs.Call.{child_made, child_deleted, ike_delete};
ghost use Rattle.rules.specs.Refusals.{is_child};
ghost use Rattle.step.specs.Step.{effect, effect_in};
ghost use Rattle.tunnel.specs.Made.{made_on};

use bounded::Bounded;
use buffer::number::MOST_OCTET;
use child_codec::{child_fits, has_spi, without};
use children::{CHILDREN, Child};
use phase::Phase;
use record::Record;
use refusal::Refusal;
use rules::Action;
use step::{Done, Stepped, found_at};

// The highest SPI.
const MOST_SPI: u64 = 4294967295;

// Whether the numbers of a child are in their ranges and fit its octets.
fn is_child(child: Child) -> bool
    ensures { result ≡ is_child child }
{
    child_fits(child) && child.spi <= MOST_SPI && child.session <= MOST_OCTET
}

// A child made, but for the child itself: whether its SPI is taken and how many children stand come with it.
pub fn made(line: Record, time: u64, child: Child, taken: bool, n: usize) -> Stepped
    ensures effect_is { (cs : List Child) → taken ≡ has_spi child.spi cs → n ≡ length cs → made_on (line_of line) result child cs ≡ effect (child_made child.spi child.session) time (with_children (line_of line) cs) }
    ensures room { OnOk result (n < most_children) }
{
    let found = found_at(line, time)?;
    if !is_child(child) {
        return Err(Refusal::Range);
    }
    let Phase::Live(_) = found.phase else {
        return Err(Refusal::Phase);
    };
    if taken {
        return Err(Refusal::Spi);
    }
    if CHILDREN <= n {
        return Err(Refusal::Children);
    }
    Ok(Done {
        line: found,
        action: Action::Nothing,
    })
}

// A child made: it stands behind the others.
pub fn child_made(line: Record, time: u64, spi: u64, session: u64) -> Stepped
    ensures { effect_in (line_of line) result [] [] ≡ effect (child_made spi session) time (line_of line) }
{
    let mut children = line.children;
    let child = Child { spi, session };
    let taken = has_spi(children.as_slice(), spi);
    let done = made(line, time, child, taken, children.count)?;
    children.push(child);
    Ok(Done {
        line: done.line.with_children(children),
        action: done.action,
    })
}

// A child deleted: those of other SPIs stay in their order.
pub fn child_deleted(line: Record, time: u64, spi: u64) -> Stepped
    ensures { effect_in (line_of line) result [] [] ≡ effect (child_deleted spi) time (line_of line) }
{
    let found = found_at(line, time)?;
    let Phase::Live(_) = found.phase else {
        return Err(Refusal::Phase);
    };
    // The children are copied first, so that the rest of the record is not.
    let children = found.children;
    if !has_spi(children.as_slice(), spi) {
        return Err(Refusal::Phase);
    }
    let others = without(children.as_slice(), spi);
    Ok(Done {
        line: found.with_children(others),
        action: Action::Nothing,
    })
}

// IKE delete: the line is released, and no child stands.
pub fn ike_delete(line: Record, time: u64) -> Stepped
    ensures { effect_in (line_of line) result [] [] ≡ effect ike_delete time (line_of line) }
{
    let found = found_at(line, time)?;
    let Phase::Live(_) = found.phase else {
        return Err(Refusal::Phase);
    };
    let list = found.children.list;
    let none = Bounded { list, count: 0 };
    Ok(Done {
        line: found.in_phase(Phase::Idle).with_children(none),
        action: Action::Released(false),
    })
}

// An event that takes children of a live line away.
#[derive(Clone, Copy)]
pub enum TunnelEvent {
    // SPI.
    ChildDeleted(u64),
    IkeDelete,
}
