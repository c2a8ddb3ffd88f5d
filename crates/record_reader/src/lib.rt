// A record read where it lies: as much of its line as a call looks at.
#![tactic(auto)]

ghost use Rattle.std.specs.Prelude.{◌≡◌, [], ◌*◌, ◌≤◌, length};
ghost use Rattle.octets.specs.Digits.{field};
ghost use Rattle.address.specs.Address.{held_addresses, most_holds, stands};
ghost use Rattle.addresses.specs.Addresses.{address_length};
ghost use Rattle.children.specs.Children.{has_spi, most_children};
ghost use Rattle.children.specs.Listed.{children_of};
ghost use Rattle.lists.specs.Held.{HeldAre};
ghost use Rattle.lists.specs.Lists.{most_entries};
ghost use Rattle.phase.specs.Standing.{bare};
ghost use Rattle.record.specs.Changes.{in_force, unheld};
ghost use Rattle.record.specs.Line.{line_of};
ghost use Rattle.record.specs.Octets.{child_count_place, hold_count_place, line_from, record_length};

use address::{Address, End, Hold};
use addresses::ADDRESS;
use bounded::Bounded;
use buffer::number::get;
use child_codec::{has_spi_at, read_children};
use children::{Child, Children};
use hold_codec::{count_in_force, is_held_at};
use lists::{ENTRIES, address_at};
use phase::Phase;
use record::{CHILD_COUNT_AT, CHILDREN_AT, HOLD_COUNT_AT, HOLDS_AT, PHASE_AT, Record};
use standing::read_bare;

// A line of which only the phase and the children are known.
fn unheld(phase: Phase, children: Children) -> Record
    ensures { line_of result ≡ unheld phase (children_of children) }
{
    let nothing = Hold {
        address: Address::V4(0),
        end: End::Never,
    };
    Record {
        time: 0,
        phase,
        holds: Bounded::empty(nothing),
        children,
    }
}

// The line in a record's octets, of which only the bare phase is known.
pub fn read_unlisted(b: &[u8]) -> Record
    requires { record_length ≤ length b.now }
    ensures { line_of result ≡ unheld (bare (line_from b.now).phase) [] }
{
    let none = Bounded::empty(Child { spi: 0, session: 0 });
    unheld(read_bare(b, PHASE_AT), none)
}

// The line in a record's octets, of which only the bare phase and the children are known; inlined, so that the holds are known to be none.
#[inline(always)]
pub fn read_unheld(b: &[u8]) -> Record
    requires { (record_length ≤ length b.now) × (field b.now child_count_place 1 ≤ most_children) }
    ensures { line_of result ≡ unheld (bare (line_from b.now).phase) (line_from b.now).children }
{
    let n = get(b, CHILD_COUNT_AT, 1) as usize;
    let children = read_children(b, CHILDREN_AT, n);
    unheld(read_bare(b, PHASE_AT), children)
}

// How many children the line in a record has.
pub fn child_count_in(b: &[u8]) -> usize
    requires { record_length ≤ length b.now }
    ensures { result ≡ length (line_from b.now).children }
{
    get(b, CHILD_COUNT_AT, 1) as usize
}

// Whether an SPI is that of a child of the line in a record.
pub fn has_spi_in(b: &[u8], spi: u64) -> bool
    requires { (record_length ≤ length b.now) × (field b.now child_count_place 1 ≤ most_children) }
    ensures { result ≡ has_spi spi (line_from b.now).children }
{
    has_spi_at(b, CHILDREN_AT, get(b, CHILD_COUNT_AT, 1) as usize, spi)
}

// How many holds of the line in a record are in force at a time.
pub fn in_force_in(b: &[u8], time: u64) -> usize
    requires { (record_length ≤ length b.now) × (field b.now hold_count_place 1 ≤ most_holds) }
    ensures { result ≡ length (in_force time (line_from b.now)).holds }
{
    count_in_force(b, HOLDS_AT, get(b, HOLD_COUNT_AT, 1) as usize, time)
}

// Whether the line in a record holds an address at a time.
pub fn is_held_in(b: &[u8], time: u64, a: Address) -> bool
    requires { (record_length ≤ length b.now) × (field b.now hold_count_place 1 ≤ most_holds) }
    ensures { result ≡ stands a (held_addresses (in_force time (line_from b.now)).holds) }
{
    is_held_at(b, HOLDS_AT, get(b, HOLD_COUNT_AT, 1) as usize, time, a)
}

// Which addresses of a lent list the line in a record holds at a time.
pub fn held_in(b: &[u8], time: u64, list: &[u8]) -> [bool; ENTRIES]
    requires { (record_length ≤ length b.now) × (field b.now hold_count_place 1 ≤ most_holds) }
    ensures { length list.now ≤ address_length * most_entries → HeldAre result list.now (held_addresses (in_force time (line_from b.now)).holds) }
{
    let n = get(b, HOLD_COUNT_AT, 1) as usize;
    let mut held = [false; ENTRIES];
    // Most lines hold nothing, and then no address is read.
    if n == 0 {
        return held;
    }
    for i in 0..ENTRIES.min(list.len() / ADDRESS) {
        held[i] = is_held_at(b, HOLDS_AT, n, time, address_at(list, i));
    }
    held
}
