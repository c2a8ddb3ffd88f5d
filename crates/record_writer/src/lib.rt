// A record changed where it lies: opened, or its line moved on, with what a call changes of its lists.
#![tactic(auto)]

ghost use Rattle.std.specs.Prelude.{true, ◌≡◌, [], ◌∷◌, ◌++◌, ◌≤◌, ◌<◌, length, Some};
ghost use Rattle.octets.specs.Digits.{be, field};
ghost use Rattle.octets.specs.Part.{Wrote};
ghost use Rattle.address.specs.Address.{most_holds};
ghost use Rattle.address.specs.declared.Address.{Address};
ghost use Rattle.children.specs.Children.{most_children};
ghost use Rattle.phase.specs.Chosen.{chosen};
ghost use Rattle.phase.specs.Phase.{phase_octets};
ghost use Rattle.phase.specs.declared.Phase.TheVariants.{Idle};
ghost use Rattle.record.specs.Changes.{Changes, Goes, current, held_for, hold_until, in_force, in_phase, unheld, with_children, with_holds};
ghost use Rattle.record.specs.Octets.{child_count_place, hold_count_place, line_from, record_length, record_octets, time_place};
ghost use Rattle.record.specs.Sound.{is_record};

use address::{Address, End, HOLDS, Hold};
use addresses::read_address;
use buffer::number::{get, put};
use buffer::slice::zero;
use child_codec::{put_child, put_children};
use children::{CHILD, CHILDREN, Child};
use hold_codec::{all_in_force, in_force, put_hold, put_holds, read_holds};
use holds::HOLD;
use phase::{Phase, Standing};
use phase_codec::put_phase;
use record::{CHILD_COUNT_AT, CHILDREN_AT, HOLD_COUNT_AT, HOLDS_AT, PHASE_AT, RECORD, TIME_AT};
use standing::put_standing;

// Stores the record of a pair that was just opened.
pub fn put_fresh(b: &mut [u8], pair: u64)
    requires { length b.old ≡ record_length }
    ensures { b.new ≡ record_octets pair (unheld Idle []) }
{
    zero(b);
    put(b, 0, 1, pair);
}

// Stores the time and the phase of a line in its record.
fn put_head(b: &mut [u8], time: u64, phase: Phase)
    requires { hold_count_place ≤ length b.old }
    ensures { Wrote b.old time_place (be 4 time ++ phase_octets phase) b.new }
{
    put(b, TIME_AT, 4, time);
    put_phase(b, PHASE_AT, phase);
}

// Stores the holds in a record.
fn put_held(b: &mut [u8], holds: &[Hold])
    requires { (length b.old ≡ record_length) × (length holds.now ≤ most_holds) }
    ensures { Changes b.old b.new (λ x. with_holds x holds.now) }
{
    put(b, HOLD_COUNT_AT, 1, holds.len() as u64);
    zero(&mut b[HOLDS_AT..CHILDREN_AT]);
    put_holds(b, HOLDS_AT, holds);
}

// Stores the children in a record.
fn put_tunnels(b: &mut [u8], children: &[Child])
    requires { (length b.old ≡ record_length) × (length children.now ≤ most_children) }
    ensures { Changes b.old b.new (λ x. with_children x children.now) }
{
    put(b, CHILD_COUNT_AT, 1, children.len() as u64);
    zero(&mut b[CHILDREN_AT..RECORD]);
    put_children(b, CHILDREN_AT, children);
}

// Drops the holds of the line in a sound record that have ended at a time.
fn drop_ended(b: &mut [u8], time: u64)
    requires { (length b.old ≡ record_length) × (is_record b.old ≡ true) }
    ensures { b.new ≡ record_octets (field b.old 0 1) (in_force time (line_from b.old)) }
{
    let n = get(b, HOLD_COUNT_AT, 1) as usize;
    if all_in_force(b, HOLDS_AT, n, time) {
        return;
    }
    let held = read_holds(b, HOLDS_AT, n);
    let standing = in_force(held.as_slice(), time);
    put_held(b, standing.as_slice());
}

// Stores the time and the phase of the line in a sound record, and drops its holds that have ended.
pub fn keep(b: &mut [u8], time: u64, phase: Phase)
    requires { (length b.old ≡ record_length) × (is_record b.old ≡ true) }
    ensures { b.new ≡ record_octets (field b.old 0 1) (in_phase (current time (line_from b.old)) phase) }
{
    drop_ended(b, time);
    put_head(b, time, phase);
}

// Stores the time and where the phase stands of the line in a sound record, and drops its holds that have ended.
pub fn keep_standing(b: &mut [u8], time: u64, s: Standing)
    requires { (length b.old ≡ record_length) × (is_record b.old ≡ true) }
    ensures { Goes b.old time s b.new (λ x. x) }
{
    drop_ended(b, time);
    put(b, TIME_AT, 4, time);
    put_standing(b, PHASE_AT, s);
}

// Stores what `keep_standing` does, and the children.
pub fn keep_tunnels(b: &mut [u8], time: u64, s: Standing, children: &[Child])
    requires { (length b.old ≡ record_length) × (is_record b.old ≡ true) × (length children.now ≤ most_children) }
    ensures { Goes b.old time s b.new (λ x. with_children x children.now) }
{
    keep_standing(b, time, s);
    put_tunnels(b, children);
}

// Adds a child behind the others in a record that has room for it.
fn add_child(b: &mut [u8], child: Child)
    requires { length b.old ≡ record_length }
    ensures { field b.old child_count_place 1 < most_children → Changes b.old b.new (λ x. with_children x (x.children ++ child ∷ [])) }
{
    let n = get(b, CHILD_COUNT_AT, 1) as usize;
    // The callers have room for one more, so nothing is left out here.
    if CHILDREN <= n {
        return;
    }
    put_child(b, CHILDREN_AT + CHILD * n, child);
    put(b, CHILD_COUNT_AT, 1, n as u64 + 1);
}

// Stores what `keep_standing` does, and a child behind the others.
pub fn keep_child(b: &mut [u8], time: u64, s: Standing, child: Child)
    requires { (length b.old ≡ record_length) × (is_record b.old ≡ true) × (field b.old child_count_place 1 < most_children) }
    ensures { Goes b.old time s b.new (λ x. with_children x (x.children ++ child ∷ [])) }
{
    keep_standing(b, time, s);
    add_child(b, child);
}

// Adds a hold of an address behind the others in a record that has room for it, where there is an end.
fn add_hold(b: &mut [u8], address: Address, end: Option<End>)
    requires { length b.old ≡ record_length }
    ensures { field b.old hold_count_place 1 < most_holds → Changes b.old b.new (λ x. with_holds x (x.holds ++ hold_until address end)) }
{
    let Some(end) = end else {
        return;
    };
    let n = get(b, HOLD_COUNT_AT, 1) as usize;
    // The callers have room for one more, so nothing is left out here.
    if HOLDS <= n {
        return;
    }
    put_hold(b, HOLDS_AT + HOLD * n, Hold { address, end });
    put(b, HOLD_COUNT_AT, 1, n as u64 + 1);
}

// Stores the time of the line in a sound record that has a chosen address; the line becomes idle, and the address is held behind the holds in force where there is an end.
pub fn keep_hold(b: &mut [u8], time: u64, end: Option<End>)
    requires { (length b.old ≡ record_length) × (is_record b.old ≡ true) }
    ensures { (a : Address) → chosen (line_from b.old).phase ≡ Some a → b.new ≡ record_octets (field b.old 0 1) (held_for time a end (line_from b.old)) }
{
    let address = read_address(b, PHASE_AT + 1);
    drop_ended(b, time);
    add_hold(b, address, end);
    put_head(b, time, Phase::Idle);
}
