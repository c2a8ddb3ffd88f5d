// When a record and a table are sound: their octets are tested where they lie.
#![tactic(auto)]

ghost use Rattle.std.specs.Prelude.{◌≡◌, ℕ, List, ◌+◌, ◌*◌, ◌≤◌, length};
ghost use Rattle.octets.specs.Digits.{field};
ghost use Rattle.address.specs.Address.{held_addresses};
ghost use Rattle.addresses.specs.Keys.{key_at};
ghost use Rattle.phase.specs.Chosen.{chosen};
ghost use Rattle.phase.specs.Stage as Stage;
ghost use Rattle.record.specs.Octets.{phase_place, record_length};
ghost use Rattle.record.specs.Branch.{apart, counts_fit, Comparable};
ghost use Rattle.record.specs.Sound.{chosen_free, is_record};
ghost use Rattle.sound.specs.Seen.{Passes, Seen};
ghost use Rattle.table.specs.Table.{is_table, slot};

use address::{HOLDS, Hold, is_held};
use addresses::key_at;
use buffer::number::get;
use buffer::slice::zeros_at;
use differ::all_differ;
use hold_codec::{are_different, keys, read_holds, stand_in_force};
use phase::{CHOSEN, IDLE, LIVE, Phase};
use phase_codec::{is_phase, read_phase};
use record::{
    CHILD_COUNT_AT, CHILDREN_AT, HOLD_COUNT_AT, HOLDS_AT, PAIRS, PHASE_AT, RECORD, TIME_AT,
};
use table::{FREE_PAIR, TABLE};

// How many holds a line that is not idle has room for.
const BUSY_HOLDS: usize = HOLDS - 1;

// What stands for the key of a chosen address where there is none: the number of its place, as in the other free places.
const NO_KEY: u64 = BUSY_HOLDS as u64;

// A flag for each number from that of a free record to the last pair's.
const FLAGS: usize = PAIRS as usize + 1;

// Whether a line whose phase has a number may have m holds, at most 8, and n children, at most 8; the number is the octet where it lies.
#[tactic(auto, unfolding(record::specs::Branch::counts_fit))]
fn counts_fit(stage: u64, m: usize, n: usize) -> bool
    ensures { result ≡ counts_fit stage m n }
{
    (m <= BUSY_HOLDS || stage == IDLE) && (n == 0 || stage == LIVE)
}

// Whether none of the holds is for the chosen address.
#[tactic(auto, unfolding(record::specs::Sound::chosen_free))]
fn is_free(phase: Phase, holds: &[Hold]) -> bool
    ensures { result ≡ chosen_free (chosen phase) (held_addresses holds.now) }
{
    match phase.chosen() {
        Some(a) => !is_held(holds, a),
        None => true,
    }
}

// The key of the chosen address.
fn chosen_key(b: &[u8]) -> u64
    requires { record_length ≤ length b.now }
    ensures { Stage.stage_number Stage.chosen ≤ field b.now phase_place 1 → result ≡ key_at b.now (phase_place + 1) }
{
    if get(b, PHASE_AT, 1) < CHOSEN {
        return NO_KEY;
    }
    key_at(b, PHASE_AT + 1)
}

// Whether the first m holds are for different addresses, none of them the chosen one; they are compared where two keys are the same.
fn are_apart(b: &[u8], m: usize) -> bool
    requires { (record_length ≤ length b.now) × Comparable b.now m }
    ensures { result ≡ apart b.now m }
{
    if m == 0 {
        return true;
    }
    if all_differ(keys(b, HOLDS_AT, m, chosen_key(b))) {
        return true;
    }
    let holds = read_holds(b, HOLDS_AT, m);
    are_different(holds.as_slice()) && is_free(read_phase(b, PHASE_AT), holds.as_slice())
}

// Whether the octets of a used record are sound.
pub fn is_record(b: &[u8]) -> bool
    requires { record_length ≤ length b.now }
    ensures { result ≡ is_record b.now }
{
    let pair = get(b, 0, 1);
    if (pair < 1) | (PAIRS < pair) {
        return false;
    }
    if !is_phase(b, PHASE_AT) {
        return false;
    }
    let m = get(b, HOLD_COUNT_AT, 1) as usize;
    let n = get(b, CHILD_COUNT_AT, 1) as usize;
    if !counts_fit(get(b, PHASE_AT, 1), m, n) {
        return false;
    }
    if !child_codec::are_sound(b, CHILDREN_AT, n) {
        return false;
    }
    if !stand_in_force(b, HOLDS_AT, m, get(b, TIME_AT, 4)) {
        return false;
    }
    are_apart(b, m)
}

// Whether a record is free, or sound and of a pair that no record before it in the table has; its pair is flagged.
fn is_next(b: &[u8], seen: &mut [bool; FLAGS]) -> bool
    requires { record_length ≤ length b.now }
    ensures { (l : List ℕ) (i : ℕ) → b.now ≡ slot l i → Seen l i seen.old → Passes l i result seen.new }
{
    let pair = get(b, 0, 1);
    if pair == FREE_PAIR {
        return zeros_at(b, 0, RECORD);
    }
    if PAIRS < pair {
        return false;
    }
    let place = pair as usize;
    if seen[place] {
        return false;
    }
    seen[place] = true;
    is_record(b)
}

// Whether a table is sound.
pub fn is_sound(table: &[u8]) -> bool
    ensures { result ≡ is_table table.now }
{
    if table.len() != TABLE {
        return false;
    }
    let mut seen = [false; FLAGS];
    for b in table.chunks_exact(RECORD) {
        if !is_next(b, &mut seen) {
            return false;
        }
    }
    true
}
