// The records of a table, where they lie: the one of a pair found, and a record read, opened, changed or erased.
#![tactic(auto)]

ghost use Rattle.std.specs.Prelude.{[], ◌∷◌, ◌++◌, ◌≡◌, ◌+◌, ◌*◌, ◌≤◌, ◌<◌, length, MatchOption, Some};
ghost use Rattle.octets.specs.Digits.{field};
ghost use Rattle.octets.specs.Part.{zeros, Wrote};
ghost use Rattle.address.specs.Address.{held_addresses, stands};
ghost use Rattle.address.specs.declared.Address.{Address};
ghost use Rattle.addresses.specs.Addresses.{address_length};
ghost use Rattle.children.specs.Children.{has_spi, most_children};
ghost use Rattle.lists.specs.Held.{HeldAre};
ghost use Rattle.lists.specs.Lists.{most_entries};
ghost use Rattle.phase.specs.Awaited.{awaited_in};
ghost use Rattle.phase.specs.Chosen.{chosen};
ghost use Rattle.phase.specs.Standing.{bare};
ghost use Rattle.phase.specs.declared.Phase.TheVariants.{Idle};
ghost use Rattle.record.specs.Changes.{current, held_for, in_force, in_phase, unheld, with_children};
ghost use Rattle.record.specs.Line.{line_of};
ghost use Rattle.record.specs.Octets.{line_from, record_length, record_octets};
ghost use Rattle.records.specs.Stores.{GoesAt};
ghost use Rattle.table.specs.Table.{pair_at, record_count, record_of, slot, table_length, UsedAt};

use address::{Address, End};
use buffer::number::get;
use buffer::slice::{part, zero};
use children::Child;
use lists::ENTRIES;
use phase::{Phase, Standing};
use phase_codec::{read_awaited, read_phase};
use place::Facts;
use record::{PHASE_AT, RECORD, Record, TIME_AT};
use record_reader::{
    child_count_in, has_spi_in, held_in, in_force_in, is_held_in, read_unheld, read_unlisted,
};
use record_writer::{keep, keep_child, keep_hold, keep_standing, keep_tunnels, put_fresh};
use table::RECORDS;

// The number of the pair of a record.
fn pair_at(table: &[u8], i: usize) -> u64
    requires { record_length * i + record_length ≤ length table.now }
    ensures { result ≡ pair_at table.now i }
{
    get(table, RECORD * i, 1)
}

// The last time of the line in a record.
pub fn time_at(table: &[u8], i: usize) -> u64
    requires { record_length * i + record_length ≤ length table.now }
    ensures { result ≡ (line_from (slot table.now i)).time }
{
    get(table, RECORD * i + TIME_AT, 4)
}

// The record of a pair, where it is open; of the pair 0, the first free one.
pub fn record_of(table: &[u8], pair: u64) -> Option<usize>
    requires { table_length ≤ length table.now }
    ensures { MatchOption result (record_count ≤ record_of table.now pair) (λ i. (i ≡ record_of table.now pair) × (i < record_count)) }
{
    (0..RECORDS).find(|&i| pair_at(table, i) == pair)
}

// The line of a used record, of which only the bare phase is known.
pub fn unlisted_at(table: &[u8], i: usize) -> Record
    requires { UsedAt table.now i }
    ensures { line_of result ≡ unheld (bare (line_from (slot table.now i)).phase) [] }
{
    read_unlisted(part(table, RECORD * i, RECORD))
}

// The phase of the line of a used record.
pub fn phase_at(table: &[u8], i: usize) -> Phase
    requires { UsedAt table.now i }
    ensures { result ≡ (line_from (slot table.now i)).phase }
{
    read_phase(part(table, RECORD * i, RECORD), PHASE_AT)
}

// The line of a used record, of which only the bare phase and the children are known; inlined, so that the holds are known to be none.
#[inline(always)]
pub fn unheld_at(table: &[u8], i: usize) -> Record
    requires { UsedAt table.now i }
    ensures { line_of result ≡ unheld (bare (line_from (slot table.now i)).phase) (line_from (slot table.now i)).children }
{
    read_unheld(part(table, RECORD * i, RECORD))
}

// The place facts of the line of a used record that waits for the country answer.
pub fn awaited_at(table: &[u8], i: usize) -> Option<Facts>
    requires { UsedAt table.now i }
    ensures { result ≡ awaited_in (line_from (slot table.now i)).phase }
{
    read_awaited(part(table, RECORD * i, RECORD), PHASE_AT)
}

// How many children the line of a used record has.
pub fn child_count_at(table: &[u8], i: usize) -> usize
    requires { UsedAt table.now i }
    ensures { result ≡ length (line_from (slot table.now i)).children }
{
    child_count_in(part(table, RECORD * i, RECORD))
}

// Whether an SPI is that of a child of the line of a used record.
pub fn has_spi_at(table: &[u8], i: usize, spi: u64) -> bool
    requires { UsedAt table.now i }
    ensures { result ≡ has_spi spi (line_from (slot table.now i)).children }
{
    has_spi_in(part(table, RECORD * i, RECORD), spi)
}

// How many holds of the line of a used record are in force at a time.
pub fn in_force_at(table: &[u8], i: usize, time: u64) -> usize
    requires { UsedAt table.now i }
    ensures { result ≡ length (in_force time (line_from (slot table.now i))).holds }
{
    in_force_in(part(table, RECORD * i, RECORD), time)
}

// Whether the line of a used record holds an address at a time.
pub fn is_held_at(table: &[u8], i: usize, time: u64, a: Address) -> bool
    requires { UsedAt table.now i }
    ensures { result ≡ stands a (held_addresses (in_force time (line_from (slot table.now i))).holds) }
{
    is_held_in(part(table, RECORD * i, RECORD), time, a)
}

// Which addresses of a lent list the line of a used record holds at a time.
pub fn held_at(table: &[u8], i: usize, time: u64, list: &[u8]) -> [bool; ENTRIES]
    requires { UsedAt table.now i }
    ensures { length list.now ≤ address_length * most_entries → HeldAre result list.now (held_addresses (in_force time (line_from (slot table.now i))).holds) }
{
    held_in(part(table, RECORD * i, RECORD), time, list)
}

// Stores the time and the phase of the line in a used record, and drops its holds that have ended.
pub fn keep_at(table: &mut [u8], i: usize, time: u64, phase: Phase)
    requires { UsedAt table.old i }
    ensures { Wrote table.old (record_length * i) (record_octets (field (slot table.old i) 0 1) (in_phase (current time (line_from (slot table.old i))) phase)) table.new }
{
    let at = RECORD * i;
    keep(&mut table[at..at + RECORD], time, phase);
}

// Stores the time and where the phase stands of the line in a used record, and drops its holds that have ended.
pub fn keep_standing_at(table: &mut [u8], i: usize, time: u64, s: Standing)
    requires { UsedAt table.old i }
    ensures { GoesAt table.old i time s table.new (λ x. x) }
{
    let at = RECORD * i;
    keep_standing(&mut table[at..at + RECORD], time, s);
}

// Stores what `keep_standing_at` does, and the children.
pub fn keep_tunnels_at(table: &mut [u8], i: usize, time: u64, s: Standing, children: &[Child])
    requires { UsedAt table.old i × (length children.now ≤ most_children) }
    ensures { GoesAt table.old i time s table.new (λ x. with_children x children.now) }
{
    let at = RECORD * i;
    keep_tunnels(&mut table[at..at + RECORD], time, s, children);
}

// Stores what `keep_standing_at` does, and a child behind the others.
pub fn keep_child_at(table: &mut [u8], i: usize, time: u64, s: Standing, child: Child)
    requires { UsedAt table.old i × (length (line_from (slot table.old i)).children < most_children) }
    ensures { GoesAt table.old i time s table.new (λ x. with_children x (x.children ++ child ∷ [])) }
{
    let at = RECORD * i;
    keep_child(&mut table[at..at + RECORD], time, s, child);
}

// Stores the time of a line that has a chosen address; the line becomes idle, and the address is held behind the holds in force where there is an end.
pub fn keep_hold_at(table: &mut [u8], i: usize, time: u64, end: Option<End>)
    requires { UsedAt table.old i }
    ensures { (a : Address) → chosen (line_from (slot table.old i)).phase ≡ Some a → Wrote table.old (record_length * i) (record_octets (field (slot table.old i) 0 1) (held_for time a end (line_from (slot table.old i)))) table.new }
{
    let at = RECORD * i;
    keep_hold(&mut table[at..at + RECORD], time, end);
}

// Stores the record of a pair that was just opened.
pub fn open_at(table: &mut [u8], i: usize, pair: u64)
    requires { record_length * i + record_length ≤ length table.old }
    ensures { Wrote table.old (record_length * i) (record_octets pair (unheld Idle [])) table.new }
{
    let at = RECORD * i;
    put_fresh(&mut table[at..at + RECORD], pair);
}

// Erases a record.
pub fn erase(table: &mut [u8], i: usize)
    requires { record_length * i + record_length ≤ length table.old }
    ensures { Wrote table.old (record_length * i) (zeros record_length) table.new }
{
    let at = RECORD * i;
    zero(&mut table[at..at + RECORD]);
}
