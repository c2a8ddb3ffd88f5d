// The text of one tenant.
#![tactic(auto)]

ghost use Rattle.std.specs.Prelude.{true, ◌≡◌, ℕ, ◌≤◌, ◌<◌, get_or, length};
ghost use Rattle.octets.specs.Digits.{field};
ghost use Rattle.octets.specs.Part.{padded};
ghost use Rattle.octets.specs.Row.{joined};
ghost use Rattle.children.specs.Children.{children_from, most_children};
ghost use Rattle.phase.specs.Phase.{is_phase, phase_from};
ghost use Rattle.record.specs.Octets.{child_count_place, children_place, line_from, phase_place, record_length};
ghost use Rattle.record.specs.Sound.{is_record, last_line, last_tenant};
ghost use Rattle.table.specs.Table.{is_table, record_count, record_of, table_length, UsedAt};
ghost use Rattle.rules.specs.Call.{listing_room, pair_of};
ghost use Rattle.rules.specs.Listing.{child_text, line_text};
ghost use Rattle.listing_field.specs.Put.{Fits, Put};
ghost use Rattle.listing.specs.Branch.{head_text, line_in, open_text, tail_text};
ghost use Rattle.listing.specs.Listed.{listing_of};

use buffer::number::get;
use buffer::slice::{part, zero};
use child_codec::read_child;
use children::{CHILD, Child};
use listing_field::{put_address, put_hex, put_number, put_text, put_word};
use record::{CHILD_COUNT_AT, CHILDREN_AT, LINES, RECORD};
use table::RECORDS;

// The smallest buffer that a listing is written to.
pub const LISTING_ROOM: usize = 1024;

// A place for each line of a tenant.
const PLACES: usize = LINES as usize;

// Stores the record of a child of a line and returns the place behind it.
fn put_child(buffer: &mut [u8], at: usize, line: u64, child: Child) -> usize
    requires { Fits buffer.old at (child_text line child) }
    ensures { Put buffer.old at (child_text line child) buffer.new result }
{
    let start = put_number(buffer, at, b"child\t", line, b"\t");
    let end = put_hex(buffer, start, 8, child.spi);
    put_number(buffer, end, b"\t", child.session, b"\n")
}

// Stores the records of the first n children of a line, from its octets, and returns the place behind them.
fn put_children(buffer: &mut [u8], at: usize, line: u64, b: &[u8], n: usize) -> usize
    requires { (record_length ≤ length b.now) × (n ≤ most_children) × Fits buffer.old at (joined (child_text line) (children_from b.now children_place n)) }
    ensures { Put buffer.old at (joined (child_text line) (children_from b.now children_place n)) buffer.new result }
{
    let mut place = at;
    for i in 0..n {
        place = put_child(buffer, place, line, read_child(b, CHILDREN_AT + CHILD * i));
    }
    place
}

// Stores the record of a line, from its octets, as far as its address and returns the place behind it.
fn put_head(buffer: &mut [u8], at: usize, line: u64, b: &[u8]) -> usize
    requires { (record_length ≤ length b.now) × (is_phase b.now phase_place ≡ true) × Fits buffer.old at (head_text line (phase_from b.now phase_place)) }
    ensures { Put buffer.old at (head_text line (phase_from b.now phase_place)) buffer.new result }
{
    let start = put_number(buffer, at, b"line\t", line, b"\t");
    let end = put_word(buffer, start, b);
    let place = put_text(buffer, end, b"\t");
    put_address(buffer, place, b)
}

// Stores the count of a line's children, from its octets, and their records and returns the place behind them.
fn put_tail(buffer: &mut [u8], at: usize, line: u64, b: &[u8]) -> usize
    requires { (record_length ≤ length b.now) × (field b.now child_count_place 1 ≤ most_children) × Fits buffer.old at (tail_text line (children_from b.now children_place (field b.now child_count_place 1))) }
    ensures { Put buffer.old at (tail_text line (children_from b.now children_place (field b.now child_count_place 1))) buffer.new result }
{
    let n = get(b, CHILD_COUNT_AT, 1);
    let place = put_number(buffer, at, b"\t", n, b"\n");
    put_children(buffer, place, line, b, n as usize)
}

// Stores the text of the line in the octets of a sound record and returns the place behind it.
fn put_line(buffer: &mut [u8], at: usize, line: u64, b: &[u8]) -> usize
    requires { (record_length ≤ length b.now) × (is_record b.now ≡ true) × Fits buffer.old at (line_text line (line_from b.now)) }
    ensures { Put buffer.old at (line_text line (line_from b.now)) buffer.new result }
{
    let place = put_head(buffer, at, line, b);
    put_tail(buffer, place, line, b)
}

// Stores the text of the line in the record with a number, where there is one, and returns the place behind it.
fn put_open(table: &[u8], i: usize, line: u64, buffer: &mut [u8], at: usize) -> usize
    requires { (i < record_count → UsedAt table.now i) × Fits buffer.old at (open_text line (line_in table.now i)) }
    ensures { Put buffer.old at (open_text line (line_in table.now i)) buffer.new result }
{
    if RECORDS <= i {
        return at;
    }
    put_line(buffer, at, line, part(table, RECORD * i, RECORD))
}

// Stores the record of each line of a tenant, or one past the last where the line is not open; the array is lent, since one that is returned is copied.
fn find_lines(table: &[u8], tenant: u64, found: &mut [usize; PLACES])
    requires { (table_length ≤ length table.now) × (tenant ≤ last_tenant) }
    ensures { (line : ℕ) → line ≤ last_line → get_or found.new line 0 ≡ record_of table.now (pair_of tenant line) }
{
    *found = [RECORDS; PLACES];
    for i in (0..RECORDS).rev() {
        // Pairs are numbered from 1 on, and a free record has 0: the number's quotient is one more than the tenant, its remainder the line.
        let number = get(table, RECORD * i, 1) + LINES - 1;
        if number / LINES == tenant + 1 {
            found[(number % LINES) as usize] = i;
        }
    }
}

// Writes the listing of a tenant, with zeros after it, and returns its length.
pub fn list(table: &[u8], tenant: u64, buffer: &mut [u8]) -> usize
    requires { (is_table table.now ≡ true) × (tenant ≤ last_tenant) × (listing_room ≤ length buffer.old) }
    ensures buffer_after { buffer.new ≡ padded (length buffer.old) (listing_of tenant table.now) }
    ensures value { result ≡ length (listing_of tenant table.now) }
{
    zero(buffer);
    let mut found = [RECORDS; PLACES];
    find_lines(table, tenant, &mut found);
    let mut at = 0;
    for line in 0..LINES {
        at = put_open(table, found[line as usize], line, buffer, at);
    }
    at
}
