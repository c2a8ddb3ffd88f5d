// The fields of a listing: each is stored from a place on, and the place behind it comes back.
#![tactic(auto)]

ghost use Rattle.std.specs.Prelude.{true, ◌++◌, ◌≡◌, ◌≤◌, length, Some};
ghost use Rattle.phase.specs.Chosen.{chosen};
ghost use Rattle.phase.specs.Phase.{is_phase, phase_from};
ghost use Rattle.phase.specs.Stage.{stage_of};
ghost use Rattle.record.specs.Octets.{phase_place, record_length};
ghost use Rattle.text.specs.Text.{decimal, digit_text, text};
ghost use Rattle.rules.specs.Listing.{address_text, word};
ghost use Rattle.listing_field.specs.Put.{Fits, Put};

use address::Address;
use addresses::read_address;
use buffer::number::get;
use buffer::slice::copy;
use phase::{AUTH, CHOSEN, COUNTRY, EAP, IDLE, INIT, NAME, SURE};
use record::PHASE_AT;
use text::{put_decimal, put_digits};

// Stores a text.
pub fn put_text(buffer: &mut [u8], at: usize, words: &[u8]) -> usize
    requires { Fits buffer.old at words.now }
    ensures { Put buffer.old at words.now buffer.new result }
{
    copy(words, buffer, at);
    at + words.len()
}

// Stores n hexadecimal digits.
pub fn put_hex(buffer: &mut [u8], at: usize, n: usize, x: u64) -> usize
    requires { Fits buffer.old at (digit_text 16 n x) }
    ensures { Put buffer.old at (digit_text 16 n x) buffer.new result }
{
    put_digits(buffer, at, n, 16, x);
    at + n
}

// Stores a number in decimal between two texts.
pub fn put_number(buffer: &mut [u8], at: usize, left: &[u8], x: u64, right: &[u8]) -> usize
    requires { Fits buffer.old at (left.now ++ decimal x ++ right.now) }
    ensures { Put buffer.old at (left.now ++ decimal x ++ right.now) buffer.new result }
{
    let start = put_text(buffer, at, left);
    let end = put_decimal(buffer, start, x);
    put_text(buffer, end, right)
}

// The word of a line's phase, from its octets.
fn word_of(b: &[u8]) -> &'static [u8]
    requires { (record_length ≤ length b.now) × (is_phase b.now phase_place ≡ true) }
    ensures { result.now ≡ text (word (stage_of (phase_from b.now phase_place))) }
{
    match get(b, PHASE_AT, 1) {
        IDLE => b"idle",
        COUNTRY => b"country",
        NAME => b"name",
        CHOSEN => b"chosen",
        INIT => b"init",
        AUTH => b"auth",
        EAP => b"eap",
        SURE => b"sure",
        _ => b"live",
    }
}

// Stores the word of a line's phase, from its octets.
pub fn put_word(buffer: &mut [u8], at: usize, b: &[u8]) -> usize
    requires { (record_length ≤ length b.now) × (is_phase b.now phase_place ≡ true) × Fits buffer.old at (text (word (stage_of (phase_from b.now phase_place)))) }
    ensures { Put buffer.old at (text (word (stage_of (phase_from b.now phase_place)))) buffer.new result }
{
    put_text(buffer, at, word_of(b))
}

// Stores an address, one of version 6 half by half.
fn put_known(buffer: &mut [u8], at: usize, address: Address) -> usize
    requires { Fits buffer.old at (address_text (Some address)) }
    ensures { Put buffer.old at (address_text (Some address)) buffer.new result }
{
    match address {
        Address::V4(x) => put_hex(buffer, at, 8, x),
        Address::V6(high, low) => {
            let middle = put_hex(buffer, at, 16, high);
            put_hex(buffer, middle, 16, low)
        }
    }
}

// Stores the chosen address of a line, from its octets, or a hyphen where there is none.
pub fn put_address(buffer: &mut [u8], at: usize, b: &[u8]) -> usize
    requires { (record_length ≤ length b.now) × (is_phase b.now phase_place ≡ true) × Fits buffer.old at (address_text (chosen (phase_from b.now phase_place))) }
    ensures { Put buffer.old at (address_text (chosen (phase_from b.now phase_place))) buffer.new result }
{
    if get(b, PHASE_AT, 1) < CHOSEN {
        return put_text(buffer, at, b"-");
    }
    put_known(buffer, at, read_address(b, PHASE_AT + 1))
}
