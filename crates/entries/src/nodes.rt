// `node` in the configuration text.
ghost use Rattle.std.specs.Prelude.{◌≤◌, length};
ghost use Rattle.entries.specs.Branch.{AddressIs, NameIs, NodedIs};

use crate::line::begins;
use address::Address;
use config::Node;
use entry::field::MOST_NAME;
use entry::{BEFORE_NAME, NEWLINE};
use fields::field::Field;
use fields::name::name_end;
use fields::read::number_at;
use text::read_digits;

// The octets of a line before a node address: `node`, a tab, its version and a tab.
const BEFORE_ADDRESS: usize = 8;

// The digits of an address of version 4.
const DIGITS_4: usize = 8;

// The digits of half an address of version 6.
const HALF: usize = 16;

// The base of the digits of an address.
const HEXADECIMAL: u64 = 16;

// The node name at a place and the newline that ends it.
fn name_at(text: &[u8], start: usize) -> Option<Field<Node>>
    requires { start ≤ length text.now }
    ensures { NameIs text.now start result }
{
    let end = name_end(text, start);
    if (end == text.len()) || (text[end] != NEWLINE) {
        return None;
    }
    let length = end - start;
    if (length < 1) | (MOST_NAME < length) {
        return None;
    }
    Some(Field {
        value: Node::Name { at: start, length },
        next: end + 1,
    })
}

// The address of version 4 at a place and the newline that ends it.
fn version_4_at(text: &[u8], start: usize) -> Option<Field<Node>>
    requires { start ≤ length text.now }
    ensures { AddressIs 4 text.now start result }
{
    let digits = number_at(text, start, DIGITS_4, HEXADECIMAL, NEWLINE)?;
    Some(Field {
        value: Node::Address(Address::V4(digits.value)),
        next: digits.next,
    })
}

// The address of version 6 at a place and the newline that ends it.
fn version_6_at(text: &[u8], start: usize) -> Option<Field<Node>>
    requires { start ≤ length text.now }
    ensures { AddressIs 6 text.now start result }
{
    let middle = start + HALF;
    if text.len() < middle {
        return None;
    }
    let high = read_digits(&text[start..middle], HEXADECIMAL)?;
    let low = number_at(text, middle, HALF, HEXADECIMAL, NEWLINE)?;
    Some(Field {
        value: Node::Address(Address::V6(high, low.value)),
        next: low.next,
    })
}

// What `node` says at a place, and where the entries behind it begin.
pub fn node_at(text: &[u8], at: usize) -> Option<Field<Node>>
    requires { at ≤ length text.now }
    ensures { NodedIs text.now at result }
{
    if begins(text, at, b"node\tname\t") {
        return name_at(text, at + BEFORE_NAME);
    }
    if begins(text, at, b"node\tv4\t") {
        return version_4_at(text, at + BEFORE_ADDRESS);
    }
    if begins(text, at, b"node\tv6\t") {
        return version_6_at(text, at + BEFORE_ADDRESS);
    }
    None
}
