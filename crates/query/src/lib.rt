// The name that is asked of DNS, built or found in the configuration text.
#![tactic(auto)]

ghost use Rattle.std.specs.Prelude.{◌++◌, [], ◌≡◌, ◌+◌, ◌≤◌, length};
ghost use Rattle.octets.specs.Part.{Wrote};
ghost use Rattle.text.specs.Text.{digit_text};
ghost use Rattle.network.specs.Name.{name_room, operator_name, visited_name, Named};
ghost use Rattle.selection.specs.Query.{asked, built, Lies};

use buffer::slice::{copy, part, zero};
use network::Plmn;
use selection::Choice;
use text::put_digits;

// Stores a label from `at` and right after it the last three decimal digits of a code.
fn put_code(buffer: &mut [u8], at: usize, label: &[u8], code: u64)
    requires { at + length label.now + 3 ≤ length buffer.old }
    ensures { Wrote buffer.old at (label.now ++ digit_text 10 3 code) buffer.new }
{
    copy(label, buffer, at);
    put_digits(buffer, at + label.len(), 3, 10, code);
}

// Writes the name of an operator's network, with zeros after it, and returns its length.
pub fn operator_name(buffer: &mut [u8], plmn: Plmn) -> usize
    requires { name_room ≤ length buffer.old }
    ensures { Named (operator_name plmn) (length buffer.old) buffer.new result }
{
    zero(buffer);
    put_code(buffer, 0, b"n3iwf.5gc.mnc", plmn.mnc);
    put_code(buffer, 16, b".mcc", plmn.mcc);
    copy(b".pub.3gppnetwork.org", buffer, 23);
    43
}

// Writes the name of a visited country, with zeros after it, and returns its length.
pub fn visited_name(buffer: &mut [u8], mcc: u64) -> usize
    requires { name_room ≤ length buffer.old }
    ensures { Named (visited_name mcc) (length buffer.old) buffer.new result }
{
    zero(buffer);
    put_code(buffer, 0, b"n3iwf.5gc.mcc", mcc);
    copy(b".visited-country.pub.3gppnetwork.org", buffer, 16);
    52
}

// Writes the name that a choice needs built, with zeros after it, and returns its length.
pub fn build(choice: Choice, name: &mut [u8]) -> usize
    requires { name_room ≤ length name.old }
    ensures { Named (built choice) (length name.old) name.new result }
{
    match choice {
        Choice::Country(mcc) => visited_name(name, mcc),
        Choice::Network(p) => operator_name(name, p),
        _ => nothing(name),
    }
}

// Writes no name.
fn nothing(name: &mut [u8]) -> usize
    ensures { Named [] (length name.old) name.new result }
{
    zero(name);
    0
}

// The name to ask, as a part of the text or as the first n octets of the name buffer.
pub fn asked<'a>(choice: Choice, text: &'a [u8], name: &'a [u8], n: usize) -> &'a [u8]
    requires { Lies text.now name.now n choice }
    ensures { result.now ≡ asked text.now choice }
{
    match choice {
        Choice::Text { at, length } => part(text, at, length),
        _ => part(name, 0, n),
    }
}
