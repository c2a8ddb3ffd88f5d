// Numbers, PLMNs and priorities, read at a place of a text.
ghost use Rattle.std.specs.Prelude.{◌≤◌, ◌≡◌, length};
ghost use Rattle.fields.specs.Read.{MncIs, NumberIs, PlmnIs, PriorityIs};

use crate::field::Field;
use entry::field::MOST_PRIORITY;
use entry::{NEWLINE, TAB};
use network::Plmn;
use text::{decimal_width, read_digits};

// The digits of an MCC, and the most of an MNC.
const CODE_DIGITS: usize = 3;

// The fewest digits of an MNC.
const FEWEST_MNC_DIGITS: usize = 2;

// The most digits of a priority.
const PRIORITY_DIGITS: usize = 3;

// The base of the digits of a PLMN and of a priority.
const DECIMAL: u64 = 10;

// The number of so many digits at a place, and the octet that ends it.
pub fn number_at(text: &[u8], at: usize, width: usize, base: u64, end: u8) -> Option<Field<u64>>
    requires { (at ≤ length text.now) × (width ≤ 16) × (base ≤ 16) }
    ensures { NumberIs text.now at width base end result }
{
    let stop = at + width;
    if (text.len() <= stop) || (text[stop] != end) {
        return None;
    }
    let value = read_digits(&text[at..stop], base)?;
    Some(Field {
        value,
        next: stop + 1,
    })
}

// The MNC at a place and the octet that ends it: two digits or three.
fn mnc_at(text: &[u8], at: usize, end: u8) -> Option<Field<u64>>
    requires { at ≤ length text.now }
    ensures { MncIs text.now at end result }
{
    if let Some(mnc) = number_at(text, at, FEWEST_MNC_DIGITS, DECIMAL, end) {
        return Some(mnc);
    }
    number_at(text, at, CODE_DIGITS, DECIMAL, end)
}

// The PLMN at a place and the octet that ends it.
pub fn plmn_at(text: &[u8], at: usize, end: u8) -> Option<Field<Plmn>>
    requires { at ≤ length text.now }
    ensures { PlmnIs text.now at end result }
{
    let mcc = number_at(text, at, CODE_DIGITS, DECIMAL, TAB)?;
    let mnc = mnc_at(text, mcc.next, end)?;
    Some(Field {
        value: Plmn {
            mcc: mcc.value,
            mnc: mnc.value,
        },
        next: mnc.next,
    })
}

// The priority at a place and the newline that ends it.
pub fn priority_at(text: &[u8], at: usize) -> Option<Field<u64>>
    requires { at ≤ length text.now }
    ensures { PriorityIs text.now at result }
{
    for width in 1..PRIORITY_DIGITS + 1 {
        if let Some(read) = number_at(text, at, width, DECIMAL, NEWLINE) {
            if (read.value <= MOST_PRIORITY) & (decimal_width(read.value) == width) {
                return Some(read);
            }
        }
    }
    None
}
