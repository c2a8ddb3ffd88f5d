// Numbers as big-endian octets.
ghost use Rattle.std.specs.Prelude.{◌≡◌, ◌+◌, ◌^◌, ◌≤◌, ◌<◌, length};
ghost use Rattle.octets.specs.Digits.{be, field};
ghost use Rattle.octets.specs.Part.{Wrote};

use crate::slice::part;

// The highest number of one octet.
pub const MOST_OCTET: u64 = 255;

// An octet as a number of 64 bits.
pub(crate) fn wide(x: u8) -> u64
    ensures { (result ≡ x) × (result < 256) }
{
    x as u64
}

// The number that two octets say.
#[tactic(auto, using(crate::proofs::Words::two_octets))]
fn two(s: &[u8], at: usize) -> u64
    requires { at + 2 ≤ length s.now }
    ensures { (result ≡ field s.now at 2) × (result < 256 ^ 2) }
{
    wide(s[at]) * 256 + wide(s[at + 1])
}

// The number that four octets say; a sum without brackets is compiled to one load.
#[tactic(auto, using(crate::proofs::Words::four_octets))]
fn four(s: &[u8], at: usize) -> u64
    requires { at + 4 ≤ length s.now }
    ensures { (result ≡ field s.now at 4) × (result < 256 ^ 4) }
{
    wide(s[at]) * 16777216 + wide(s[at + 1]) * 65536 + wide(s[at + 2]) * 256 + wide(s[at + 3])
}

// The number that eight octets say; a sum without brackets, the last octet first, is compiled to one load.
#[tactic(auto, using(crate::proofs::Words::eight_octets))]
fn eight(s: &[u8], at: usize) -> u64
    requires { at + 8 ≤ length s.now }
    ensures { (result ≡ field s.now at 8) × (result < 256 ^ 8) }
{
    wide(s[at + 7])
        + wide(s[at + 6]) * 256
        + wide(s[at + 5]) * 65536
        + wide(s[at + 4]) * 16777216
        + wide(s[at + 3]) * 4294967296
        + wide(s[at + 2]) * 1099511627776
        + wide(s[at + 1]) * 281474976710656
        + wide(s[at]) * 72057594037927936
}

// The number that the n octets from `at` say, octet by octet.
fn by_octets(s: &[u8], at: usize, n: usize) -> u64
    requires { (at + n ≤ length s.now) × (n ≤ 8) }
    ensures { (result ≡ field s.now at n) × (result < 256 ^ n) }
{
    let mut x = 0;
    for octet in part(s, at, n) {
        x = x * 256 + wide(*octet);
    }
    x
}

// The number that the n octets from `at` say; the common widths are read without a loop.
#[tactic(auto, using(crate::proofs::Words::one_octet))]
pub fn get(s: &[u8], at: usize, n: usize) -> u64
    requires { (at + n ≤ length s.now) × (n ≤ 8) }
    ensures { (result ≡ field s.now at n) × (result < 256 ^ n) }
{
    match n {
        1 => wide(s[at]),
        2 => two(s, at),
        4 => four(s, at),
        8 => eight(s, at),
        _ => by_octets(s, at, n),
    }
}

// Stores the n big-endian octets of x from `at`.
pub fn put(s: &mut [u8], at: usize, n: usize, x: u64)
    requires { at + n ≤ length s.old }
    ensures { Wrote s.old at (be n x) s.new }
{
    let mut rest = x;
    for i in (0..n).rev() {
        s[at + i] = (rest % 256) as u8;
        rest /= 256;
    }
}
