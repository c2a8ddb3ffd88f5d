// Slices of octets: cleared, copied, tested, and a part handed back.
ghost use Rattle.std.specs.Prelude.{true, ◌≡◌, ◌+◌, ◌≤◌, length};
ghost use Rattle.octets.specs.Digits.{low};
ghost use Rattle.octets.specs.Laws.{below};
ghost use Rattle.octets.specs.Part.{part, zeros, zeros_at, Wrote};
ghost use Rattle.octets.specs.Search.{all_of};

use crate::number::wide;

// Fills a slice with zeros.
#[tactic(auto, unfolding(octets::specs::Part::zeros))]
pub fn zero(s: &mut [u8])
    ensures { s.new ≡ zeros (length s.old) }
{
    s.fill(0);
}

// Copies all of src into dst from `at`.
pub fn copy(src: &[u8], dst: &mut [u8], at: usize)
    requires { at + length src.now ≤ length dst.old }
    ensures { Wrote dst.old at src.now dst.new }
{
    // `copy_from_slice` would need `memmove` of the C library.
    for i in 0..src.len() {
        dst[at + i] = src[i];
    }
}

// Eight octets as one number, the first of them lowest, and the promise that they are octets; a sum without brackets is compiled to one load.
pub fn word(s: &[u8], at: usize) -> u64
    requires { at + 8 ≤ length s.now }
    ensures { (result ≡ low (part s.now at 8)) × (all_of (below 256) (part s.now at 8) ≡ true) }
{
    wide(s[at])
        + wide(s[at + 1]) * 256
        + wide(s[at + 2]) * 65536
        + wide(s[at + 3]) * 16777216
        + wide(s[at + 4]) * 4294967296
        + wide(s[at + 5]) * 1099511627776
        + wide(s[at + 6]) * 281474976710656
        + wide(s[at + 7]) * 72057594037927936
}

// Whether the n octets from `at` are zeros, octet by octet.
fn zeros_by_octets(s: &[u8], at: usize, n: usize) -> bool
    requires { at + n ≤ length s.now }
    ensures { result ≡ zeros_at s.now at n }
{
    let mut bits = 0;
    for octet in part(s, at, n) {
        bits |= *octet;
    }
    bits == 0
}

// Whether the n octets from `at` are zeros, by words that are tested once; the last word overlaps the one before it.
pub fn zeros_at(s: &[u8], at: usize, n: usize) -> bool
    requires { at + n ≤ length s.now }
    ensures { result ≡ zeros_at s.now at n }
{
    if n < 8 {
        return zeros_by_octets(s, at, n);
    }
    let mut bits = word(s, at + n - 8);
    for i in 0..(n - 1) / 8 {
        bits |= word(s, at + 8 * i);
    }
    bits == 0
}

// The n octets from `at`, as a part of the lent slice.
#[tactic(auto, unfolding(octets::specs::Part::part))]
pub fn part(s: &[u8], at: usize, n: usize) -> &[u8]
    requires { at + n ≤ length s.now }
    ensures { (result.now ≡ part s.now at n) × (length result.now ≡ n) }
{
    &s[at..at + n]
}
