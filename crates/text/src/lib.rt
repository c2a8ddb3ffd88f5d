// Numbers as texts of lower-case digits.
#![tactic(auto)]

ghost use Rattle.std.specs.Prelude.{◌≡◌, ◌+◌, ◌≤◌, ◌<◌, length};
ghost use Rattle.text.specs.Text.{character, digit, digit_text, decimal, decimal_width, read_digits};
ghost use Rattle.octets.specs.Part.{Wrote};
ghost use Rattle.text.specs.Laws.{Laws};

// The character of a digit.
#[tactic(auto, unfolding(crate::specs::Text::character))]
pub fn character(d: u64) -> u8
    requires { d < 16 }
    ensures { result ≡ character d }
{
    if d < 10 {
        b'0' + d as u8
    } else {
        b'a' - 10 + d as u8
    }
}

// The digit of a character, 16 where it is none.
#[tactic(auto, unfolding(crate::specs::Text::digit))]
pub fn digit(c: u8) -> u64
    ensures { result ≡ digit c }
{
    match c {
        b'0'..=b'9' => (c - b'0') as u64,
        b'a'..=b'f' => (c - b'a') as u64 + 10,
        _ => 16,
    }
}

// Stores x in base b from `at`, as exactly n characters.
pub fn put_digits(s: &mut [u8], at: usize, n: usize, b: u64, x: u64)
    requires { (at + n ≤ length s.old) × (0 < b) × (b ≤ 16) }
    ensures { Wrote s.old at (digit_text b n x) s.new }
{
    let mut rest = x;
    for i in (0..n).rev() {
        s[at + i] = character(rest % b);
        rest /= b;
    }
}

// The number that a text says in a base, where each of its characters is a digit of that base.
pub fn read_digits(s: &[u8], base: u64) -> Option<u64>
    requires { (length s.now ≤ 16) × (base ≤ 16) }
    ensures { result ≡ read_digits base s.now }
{
    let mut x: u64 = 0;
    for c in s {
        let d = digit(*c);
        if base <= d {
            return None;
        }
        x = x * base + d;
    }
    Some(x)
}

// How many decimal digits a number has.
#[tactic(auto, using(crate::proofs::Texts::width_is))]
pub fn decimal_width(x: u64) -> usize
    ensures { (result ≡ decimal_width x) × (result ≤ 20) }
{
    x.max(1).ilog10() as usize + 1
}

// Stores x in decimal from `at`, without leading zeros, and returns the place after it; one digit is stored without a loop.
#[tactic(auto, using(crate::proofs::Texts::decimal_one, crate::proofs::Texts::width_one), unfolding(crate::specs::Text::decimal))]
pub fn put_decimal(s: &mut [u8], at: usize, x: u64) -> usize
    requires { at + 20 ≤ length s.old }
    ensures wrote { Wrote s.old at (decimal x) s.new }
    ensures next { result ≡ at + decimal_width x }
{
    if x < 10 {
        s[at] = character(x);
        return at + 1;
    }
    let n = decimal_width(x);
    put_digits(s, at, n, 10, x);
    at + n
}

// Does nothing; its promise is the laws of this crate's definitions.
pub fn laws()
    ensures { Laws }
{}
