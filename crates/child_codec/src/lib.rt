// Child associations read from their octets, written and tested there.
#![tactic(auto)]

ghost use Rattle.std.specs.Prelude.{◌≡◌, ◌&&◌, ℕ, ◌+◌, ◌*◌, ◌≤◌, ◌<◌, get_or, length};
ghost use Rattle.octets.specs.Digits.{field};
ghost use Rattle.octets.specs.Part.{Wrote};
ghost use Rattle.octets.specs.Row.{joined, only};
ghost use Rattle.octets.specs.Search.{all_of};
ghost use Rattle.children.specs.Children.{child_fits, child_from, child_length, child_octets, children_from, children_room, children_written, has_spi, is_other, most_children, spis_differ};
ghost use Rattle.children.specs.Listed.{children_of};

use bounded::Bounded;
use buffer::number::{get, put};
use buffer::slice::zeros_at;
use children::{CHILD, CHILDREN, CHILDREN_ROOM, Child, Children};
use differ::{all_differ, pick};

// The lowest SPI and the highest session.
const LEAST_SPI: u64 = 256;

const MOST_SESSION: u64 = 15;

// What stands in a free place of a list of children.
const NO_CHILD: Child = Child { spi: 0, session: 0 };

// The child at a place.
pub fn read_child(b: &[u8], at: usize) -> Child
    requires { at + child_length ≤ length b.now }
    ensures { result ≡ child_from b.now at }
{
    Child {
        spi: get(b, at, 4),
        session: get(b, at + 4, 1),
    }
}

// Stores a child at a place.
pub fn put_child(b: &mut [u8], at: usize, child: Child)
    requires { at + child_length ≤ length b.old }
    ensures { Wrote b.old at (child_octets child) b.new }
{
    put(b, at, 4, child.spi);
    put(b, at + 4, 1, child.session);
}

// The first n children of those that begin at a place.
pub fn read_children(b: &[u8], at: usize, n: usize) -> Children
    requires { (at + children_room ≤ length b.now) × (n ≤ most_children) }
    ensures { children_of result ≡ children_from b.now at n }
{
    Bounded::from_fn(n, NO_CHILD, |i| read_child(b, at + CHILD * i))
}

// Stores children from a place on.
pub fn put_children(b: &mut [u8], at: usize, children: &[Child])
    requires { (at + children_room ≤ length b.old) × (length children.now ≤ most_children) }
    ensures { Wrote b.old at (joined child_octets children.now) b.new }
{
    for i in 0..children.len() {
        put_child(b, at + CHILD * i, children[i]);
    }
}

// Whether an SPI is that of one of the children.
pub fn has_spi(children: &[Child], spi: u64) -> bool
    ensures { result ≡ has_spi spi children.now }
{
    children.iter().any(|child| spi == child.spi)
}

// Whether an SPI is that of one of the n children at a place.
pub fn has_spi_at(b: &[u8], at: usize, n: usize, spi: u64) -> bool
    requires { (at + children_room ≤ length b.now) × (n ≤ most_children) }
    ensures { result ≡ has_spi spi (children_from b.now at n) }
{
    for i in 0..n {
        if spi == read_child(b, at + CHILD * i).spi {
            return true;
        }
    }
    false
}

// Whether the children have different SPIs.
fn are_different(children: &[Child]) -> bool
    ensures { result ≡ spis_differ children.now }
{
    for i in 0..children.len() {
        if has_spi(&children[i + 1..], children[i].spi) {
            return false;
        }
    }
    true
}

// Whether the numbers of a child are in their ranges.
pub fn child_fits(child: Child) -> bool
    ensures { result ≡ child_fits child }
{
    (LEAST_SPI <= child.spi) & (1 <= child.session) & (child.session <= MOST_SESSION)
}

// Whether the numbers of each of the n children at a place are in their ranges.
fn fit_at(b: &[u8], at: usize, n: usize) -> bool
    requires { (at + children_room ≤ length b.now) × (n ≤ most_children) }
    ensures { result ≡ all_of child_fits (children_from b.now at n) }
{
    for i in 0..n {
        if !child_fits(read_child(b, at + CHILD * i)) {
            return false;
        }
    }
    true
}

// The SPIs of the first n children at a place; each place behind them has its own number.
fn spis(b: &[u8], at: usize, n: usize) -> [u64; CHILDREN]
    requires { (at + children_room ≤ length b.now) × (n ≤ most_children) }
    ensures { (i : ℕ) → i < n → get_or result i 0 ≡ field b.now (at + child_length * i) 4 }
{
    let mut w = [0u64; CHILDREN];
    for i in 0..CHILDREN {
        w[i] = pick(i < n, get(b, at + CHILD * i, 4), i as u64);
    }
    w
}

// Whether the first n children at a place have different SPIs.
fn differ_at(b: &[u8], at: usize, n: usize) -> bool
    requires { (at + children_room ≤ length b.now) × (n ≤ most_children) }
    ensures { result ≡ spis_differ (children_from b.now at n) }
{
    if n < 2 {
        return true;
    }
    if all_differ(spis(b, at, n)) {
        return true;
    }
    are_different(read_children(b, at, n).as_slice())
}

// Whether at most 8 children stand at a place, with numbers in their ranges and different SPIs, and zeros behind them.
pub fn are_sound(b: &[u8], at: usize, n: usize) -> bool
    requires { at + children_room ≤ length b.now }
    ensures { result ≡ children_written b.now at n && all_of child_fits (children_from b.now at n) && spis_differ (children_from b.now at n) }
{
    // One child is tested without a loop.
    if n == 1 {
        let child = read_child(b, at);
        return child_fits(child) & zeros_at(b, at + CHILD, CHILDREN_ROOM - CHILD);
    }
    if CHILDREN < n {
        return false;
    }
    if !fit_at(b, at, n) {
        return false;
    }
    if !zeros_at(b, at + CHILD * n, CHILDREN_ROOM - CHILD * n) {
        return false;
    }
    differ_at(b, at, n)
}

// The children without those of an SPI, in their order.
pub fn without(children: &[Child], spi: u64) -> Children
    requires { length children.now ≤ most_children }
    ensures { children_of result ≡ only (is_other spi) children.now }
{
    Bounded::only(children, NO_CHILD, |child| spi != child.spi)
}
