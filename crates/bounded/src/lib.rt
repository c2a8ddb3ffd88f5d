// At most so many values, in an array.
#![tactic(auto)]

ghost use Rattle.std.specs.Prelude.{ℕ, Bool, ⊤, [], ◌∷◌, ◌++◌, ◌+◌, ◌≡◌, ◌≤◌, ◌<◌, length};
ghost use Rattle.octets.specs.Row.{only, row};

use std::alloc::AllocError;

// A list of at most N values: those below the count.
pub struct Bounded<T, const N: usize> {
    pub list: [T; N],
    pub count: usize,
    ghost in_list: { count ≤ N },
}

impl<T: Copy, const N: usize> Clone for Bounded<T, N> {
    ghost is_clone = { λ x y. y ≡ x };

    ghost is_infallible = { λ _. ⊤ };

    fn clone(&self) -> Result<Self, AllocError> {
        Ok(*self)
    }
}

impl<T: Copy, const N: usize> Copy for Bounded<T, N> {}

impl<T: Copy, const N: usize> Bounded<T, N> {
    ghost use Rattle.bounded.specs.Bounded.{items_of};

    // No values; the places are filled with a blank one.
    pub fn empty(blank: T) -> Self
        ensures count { result.count ≡ 0 }
        ensures items { items_of result ≡ [] }
    {
        Bounded {
            list: [blank; N],
            count: 0,
        }
    }

    // The values, as a part of the array.
    pub fn as_slice(&self) -> &[T]
        ensures { result.now ≡ items_of self.now }
    {
        &self.list[..self.count]
    }

    // Adds a value behind the others.
    pub fn push(&mut self, value: T)
        requires { self.old.count < N }
        ensures count { self.new.count ≡ self.old.count + 1 }
        ensures items { items_of self.new ≡ items_of self.old ++ value ∷ [] }
    {
        self.list[self.count] = value;
        self.count += 1;
    }

    // The first n values of a function, from 0 on.
    pub fn from_fn<F: Fn(usize) -> T>(n: usize, blank: T, value: F) -> Self
        requires room { n ≤ N }
        requires callable { (i : ℕ) → i < n → F.pre value i }
        ensures { (f : ℕ → T) → ((i : ℕ) (x : T) → F.post value i x → x ≡ f i) → items_of result ≡ row f 0 n }
    {
        let mut made = Bounded::empty(blank);
        for i in 0..n {
            made.push(value(i));
        }
        made
    }

    // The values of a slice that pass a test, in their order.
    pub fn only<F: Fn(T) -> bool>(values: &[T], blank: T, passes: F) -> Self
        requires room { length values.now ≤ N }
        requires callable { F.IsAlwaysCallable passes }
        ensures { (p : T → Bool) → ((x : T) (b : Bool) → F.post passes x b → b ≡ p x) → items_of result ≡ only p values.now }
    {
        let mut kept = Bounded::empty(blank);
        for value in values {
            if passes(*value) {
                kept.push(*value);
            }
        }
        kept
    }
}
