// Octets in lent slices: numbers read and written, runs cleared, copied and tested.
#![tactic(auto)]

pub mod number;
pub mod slice;
