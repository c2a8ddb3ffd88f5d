// The readers of the fields of an entry, each at a place of the configuration text.
#![tactic(auto)]

pub mod field;
pub mod name;
pub mod read;
