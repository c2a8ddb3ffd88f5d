// The readers of the entries of the configuration text, each at a place of the text.
#![tactic(auto)]

pub mod line;
pub mod list;
pub mod nodes;
