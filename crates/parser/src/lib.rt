// The reader of the configuration text.
#![tactic(auto)]

mod list;
pub mod parse;
