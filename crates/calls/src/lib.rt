// The other calls on the table: each is promised to be what the rules say of it, for every table, number, slice and buffer.
#![tactic(auto)]

pub mod signalling;
pub mod tunnels;
