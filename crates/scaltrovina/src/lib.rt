// The calls that C links, each with its promise, for every table, number, slice and buffer.
#![tactic(auto)]

mod choosing_calls;
mod lines;
mod packet;
mod signalling;
mod tunnels;
