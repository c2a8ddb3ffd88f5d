// AN-parameters: each is a type octet, a length octet and that many octets.
#![tactic(auto)]

ghost use Rattle.parameters.specs.Laws.{Laws};

// The most octets that AN-parameters have in all.
pub const MOST_PARAMETERS: usize = 1024;

// A whole AN-parameter of a block: its type, where its value starts, how long that is, and the place after it.
#[derive(Clone, Copy)]
pub struct Parameter {
    pub kind: u64,
    pub start: usize,
    pub length: usize,
    pub next: usize,
}

// An AN-parameter that runs past the end of its block, or a place past the end.
#[derive(Clone, Copy)]
pub struct Broken;

// Does nothing; its promise is the laws of this crate's definitions.
pub fn laws()
    ensures { Laws }
{}
