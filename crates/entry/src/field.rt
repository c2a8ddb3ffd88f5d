// Fields of an entry.
use network::Plmn;

// The most characters that a node name has.
pub const MOST_NAME: usize = 253;

// The greatest number that a priority is.
pub const MOST_PRIORITY: u64 = 255;

// A `plmn` entry: a PLMN and its priority, 0 the best.
#[derive(Clone, Copy)]
pub struct Preferred {
    pub plmn: Plmn,
    pub priority: u64,
}
