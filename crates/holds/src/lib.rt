// What the holds of a line are in octets.
#![tactic(auto)]

ghost use Rattle.holds.specs.Laws.{Laws};

use address::{HOLDS, Hold};
use addresses::ADDRESS;
use bounded::Bounded;

// The octets of a hold.
pub const HOLD: usize = ADDRESS + 5;

// The octets of all the holds that a line has room for.
pub const HOLDS_ROOM: usize = HOLDS * HOLD;

// The holds of a line.
pub type Holds = Bounded<Hold, HOLDS>;

// Does nothing; its promise is that writing and reading undo each other.
pub fn laws()
    ensures { Laws }
{}
