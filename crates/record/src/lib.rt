// The record of a line: what it holds and where its parts stand.
#![tactic(auto)]

ghost use Rattle.record.specs.Laws.{Laws};

use children::{CHILDREN_ROOM, Children};
use holds::{HOLDS_ROOM, Holds};
use phase::Phase;

// Where the parts of a record stand: the pair first, then the time, the phase, both counts, the holds and the children.
pub const TIME_AT: usize = 1;

pub const PHASE_AT: usize = 5;

pub const HOLD_COUNT_AT: usize = 25;

pub const CHILD_COUNT_AT: usize = 26;

pub const HOLDS_AT: usize = 27;

pub const CHILDREN_AT: usize = HOLDS_AT + HOLDS_ROOM;

// The octets of a record.
pub const RECORD: usize = CHILDREN_AT + CHILDREN_ROOM;

// How many tenants there are, how many lines each has, and how many pairs of the two.
pub const TENANTS: u64 = 16;

pub const LINES: u64 = 4;

pub const PAIRS: u64 = TENANTS * LINES;

// A line, with its holds and its children.
#[derive(Clone, Copy)]
pub struct Record {
    pub time: u64,
    pub phase: Phase,
    pub holds: Holds,
    pub children: Children,
}

impl Record {
    ghost use Rattle.std.specs.Prelude.{◌≡◌};
    ghost use Rattle.children.specs.Listed.{children_of};
    ghost use Rattle.holds.specs.Listed.{holds_of};
    ghost use Rattle.record.specs.Changes.{in_phase, with_children, with_holds};
    ghost use Rattle.record.specs.Line.{line_of};

    // The same line in another phase.
    #[tactic(auto, unfolding(crate::specs::Line::line_of, crate::specs::Changes::in_phase))]
    pub fn in_phase(self, phase: Phase) -> Record
        ensures { line_of result ≡ in_phase (line_of self) phase }
    {
        Record { phase, ..self }
    }

    // The same line with other holds.
    #[tactic(auto, unfolding(crate::specs::Line::line_of, crate::specs::Changes::with_holds))]
    pub fn with_holds(self, holds: Holds) -> Record
        ensures { line_of result ≡ with_holds (line_of self) (holds_of holds) }
    {
        Record { holds, ..self }
    }

    // The same line with other children.
    #[tactic(auto, unfolding(crate::specs::Line::line_of, crate::specs::Changes::with_children))]
    pub fn with_children(self, children: Children) -> Record
        ensures { line_of result ≡ with_children (line_of self) (children_of children) }
    {
        Record { children, ..self }
    }
}

// Does nothing; its promise is that writing and reading undo each other.
pub fn laws()
    ensures { Laws }
{}
