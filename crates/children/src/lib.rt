// What the child associations of a line are in octets.
#![tactic(auto)]

ghost use Rattle.children.specs.Laws.{Laws};

use bounded::Bounded;

// A child association.
#[derive(Clone, Copy, PartialEq, Eq)]
pub struct Child {
    pub spi: u64,
    pub session: u64,
}

// How many children a line has room for.
pub const CHILDREN: usize = 8;

// The octets of a child.
pub const CHILD: usize = 5;

// The octets of all the children that a line has room for.
pub const CHILDREN_ROOM: usize = CHILDREN * CHILD;

// The children of a line.
pub type Children = Bounded<Child, CHILDREN>;

// Does nothing; its promise is that writing and reading undo each other.
pub fn laws()
    ensures { Laws }
{}
