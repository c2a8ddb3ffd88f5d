// The configuration text.
#![tactic(auto)]

ghost use Rattle.std.specs.Prelude.{◌≡◌};
ghost use Rattle.config.specs.Places.{Places};
ghost use Rattle.config.specs.Settings.{Counted, settings_in, settings_of};

use address::Address;
use entry::field::Preferred;
use network::Plmn;

// A configuration text has at most so many octets.
pub const MOST_TEXT: usize = 1024;

// The most entries of one kind, `plmn` or `bar`, that a text has.
pub const MOST_LISTED: usize = 16;

// The kinds of entry that are listed.
#[derive(Clone, Copy)]
pub enum Kind {
    Plmn,
    Bar,
}

// Where the `node` entry sends a line: a name that stands in the text, or an address.
#[derive(Clone, Copy)]
pub enum Node {
    Name { at: usize, length: usize },
    Address(Address),
}

// A configuration, whose `plmn` entries and barred PLMNs lie in two lists beside it: those below their counts.
#[derive(Clone, Copy)]
pub struct Config {
    pub home: Plmn,
    pub node: Option<Node>,
    // A slice in place of a count would keep the lists lent that the reader fills.
    pub plmn_count: usize,
    pub bar_count: usize,
}

// A configuration with its lists, as they are read; a barred PLMN has priority 0.
#[derive(Clone, Copy)]
pub struct Configuration<'a> {
    pub home: Plmn,
    pub node: Option<Node>,
    pub plmns: &'a [Preferred],
    pub bars: &'a [Preferred],
}

impl Config {
    // The configuration with the two lists that lie beside it.
    pub fn lent<'a>(self, preferred: &'a [Preferred], barred: &'a [Preferred]) -> Configuration<'a>
        requires { Counted preferred.now barred.now self }
        ensures { settings_of result ≡ settings_in preferred.now barred.now self }
    {
        Configuration {
            home: self.home,
            node: self.node,
            plmns: &preferred[..self.plmn_count],
            bars: &barred[..self.bar_count],
        }
    }
}

// Does nothing; its promise is where a node name stands.
pub fn places()
    ensures { Places }
{}
