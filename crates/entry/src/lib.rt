// Entries of the configuration text, one a line: its fields are parted by one tab.
#![tactic(auto)]

pub mod field;

// The octets of a line before a node name: `node`, a tab, `name` and a tab.
pub const BEFORE_NAME: usize = 10;

// The octet that parts the fields of a line.
pub const TAB: u8 = b'\t';

// The octet that ends a line.
pub const NEWLINE: u8 = b'\n';
