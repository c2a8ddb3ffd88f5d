// The table of records.
#![tactic(auto)]

ghost use Rattle.table.specs.Laws.{Laws};

use record::RECORD;

// How many records a table has, and how many octets.
pub const RECORDS: usize = 32;

pub const TABLE: usize = RECORDS * RECORD;

// The number that a free record has in the place of a pair.
pub const FREE_PAIR: u64 = 0;

// Does nothing; its promise is what holds of tables and their slots.
pub fn laws()
    ensures { Laws }
{}
