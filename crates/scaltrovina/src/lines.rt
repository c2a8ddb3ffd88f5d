// Opening, closing and listing lines.
ghost use Rattle.std.specs.Prelude.{[], ◌≡◌, length};
ghost use Rattle.table.specs.Table.{table_length};
ghost use Rattle.rules.specs.Call as Call;
ghost use Rattle.rules.specs.Call.{closing, opening};
ghost use Rattle.rules.specs.Run.{run};
ghost use Rattle.frame.specs.Returned.{returned};

use settling::{answered, number};
use table::TABLE;

// The length of a sound table; zeros of this length are the empty one.
#[unsafe(no_mangle)]
pub extern "C" fn scal_table_length() -> u64
    ensures { result ≡ table_length }
{
    TABLE as u64
}

// Opens a line in the free record of the lowest number.
#[unsafe(no_mangle)]
pub extern "C" fn scal_open(table: &mut [u8], tenant: u64, line: u64) -> u64
    ensures { returned result [] [] [] table.new ≡ run (opening tenant line) table.old }
{
    number(line_calls::open(table, tenant, line))
}

// Closes a line: its record is free, and all zeros.
#[unsafe(no_mangle)]
pub extern "C" fn scal_close(table: &mut [u8], tenant: u64, line: u64) -> u64
    ensures { returned result [] [] [] table.new ≡ run (closing tenant line) table.old }
{
    number(line_calls::close(table, tenant, line))
}

// Lists a tenant's lines.
#[unsafe(no_mangle)]
pub extern "C" fn scal_list(
    table: &[u8],
    tenant: u64,
    listing: &mut [u8],
    answer: &mut [u64; 12],
) -> u64
    ensures { returned result answer.new [] listing.new table.now ≡ run (Call.listing tenant (length listing.old)) table.now }
{
    answered(line_calls::list(table, tenant, listing), answer)
}
