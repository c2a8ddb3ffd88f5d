// Opening, closing and listing lines.
#![tactic(auto)]

ghost use Rattle.std.specs.Prelude.{[], ◌≡◌, length};
ghost use Rattle.refusal.specs.Numbers.{number_in};
ghost use Rattle.rules.specs.Call as Call;
ghost use Rattle.rules.specs.Call.{closing, opening};
ghost use Rattle.rules.specs.Run.{run};
ghost use Rattle.frame.specs.Returned.{returned, told};

use buffer::slice::zero;
use frame::checked;
use listing::LISTING_ROOM;
use records::{erase, open_at, record_of};
use refusal::Refusal;
use rules::{Action, pair_of};
use table::FREE_PAIR;

// Opens a line in the free record of the lowest number.
pub fn open(table: &mut [u8], tenant: u64, line: u64) -> Result<(), Refusal>
    ensures { returned (number_in result) [] [] [] table.new ≡ run (opening tenant line) table.old }
{
    checked(table, tenant, line, false)?;
    let pair = pair_of(tenant, line);
    if record_of(table, pair).is_some() {
        return Err(Refusal::Open);
    }
    let Some(at) = record_of(table, FREE_PAIR) else {
        return Err(Refusal::Full);
    };
    open_at(table, at, pair);
    Ok(())
}

// Closes a line: its record is free, and all zeros.
pub fn close(table: &mut [u8], tenant: u64, line: u64) -> Result<(), Refusal>
    ensures { returned (number_in result) [] [] [] table.new ≡ run (closing tenant line) table.old }
{
    checked(table, tenant, line, false)?;
    let Some(at) = record_of(table, pair_of(tenant, line)) else {
        return Err(Refusal::NotOpen);
    };
    erase(table, at);
    Ok(())
}

// Lists a tenant's lines.
pub fn list(table: &[u8], tenant: u64, listing: &mut [u8]) -> Result<Action, Refusal>
    ensures { told result [] listing.new table.now ≡ run (Call.listing tenant (length listing.old)) table.now }
{
    if let Err(refusal) = checked(table, tenant, 0, listing.len() < LISTING_ROOM) {
        // A listing that is written clears the buffer itself.
        zero(listing);
        return Err(refusal);
    }
    Ok(Action::Listed(listing::list(table, tenant, listing)))
}
