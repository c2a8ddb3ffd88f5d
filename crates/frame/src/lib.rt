// What the calls on the table share at their entry: the tests, and the record that a timed call is about.
#![tactic(auto)]

ghost use Rattle.std.specs.Prelude.{◌≡◌};
ghost use Rattle.octets.specs.Refusal.{refusal};
ghost use Rattle.refusal.specs.Numbers.{number_in};
ghost use Rattle.frame.specs.Entering.{first_refusals, Enters};

use record::{LINES, TENANTS};
use records::{record_of, time_at};
use refusal::Refusal;
use rules::pair_of;
use sound::is_sound;

// The pair and the record that a timed call is about.
#[derive(Clone, Copy)]
pub struct Entered {
    pub pair: u64,
    pub at: usize,
}

// The refusals by 1, 2 and 3: an unsound table, no such pair, an answer buffer that is too short.
pub fn checked(table: &[u8], tenant: u64, line: u64, short: bool) -> Result<(), Refusal>
    ensures { number_in result ≡ refusal (first_refusals table.now tenant line short) }
{
    if !is_sound(table) {
        return Err(Refusal::Table);
    }
    if (TENANTS <= tenant) | (LINES <= line) {
        return Err(Refusal::Pair);
    }
    if short {
        return Err(Refusal::Buffer);
    }
    Ok(())
}

// The entry tests of a timed call, and the record that it is about; C hands in tenant, line and time one by one.
pub fn enter(
    table: &[u8],
    tenant: u64,
    line: u64,
    time: u64,
    short: bool,
) -> Result<Entered, Refusal>
    ensures { Enters result tenant line time short table.now }
{
    checked(table, tenant, line, short)?;
    let pair = pair_of(tenant, line);
    let Some(at) = record_of(table, pair) else {
        return Err(Refusal::NotOpen);
    };
    if time < time_at(table, at) {
        return Err(Refusal::Early);
    }
    Ok(Entered { pair, at })
}
