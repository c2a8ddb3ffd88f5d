// The calls from start to the chosen address.
#![tactic(auto)]

ghost use Rattle.std.specs.Prelude.{[], ◌≡◌, ◌≤◌, length, MatchResult};
ghost use Rattle.octets.specs.Part.{zeros};
ghost use Rattle.attempt.specs.Attempt.{HoldTold};
ghost use Rattle.frame.specs.Entering.{Stands};
ghost use Rattle.frame.specs.Returned.{numbers_in, told};
ghost use Rattle.network.specs.Name.{name_room};
ghost use Rattle.selection.specs.Query.{TextWithin};
ghost use Rattle.record.specs.Changes.{current};
ghost use Rattle.record.specs.Octets.{line_from};
ghost use Rattle.table.specs.Table.{slot, UsedAt};
ghost use Rattle.rules.specs.Answer.{part_named, PartWithin};
ghost use Rattle.rules.specs.Call.{address, country, start, timed};
ghost use Rattle.rules.specs.Life.{decided};
ghost use Rattle.rules.specs.Run.{run};
ghost use Rattle.setup.specs.Finishing.{Finishes};

use attempt::{answered, decided};
use buffer::slice::zero;
use frame::{Entered, enter};
use network::NAME_ROOM;
use records::{awaited_at, held_at, in_force_at, is_held_at, keep_at, phase_at, unlisted_at};
use refusal::Refusal;
use rules::{Action, StartNumbers};
use selecting::{Selected, country_choice, start_choice};
use selection::Choice;

// Hands on what a test of a call came to, and clears the name buffer where it is a refusal; what an accepted call decides clears it itself.
fn cleared<T>(outcome: Result<T, Refusal>, name: &mut [u8]) -> Result<T, Refusal>
    ensures same { result ≡ outcome }
    ensures name_after { MatchResult result (λ _. name.new ≡ name.old) (λ _. name.new ≡ zeros (length name.old)) }
{
    if outcome.is_err() {
        zero(name);
    }
    outcome
}

// Whether a choice is an address that the line of a used record holds at a time.
fn is_choice_held(table: &[u8], i: usize, time: u64, choice: Choice) -> bool
    requires { UsedAt table.now i }
    ensures { HoldTold result choice (current time (line_from (slot table.now i))).holds }
{
    match choice {
        Choice::Address(a) => is_held_at(table, i, time, a),
        _ => false,
    }
}

// What a choice leaves of the line that a call is about: what is decided is stored, and what the daemon has to do is returned.
fn finish(
    table: &mut [u8],
    entered: Entered,
    time: u64,
    selected: Selected,
    text: &[u8],
    name: &mut [u8],
) -> Action
    requires { Stands entered table.old × TextWithin text.now selected.choice × (name_room ≤ length name.old) }
    ensures { Finishes (decided (current time (line_from (slot table.old entered.at))) selected.facts text.now selected.choice) entered result text.now name.new (length name.old) table.old table.new }
{
    let choice = selected.choice;
    let held = is_choice_held(table, entered.at, time, choice);
    let moved = decided(held, selected.facts, choice, text, name);
    keep_at(table, entered.at, time, moved.phase);
    moved.action
}

// Starts an attempt: selection goes on until it asks a name, chooses an address or stops.
pub fn start(
    table: &mut [u8],
    tenant: u64,
    line: u64,
    time: u64,
    given: StartNumbers,
    text: &[u8],
    name: &mut [u8],
) -> Result<Action, Refusal>
    ensures table_after { told result (part_named (numbers_in result) text.now name.new []) name.new table.new ≡ run (timed tenant line time (start given text.now (length name.old))) table.old }
    ensures part_within { PartWithin (numbers_in result) text.now name.new [] }
{
    let short = name.len() < NAME_ROOM;
    let entered = cleared(enter(table, tenant, line, time, short), name)?;
    let phase = phase_at(table, entered.at);
    let in_force = in_force_at(table, entered.at, time);
    let selected = cleared(start_choice(phase, time, given, text, in_force), name)?;
    Ok(finish(table, entered, time, selected, text, name))
}

// Takes the answer to the country query.
pub fn country(
    table: &mut [u8],
    tenant: u64,
    line: u64,
    time: u64,
    replied: u64,
    networks: &[u8],
    text: &[u8],
    name: &mut [u8],
) -> Result<Action, Refusal>
    ensures table_after { told result (part_named (numbers_in result) text.now name.new []) name.new table.new ≡ run (timed tenant line time (country replied networks.now text.now (length name.old))) table.old }
    ensures part_within { PartWithin (numbers_in result) text.now name.new [] }
{
    let short = name.len() < NAME_ROOM;
    let entered = cleared(enter(table, tenant, line, time, short), name)?;
    let awaited = awaited_at(table, entered.at);
    let selected = cleared(country_choice(awaited, time, replied, networks, text), name)?;
    Ok(finish(table, entered, time, selected, text, name))
}

// Takes the answer to the gateway's name: the addresses.
pub fn address(
    table: &mut [u8],
    tenant: u64,
    line: u64,
    time: u64,
    addresses: &[u8],
) -> Result<Action, Refusal>
    ensures { told result [] [] table.new ≡ run (timed tenant line time (address addresses.now)) table.old }
{
    let entered = enter(table, tenant, line, time, false)?;
    let held = held_at(table, entered.at, time, addresses);
    let done = answered(unlisted_at(table, entered.at), time, addresses, held)?;
    keep_at(table, entered.at, time, done.line.phase);
    Ok(done.action)
}
