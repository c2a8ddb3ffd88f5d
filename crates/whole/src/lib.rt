// Start, country answer and address answer as steps on a whole line.
#![tactic(auto)]

ghost use Rattle.std.specs.Prelude.{[], ◌≡◌, ◌*◌, ◌≤◌, length};
ghost use Rattle.address.specs.Address.{held_addresses};
ghost use Rattle.addresses.specs.Addresses.{address_length};
ghost use Rattle.lists.specs.Held.{HeldAre};
ghost use Rattle.lists.specs.Lists.{most_entries};
ghost use Rattle.network.specs.Name.{name_room};
ghost use Rattle.selection.specs.Query.{TextWithin};
ghost use Rattle.record.specs.Line.{line_of};
ghost use Rattle.rules.specs.Answer.{numbers_of, part_named, PartWithin};
ghost use Rattle.rules.specs.Call.{address, country, start};
ghost use Rattle.rules.specs.Life.{decided};
ghost use Rattle.step.specs.Step.{action_in, effect, effect_in};
ghost use Rattle.attempt.specs.Attempt.{HoldTold};
ghost use Rattle.whole.specs.Finished.{Finished};

use address::{Hold, is_held};
use addresses::ADDRESS;
use attempt::{answered, decided};
use buffer::slice::zero;
use lists::{ENTRIES, address_at};
use record::Record;
use rules::StartNumbers;
use selecting::{Selected, country_choice, start_choice};
use selection::Choice;
use step::{Done, Stepped, found_at};

// Whether a choice is an address that is on hold.
#[tactic(auto, using(attempt::proofs::Told::of_address, attempt::proofs::Told::of_other))]
fn is_choice_held(choice: Choice, holds: &[Hold]) -> bool
    ensures { HoldTold result choice holds.now }
{
    match choice {
        Choice::Address(a) => is_held(holds, a),
        _ => false,
    }
}

// What a choice leaves of a line that a call finds.
#[tactic(auto, unfolding(record::specs::Line::line_of))]
fn finished(found: Record, chosen: Selected, text: &[u8], name: &mut [u8]) -> Done
    requires { TextWithin text.now chosen.choice × (name_room ≤ length name.old) }
    ensures { Finished result (decided (line_of found) chosen.facts text.now chosen.choice) text.now name.new (length name.old) }
{
    let held = is_choice_held(chosen.choice, found.holds.as_slice());
    let moved = decided(held, chosen.facts, chosen.choice, text, name);
    Done {
        line: found.in_phase(moved.phase),
        action: moved.action,
    }
}

// Start: the gateway is chosen up to the question that is asked first.
pub fn start(line: Record, time: u64, given: StartNumbers, text: &[u8], name: &mut [u8]) -> Stepped
    requires { name_room ≤ length name.old }
    ensures name_after { effect_in (line_of line) result (part_named (numbers_of (action_in result)) text.now name.new []) name.new ≡ effect (start given text.now (length name.old)) time (line_of line) }
    ensures part_within { PartWithin (numbers_of (action_in result)) text.now name.new [] }
{
    zero(name);
    let found = found_at(line, time)?;
    let in_force = found.holds.as_slice().len();
    let chosen = start_choice(found.phase, time, given, text, in_force)?;
    Ok(finished(found, chosen, text, name))
}

// The country answer: a network is chosen of those that are listed or configured.
pub fn country_answer(
    line: Record,
    time: u64,
    replied: u64,
    networks: &[u8],
    text: &[u8],
    name: &mut [u8],
) -> Stepped
    requires { name_room ≤ length name.old }
    ensures name_after { effect_in (line_of line) result (part_named (numbers_of (action_in result)) text.now name.new []) name.new ≡ effect (country replied networks.now text.now (length name.old)) time (line_of line) }
    ensures part_within { PartWithin (numbers_of (action_in result)) text.now name.new [] }
{
    zero(name);
    let found = found_at(line, time)?;
    let awaited = found.phase.awaited();
    let chosen = country_choice(awaited, time, replied, networks, text)?;
    Ok(finished(found, chosen, text, name))
}

// Which addresses of a list are on hold.
fn held_among(list: &[u8], holds: &[Hold]) -> [bool; ENTRIES]
    ensures { length list.now ≤ address_length * most_entries → HeldAre result list.now (held_addresses holds.now) }
{
    let mut held = [false; ENTRIES];
    for i in 0..ENTRIES.min(list.len() / ADDRESS) {
        held[i] = is_held(holds, address_at(list, i));
    }
    held
}

// The address answer: the first address that is permitted is chosen.
pub fn address_answer(line: Record, time: u64, addresses: &[u8]) -> Stepped
    ensures { effect_in (line_of line) result [] [] ≡ effect (address addresses.now) time (line_of line) }
{
    let found = found_at(line, time)?;
    let held = held_among(addresses, found.holds.as_slice());
    answered(line, time, addresses, held)
}
