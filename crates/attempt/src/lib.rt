// What a choice and the address answer come to: the phase that a line goes to, and what the daemon has to do.
#![tactic(auto)]

ghost use Rattle.std.specs.Prelude.{IfOk, List, ◌≡◌, ◌*◌, ◌≤◌, length};
ghost use Rattle.octets.specs.Row.{only};
ghost use Rattle.address.specs.Address.{held_addresses};
ghost use Rattle.address.specs.declared.Hold.{Hold};
ghost use Rattle.addresses.specs.Addresses.{address_length};
ghost use Rattle.holds.specs.Holds.{ends_after};
ghost use Rattle.lists.specs.Held.{HeldAre};
ghost use Rattle.lists.specs.Lists.{most_entries};
ghost use Rattle.network.specs.Name.{name_room};
ghost use Rattle.selection.specs.Query.{TextWithin};
ghost use Rattle.record.specs.Changes.{current, in_phase, with_holds};
ghost use Rattle.record.specs.Line.{Line, line_of};
ghost use Rattle.rules.specs.Call.{address};
ghost use Rattle.rules.specs.Life.{decided};
ghost use Rattle.step.specs.Step.{effect};
ghost use Rattle.attempt.specs.Attempt.{answered_on, HoldTold, Says};

use gateway::{Found, choose, choose_one};
use lists::{ENTRIES, addresses_fit};
use phase::Phase;
use place::Facts;
use query::{asked, build};
use record::Record;
use refusal::Refusal;
use rules::Action;
use selection::{Choice, Stop};
use step::{Done, Stepped, found_at};

// The phase that a line goes to, and what the daemon has to do.
#[derive(Clone, Copy)]
pub struct Move {
    pub phase: Phase,
    pub action: Action,
}

// What S5 found: the address is chosen, or selection stops.
impl From<Found> for Move {
    ghost use Rattle.attempt.specs.Attempt.{Comes};

    ghost from_gives = { λ found move. Comes move found };

    #[tactic(auto, unfolding(rules::specs::Life::gateway_found, rules::specs::Life::goes))]
    fn from(found: Found) -> Move {
        match found {
            Found::Chosen(a, passed) => Move {
                phase: Phase::Chosen(a),
                action: Action::Chose(a, passed),
            },
            Found::Nothing(passed) => Move {
                phase: Phase::Idle,
                action: Action::Stopped(Stop::Address, passed),
            },
        }
    }
}

// What S1 to S4 came to: selection stops, a name is asked, or an address, of which it is told whether it is on hold, is treated as an answer list of one.
pub fn decided(held: bool, facts: Facts, choice: Choice, text: &[u8], name: &mut [u8]) -> Move
    requires { TextWithin text.now choice × (name_room ≤ length name.old) }
    ensures { (x : Line) → HoldTold held choice x.holds → Says result x (decided x facts text.now choice) text.now name.new (length name.old) }
{
    let n = build(choice, name);
    let length = asked(choice, text, name, n).len();
    match choice {
        Choice::Stop(stop) => Move {
            phase: Phase::Idle,
            action: Action::Stopped(stop, 0),
        },
        Choice::Country(_) => Move {
            phase: Phase::Country(facts),
            action: Action::AskCountry(length),
        },
        Choice::Text { at, .. } => Move {
            phase: Phase::Name(facts),
            action: Action::AskText(at, length),
        },
        Choice::Network(_) => Move {
            phase: Phase::Name(facts),
            action: Action::AskBuilt(length),
        },
        Choice::Address(a) => Move::from(choose_one(a, facts.version, held)),
    }
}

// The address answer, told of each address whether it is on hold: the first that is permitted is chosen, and only the phase is another.
pub fn answered(line: Record, time: u64, addresses: &[u8], held: [bool; ENTRIES]) -> Stepped
    ensures hs_value { (hs : List Hold) → (length addresses.now ≤ address_length * most_entries → HeldAre held addresses.now (held_addresses (only (ends_after time) hs))) → answered_on (line_of line) result time hs ≡ effect (address addresses.now) time (with_holds (line_of line) hs) }
    ensures phase_alone { IfOk result (λ d. line_of d.line ≡ in_phase (current time (line_of line)) d.line.phase) }
{
    let found = found_at(line, time)?;
    if !addresses_fit(addresses) {
        return Err(Refusal::Range);
    }
    let Phase::Name(facts) = found.phase else {
        return Err(Refusal::Phase);
    };
    let moved = Move::from(choose(addresses, facts.version, held));
    Ok(Done {
        line: found.in_phase(moved.phase),
        action: moved.action,
    })
}
