// Congestion, and the hold that it sets.
ghost use Rattle.std.specs.Prelude.{true, [], ◌++◌, ◌≡◌, ◌≤◌, ◌<◌, length};
ghost use Rattle.address.specs.Address.{most_holds};
ghost use Rattle.address.specs.declared.Address.{Address};
ghost use Rattle.timer.specs.Timer.{timer_of};
ghost use Rattle.record.specs.Changes.{hold_until, with_holds};
ghost use Rattle.record.specs.Line.{line_of};
ghost use Rattle.record.specs.Sound.{holds_sound};
ghost use Rattle.rules.specs.Call.{congestion, last_time};
ghost use Rattle.rules.specs.Life.{timer_hold};
ghost use Rattle.step.specs.Step.{effect, effect_in};

use crate::{ended, is_underway};
use address::{Address, End, Hold};
use buffer::number::MOST_OCTET;
use phase::Phase;
use record::Record;
use refusal::Refusal;
use rules::Action;
use step::{Done, Stepped, found_at};
use timer::Timer;

// Until when a timer octet holds an address from a time on, where it does.
fn hold_end(time: u64, octet: u8) -> Option<End>
    requires { time ≤ last_time }
    ensures { (a : Address) → hold_until a result ≡ timer_hold time (timer_of octet) a }
{
    match timer::read(octet) {
        Timer::None => None,
        Timer::Seconds(n) => Some(End::At(time + n)),
        Timer::Deactivated => Some(End::Never),
    }
}

// A line on which an address is held behind the others until an end, where there is one.
fn held_until(line: Record, address: Address, end: Option<End>) -> Record
    requires { length (line_of line).holds < most_holds }
    ensures { line_of result ≡ with_holds (line_of line) ((line_of line).holds ++ hold_until address end) }
{
    let Some(end) = end else {
        return line;
    };
    let mut holds = line.holds;
    holds.push(Hold { address, end });
    line.with_holds(holds)
}

// Congestion: the line is released, and the chosen address is held by the timer.
pub fn congestion(line: Record, time: u64, authenticated: u64, timer: u64) -> Stepped
    requires { holds_sound line.time line.phase (line_of line).holds ≡ true }
    ensures { effect_in (line_of line) result [] [] ≡ effect (congestion authenticated timer) time (line_of line) }
{
    let found = found_at(line, time)?;
    if 1 < authenticated || MOST_OCTET < timer {
        return Err(Refusal::Range);
    }
    if authenticated != 1 || !is_underway(found.phase) {
        return Err(Refusal::Phase);
    }
    // A line underway has a chosen address, so nothing is refused here.
    let Some(a) = found.phase.chosen() else {
        return Err(Refusal::Phase);
    };
    let held = held_until(found, a, hold_end(time, timer as u8));
    Ok(Done {
        line: held.in_phase(Phase::Idle),
        action: Action::Released(ended(found.phase)),
    })
}
