// Steps on a line's record that is lent, of the events that come with numbers alone: it is changed where it lies.
#![tactic(auto, using(crate::proofs::Leaving::left_by))]

ghost use Rattle.std.specs.Prelude.{true, [], ◌≡◌};
ghost use Rattle.record.specs.Line.{line_of};
ghost use Rattle.record.specs.Sound.{holds_sound};
ghost use Rattle.rules.specs.Call.{begin, child_deleted, child_made, congestion, error, final, give_up, ike_delete, init};
ghost use Rattle.step.specs.Step.{effect, effect_in};
ghost use Rattle.lent.specs.Left.{effect_left, Leaves};

use ike::congestion::congestion;
use ike::{begin, error, final_answer, give_up, init_answer};
use record::Record;
use refusal::Refusal;
use rules::Action;
use step::{Done, Stepped};
use tunnel::{child_deleted, child_made, ike_delete};

// Keeps in a lent record what a step leaves: a refused one leaves it as it was.
pub fn keep(line: &mut Record, stepped: Stepped) -> Result<Action, Refusal>
    ensures { Leaves stepped line.old line.new result }
{
    let done = stepped?;
    *line = done.line;
    Ok(done.action)
}

// A step on a lent record.
pub fn on_record<S: FnOnce(Record) -> Stepped>(
    line: &mut Record,
    step: S,
) -> Result<Action, Refusal>
    requires { S.pre step line.old }
    ensures { (stepped : _) × S.post step line.old stepped × Leaves stepped line.old line.new result }
{
    let stepped = step(*line);
    keep(line, stepped)
}

// Begin on a lent record.
pub fn on_begin(line: &mut Record, time: u64) -> Result<Action, Refusal>
    ensures { effect_left result line.new [] [] ≡ effect begin time (line_of line.old) }
{
    on_record(line, |record| begin(record, time))
}

// The init answer on a lent record.
pub fn on_init_answer(line: &mut Record, time: u64) -> Result<Action, Refusal>
    ensures { effect_left result line.new [] [] ≡ effect init time (line_of line.old) }
{
    on_record(line, |record| init_answer(record, time))
}

// The final answer on a lent record.
pub fn on_final_answer(line: &mut Record, time: u64, good: u64) -> Result<Action, Refusal>
    ensures { effect_left result line.new [] [] ≡ effect (final good) time (line_of line.old) }
{
    on_record(line, |record| final_answer(record, time, good))
}

// An error notify on a lent record.
pub fn on_error(line: &mut Record, time: u64, code: u64) -> Result<Action, Refusal>
    ensures { effect_left result line.new [] [] ≡ effect (error code) time (line_of line.old) }
{
    on_record(line, |record| error(record, time, code))
}

// Congestion on a lent record.
pub fn on_congestion(
    line: &mut Record,
    time: u64,
    authenticated: u64,
    timer: u64,
) -> Result<Action, Refusal>
    requires { holds_sound line.old.time line.old.phase (line_of line.old).holds ≡ true }
    ensures { effect_left result line.new [] [] ≡ effect (congestion authenticated timer) time (line_of line.old) }
{
    on_record(
        line,
        |record| congestion(record, time, authenticated, timer),
    )
}

// Giving up on a lent record.
pub fn on_give_up(line: &mut Record, time: u64) -> Result<Action, Refusal>
    ensures { effect_left result line.new [] [] ≡ effect give_up time (line_of line.old) }
{
    on_record(line, |record| give_up(record, time))
}

// A child made on a lent record.
pub fn on_child_made(
    line: &mut Record,
    time: u64,
    spi: u64,
    session: u64,
) -> Result<Action, Refusal>
    ensures { effect_left result line.new [] [] ≡ effect (child_made spi session) time (line_of line.old) }
{
    on_record(line, |record| child_made(record, time, spi, session))
}

// A child deleted on a lent record.
pub fn on_child_deleted(line: &mut Record, time: u64, spi: u64) -> Result<Action, Refusal>
    ensures { effect_left result line.new [] [] ≡ effect (child_deleted spi) time (line_of line.old) }
{
    on_record(line, |record| child_deleted(record, time, spi))
}

// IKE delete on a lent record.
pub fn on_ike_delete(line: &mut Record, time: u64) -> Result<Action, Refusal>
    ensures { effect_left result line.new [] [] ≡ effect ike_delete time (line_of line.old) }
{
    on_record(line, |record| ike_delete(record, time))
}

// Congestion, by a record that is lent.
pub fn congested(line: Record, time: u64, authenticated: u64, timer: u64) -> Stepped
    requires { holds_sound line.time line.phase (line_of line).holds ≡ true }
    ensures { effect_in (line_of line) result [] [] ≡ effect (congestion authenticated timer) time (line_of line) }
{
    let mut kept = line;
    let action = on_congestion(&mut kept, time, authenticated, timer)?;
    Ok(Done { line: kept, action })
}
