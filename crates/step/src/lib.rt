// What every step on a line shares: what an accepted step leaves, and the line as a call finds it. The refusals from 1 to 7 are tested before a step.
#![tactic(auto)]

ghost use Rattle.std.specs.Prelude.{◌≡◌};
ghost use Rattle.record.specs.Changes.{current};
ghost use Rattle.record.specs.Line.{line_of};
ghost use Rattle.step.specs.Laws.{Laws};
ghost use Rattle.step.specs.Step.{Finds};

use hold_codec::in_force;
use record::Record;
use refusal::Refusal;
use rules::Action;

// The last time that a call may carry.
pub const LAST_TIME: u64 = 4294967295;

// What an accepted step leaves: the line, and what the daemon has to do.
#[derive(Clone, Copy)]
pub struct Done {
    pub line: Record,
    pub action: Action,
}

// What a step comes to: it is refused, or it leaves a line and an action.
pub type Stepped = Result<Done, Refusal>;

// The line as a call at a time finds it: the time is stored, and the holds that have ended are dropped.
#[tactic(auto, unfolding(record::specs::Line::line_of, record::specs::Changes::current, record::specs::Changes::with_holds))]
pub fn current(line: Record, time: u64) -> Record
    ensures { line_of result ≡ current time (line_of line) }
{
    let mut found = line.with_holds(in_force(line.holds.as_slice(), time));
    found.time = time;
    found
}

// The same where the time is one that a call may carry; inlined and not by `current`, so that no record is copied for it.
#[inline(always)]
#[tactic(auto, unfolding(record::specs::Line::line_of, record::specs::Changes::current))]
pub fn found_at(line: Record, time: u64) -> Result<Record, Refusal>
    ensures { Finds result time (line_of line) }
{
    if LAST_TIME < time {
        return Err(Refusal::Range);
    }
    Ok(Record {
        time,
        holds: in_force(line.holds.as_slice(), time),
        ..line
    })
}

// Does nothing; its promise is that what an event comes to is what `run` makes of its call.
pub fn laws()
    ensures { Laws }
{}
