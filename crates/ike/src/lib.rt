// The IKE association of a line, step by step.
#![tactic(auto)]

pub mod congestion;
pub mod event;

ghost use Rattle.std.specs.Prelude.{[], ◌≡◌};
ghost use Rattle.record.specs.Line.{line_of};
ghost use Rattle.rules.specs.Call.{begin, init, final, error, give_up};
ghost use Rattle.rules.specs.Life.{ended};
ghost use Rattle.rules.specs.Phases.{underway};
ghost use Rattle.step.specs.Step.{effect, effect_in};

use phase::Phase;
use record::Record;
use refusal::Refusal;
use rules::Action;
use step::{Done, Stepped, found_at};

// The highest number of an error notify.
const MOST_ERROR: u64 = 16383;

// Begin: IKE_SA_INIT is sent.
pub fn begin(line: Record, time: u64) -> Stepped
    ensures { effect_in (line_of line) result [] [] ≡ effect begin time (line_of line) }
{
    let found = found_at(line, time)?;
    let Phase::Chosen(a) = found.phase else {
        return Err(Refusal::Phase);
    };
    Ok(Done {
        line: found.in_phase(Phase::Init(a)),
        action: Action::SendInit,
    })
}

// The init answer: IKE_AUTH is sent without AUTH.
pub fn init_answer(line: Record, time: u64) -> Stepped
    ensures { effect_in (line_of line) result [] [] ≡ effect init time (line_of line) }
{
    let found = found_at(line, time)?;
    let Phase::Init(a) = found.phase else {
        return Err(Refusal::Phase);
    };
    Ok(Done {
        line: found.in_phase(Phase::Auth(a)),
        action: Action::SendAuthRequest,
    })
}

// The final answer: the line is live where AUTH is good, and released where it is bad.
pub fn final_answer(line: Record, time: u64, good: u64) -> Stepped
    ensures { effect_in (line_of line) result [] [] ≡ effect (final good) time (line_of line) }
{
    let found = found_at(line, time)?;
    if 1 < good {
        return Err(Refusal::Range);
    }
    let Phase::Sure(a) = found.phase else {
        return Err(Refusal::Phase);
    };
    if good == 1 {
        return Ok(Done {
            line: found.in_phase(Phase::Live(a)),
            action: Action::Live,
        });
    }
    Ok(Done {
        line: found.in_phase(Phase::Idle),
        action: Action::Released(false),
    })
}

// Whether a line authenticates itself: its phase is auth, eap or sure.
pub(crate) fn is_underway(phase: Phase) -> bool
    ensures { result ≡ underway phase }
{
    matches!(phase, Phase::Auth(_) | Phase::Eap(_, _) | Phase::Sure(_))
}

// Whether leaving a phase ends an EAP session.
pub(crate) fn ended(phase: Phase) -> bool
    ensures { result ≡ ended phase }
{
    matches!(phase, Phase::Eap(_, _))
}

// An error notify: the error is handed up.
pub fn error(line: Record, time: u64, code: u64) -> Stepped
    ensures { effect_in (line_of line) result [] [] ≡ effect (error code) time (line_of line) }
{
    let found = found_at(line, time)?;
    if !(1..=MOST_ERROR).contains(&code) {
        return Err(Refusal::Range);
    }
    if !is_underway(found.phase) {
        return Err(Refusal::Phase);
    }
    Ok(Done {
        line: found.in_phase(Phase::Idle),
        action: Action::ErrorUp(ended(found.phase), code),
    })
}

// Giving up: the line is idle.
pub fn give_up(line: Record, time: u64) -> Stepped
    ensures { effect_in (line_of line) result [] [] ≡ effect give_up time (line_of line) }
{
    let found = found_at(line, time)?;
    match found.phase {
        Phase::Idle | Phase::Live(_) => Err(Refusal::Phase),
        _ => Ok(Done {
            line: found.in_phase(Phase::Idle),
            action: Action::Nothing,
        }),
    }
}
