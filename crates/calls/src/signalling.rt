// From the chosen address to a live line: IKE and EAP-5G.
ghost use Rattle.std.specs.Prelude.{[], ◌≡◌, length};
ghost use Rattle.rules.specs.Answer.{part_named, PartWithin};
ghost use Rattle.rules.specs.Call.{Event, congestion, eap, timed};
ghost use Rattle.rules.specs.Call as Call;
ghost use Rattle.rules.specs.Run.{run};
ghost use Rattle.ike.specs.Events.{event_of};
ghost use Rattle.frame.specs.Returned.{numbers_in, told};
ghost use Rattle.calls.specs.Steps.{ChangesPhase, IsStep};

use buffer::slice::zero;
use frame::enter;
use ike::event::IkeEvent;
use ike::{begin, error, final_answer, give_up, init_answer};
use record::Record;
use records::{keep_hold_at, keep_standing_at, unlisted_at};
use refusal::Refusal;
use response::REPLY_ROOM;
use rules::Action;
use session::eap_packet;
use standing::standing_of;
use step::Stepped;

// A call whose event comes with numbers alone and changes only the phase of the line, by the step of the event.
pub fn on_line_by<S: FnOnce(Record, u64) -> Stepped>(
    table: &mut [u8],
    tenant: u64,
    line: u64,
    time: u64,
    step: S,
) -> Result<Action, Refusal>
    requires { S.IsAlwaysCallable step }
    ensures { (e : Event) → ChangesPhase e → IsStep (S.post step) e time → told result [] [] table.new ≡ run (timed tenant line time e) table.old }
{
    let entered = enter(table, tenant, line, time, false)?;
    let found = unlisted_at(table, entered.at);
    let done = step(found, time)?;
    keep_standing_at(table, entered.at, time, standing_of(done.line.phase));
    Ok(done.action)
}

// A call whose event comes with numbers alone and changes only the phase of the line; inlined, since each caller knows its event.
#[inline(always)]
pub fn on_line(
    table: &mut [u8],
    tenant: u64,
    line: u64,
    time: u64,
    event: IkeEvent,
) -> Result<Action, Refusal>
    ensures { told result [] [] table.new ≡ run (timed tenant line time (event_of event)) table.old }
{
    match event {
        IkeEvent::Begin => on_line_by(table, tenant, line, time, begin),
        IkeEvent::InitAnswer => on_line_by(table, tenant, line, time, init_answer),
        IkeEvent::FinalAnswer(good) => {
            let step = |found, time| final_answer(found, time, good);
            on_line_by(table, tenant, line, time, step)
        }
        IkeEvent::Error(number) => {
            let step = |found, time| error(found, time, number);
            on_line_by(table, tenant, line, time, step)
        }
        IkeEvent::GiveUp => on_line_by(table, tenant, line, time, give_up),
    }
}

// Takes a congestion notify with its back-off timer.
pub fn congested(
    table: &mut [u8],
    tenant: u64,
    line: u64,
    time: u64,
    authenticated: u64,
    timer: u64,
) -> Result<Action, Refusal>
    ensures { told result [] [] table.new ≡ run (timed tenant line time (congestion authenticated timer)) table.old }
{
    let entered = enter(table, tenant, line, time, false)?;
    let found = unlisted_at(table, entered.at);
    let done = lent::congested(found, time, authenticated, timer)?;
    let hold = done.line.holds.as_slice().first();
    keep_hold_at(table, entered.at, time, hold.map(|hold| hold.end));
    Ok(done.action)
}

// Takes an EAP packet: Start, a NAS request or Success.
pub fn eap(
    table: &mut [u8],
    tenant: u64,
    line: u64,
    time: u64,
    packet: &[u8],
) -> Result<Action, Refusal>
    ensures table_after { told result (part_named (numbers_in result) [] [] packet.now) [] table.new ≡ run (timed tenant line time (eap packet.now)) table.old }
    ensures part_within { PartWithin (numbers_in result) [] [] packet.now }
{
    let entered = enter(table, tenant, line, time, false)?;
    let done = eap_packet(unlisted_at(table, entered.at), time, packet)?;
    keep_standing_at(table, entered.at, time, standing_of(done.line.phase));
    Ok(done.action)
}

// Writes the response that is owed, with AN-parameters and NAS.
pub fn reply(
    table: &mut [u8],
    tenant: u64,
    line: u64,
    time: u64,
    parameters: &[u8],
    nas: &[u8],
    reply: &mut [u8],
) -> Result<Action, Refusal>
    ensures { told result [] reply.new table.new ≡ run (timed tenant line time (Call.reply parameters.now nas.now (length reply.old))) table.old }
{
    let entered = match enter(table, tenant, line, time, reply.len() < REPLY_ROOM) {
        Ok(entered) => entered,
        Err(refusal) => {
            // The step of an accepted entry clears the buffer itself.
            zero(reply);
            return Err(refusal);
        }
    };
    let done = session::reply(unlisted_at(table, entered.at), time, parameters, nas, reply)?;
    keep_standing_at(table, entered.at, time, standing_of(done.line.phase));
    Ok(done.action)
}
