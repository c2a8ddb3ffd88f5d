// The tunnels of a live line.
ghost use Rattle.std.specs.Prelude.{[], ◌≡◌};
ghost use Rattle.rules.specs.Call.{Event, child_made, timed};
ghost use Rattle.rules.specs.Run.{run};
ghost use Rattle.tunnel.specs.Events.{tunnel_event_of};
ghost use Rattle.frame.specs.Returned.{told};
ghost use Rattle.calls.specs.Steps.{ChangesChildren, IsStep};

use children::Child;
use frame::enter;
use record::Record;
use records::{child_count_at, has_spi_at, keep_child_at, keep_tunnels_at, unheld_at, unlisted_at};
use refusal::Refusal;
use rules::Action;
use standing::standing_of;
use step::Stepped;
use tunnel::{TunnelEvent, child_deleted, ike_delete, made};

// A call whose event takes children of a live line away, by the step of the event.
pub fn on_tunnel_by<S: FnOnce(Record, u64) -> Stepped>(
    table: &mut [u8],
    tenant: u64,
    line: u64,
    time: u64,
    step: S,
) -> Result<Action, Refusal>
    requires { S.IsAlwaysCallable step }
    ensures { (e : Event) → ChangesChildren e → IsStep (S.post step) e time → told result [] [] table.new ≡ run (timed tenant line time e) table.old }
{
    let entered = enter(table, tenant, line, time, false)?;
    let done = step(unheld_at(table, entered.at), time)?;
    let standing = standing_of(done.line.phase);
    // The children are copied first, so that the rest of the record is not.
    let children = done.line.children;
    keep_tunnels_at(table, entered.at, time, standing, children.as_slice());
    Ok(done.action)
}

// A call whose event takes children of a live line away; inlined, since each caller knows its event.
#[inline(always)]
pub fn on_tunnel(
    table: &mut [u8],
    tenant: u64,
    line: u64,
    time: u64,
    event: TunnelEvent,
) -> Result<Action, Refusal>
    ensures { told result [] [] table.new ≡ run (timed tenant line time (tunnel_event_of event)) table.old }
{
    match event {
        TunnelEvent::ChildDeleted(spi) => {
            let step = |found, time| child_deleted(found, time, spi);
            on_tunnel_by(table, tenant, line, time, step)
        }
        TunnelEvent::IkeDelete => on_tunnel_by(table, tenant, line, time, ike_delete),
    }
}

// Takes a child made on a live line.
pub fn child_made(
    table: &mut [u8],
    tenant: u64,
    line: u64,
    time: u64,
    spi: u64,
    session: u64,
) -> Result<Action, Refusal>
    ensures { told result [] [] table.new ≡ run (timed tenant line time (child_made spi session)) table.old }
{
    let entered = enter(table, tenant, line, time, false)?;
    let found = unlisted_at(table, entered.at);
    let taken = has_spi_at(table, entered.at, spi);
    let n = child_count_at(table, entered.at);
    let child = Child { spi, session };
    let done = made(found, time, child, taken, n)?;
    keep_child_at(table, entered.at, time, standing_of(done.line.phase), child);
    Ok(done.action)
}
