// The tunnels of a live line.
ghost use Rattle.std.specs.Prelude.{[], ◌≡◌};
ghost use Rattle.rules.specs.Call.{child_deleted, child_made, ike_delete, timed};
ghost use Rattle.rules.specs.Run.{run};
ghost use Rattle.frame.specs.Returned.{returned};

use calls::tunnels::{child_made, on_tunnel};
use settling::answered;
use tunnel::TunnelEvent;

// Adds a child association.
#[unsafe(no_mangle)]
pub extern "C" fn scal_child_made(
    table: &mut [u8],
    tenant: u64,
    line: u64,
    time: u64,
    spi: u64,
    session: u64,
    answer: &mut [u64; 12],
) -> u64
    ensures { returned result answer.new [] [] table.new ≡ run (timed tenant line time (child_made spi session)) table.old }
{
    answered(child_made(table, tenant, line, time, spi, session), answer)
}

// Takes a child association out.
#[unsafe(no_mangle)]
pub extern "C" fn scal_child_deleted(
    table: &mut [u8],
    tenant: u64,
    line: u64,
    time: u64,
    spi: u64,
    answer: &mut [u64; 12],
) -> u64
    ensures { returned result answer.new [] [] table.new ≡ run (timed tenant line time (child_deleted spi)) table.old }
{
    answered(
        on_tunnel(table, tenant, line, time, TunnelEvent::ChildDeleted(spi)),
        answer,
    )
}

// Takes an IKE delete: the line is idle, and its child associations are gone.
#[unsafe(no_mangle)]
pub extern "C" fn scal_ike_delete(
    table: &mut [u8],
    tenant: u64,
    line: u64,
    time: u64,
    answer: &mut [u64; 12],
) -> u64
    ensures { returned result answer.new [] [] table.new ≡ run (timed tenant line time ike_delete) table.old }
{
    answered(
        on_tunnel(table, tenant, line, time, TunnelEvent::IkeDelete),
        answer,
    )
}
