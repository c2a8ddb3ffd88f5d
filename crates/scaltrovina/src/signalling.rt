// From the chosen address to a live line: IKE and EAP-5G.
ghost use Rattle.std.specs.Prelude.{[], ◌≡◌, length};
ghost use Rattle.rules.specs.Answer.{part_named, PartWithin};
ghost use Rattle.rules.specs.Call as Call;
ghost use Rattle.rules.specs.Call.{begin, congestion, eap, error, final, give_up, init, timed};
ghost use Rattle.rules.specs.Run.{run};
ghost use Rattle.frame.specs.Returned.{returned};

use calls::signalling::{congested, on_line};
use ike::event::IkeEvent;
use settling::answered;

// Begins IKE with the chosen address.
#[unsafe(no_mangle)]
pub extern "C" fn scal_begin(
    table: &mut [u8],
    tenant: u64,
    line: u64,
    time: u64,
    answer: &mut [u64; 12],
) -> u64
    ensures { returned result answer.new [] [] table.new ≡ run (timed tenant line time begin) table.old }
{
    answered(on_line(table, tenant, line, time, IkeEvent::Begin), answer)
}

// Takes the answer to IKE_SA_INIT.
#[unsafe(no_mangle)]
pub extern "C" fn scal_init(
    table: &mut [u8],
    tenant: u64,
    line: u64,
    time: u64,
    answer: &mut [u64; 12],
) -> u64
    ensures { returned result answer.new [] [] table.new ≡ run (timed tenant line time init) table.old }
{
    answered(
        on_line(table, tenant, line, time, IkeEvent::InitAnswer),
        answer,
    )
}

// Takes an EAP packet: Start, a NAS request or Success.
#[unsafe(no_mangle)]
pub extern "C" fn scal_eap(
    table: &mut [u8],
    tenant: u64,
    line: u64,
    time: u64,
    packet: &[u8],
    answer: &mut [u64; 12],
) -> u64
    ensures table_after { returned result answer.new (part_named answer.new [] [] packet.now) [] table.new ≡ run (timed tenant line time (eap packet.now)) table.old }
    ensures part_within { PartWithin answer.new [] [] packet.now }
{
    answered(
        calls::signalling::eap(table, tenant, line, time, packet),
        answer,
    )
}

// Writes the response that is owed, with AN-parameters and NAS.
#[unsafe(no_mangle)]
pub extern "C" fn scal_reply(
    table: &mut [u8],
    tenant: u64,
    line: u64,
    time: u64,
    parameters: &[u8],
    nas: &[u8],
    reply: &mut [u8],
    answer: &mut [u64; 12],
) -> u64
    ensures { returned result answer.new [] reply.new table.new ≡ run (timed tenant line time (Call.reply parameters.now nas.now (length reply.old))) table.old }
{
    answered(
        calls::signalling::reply(table, tenant, line, time, parameters, nas, reply),
        answer,
    )
}

// Takes the final IKE_AUTH answer.
#[unsafe(no_mangle)]
pub extern "C" fn scal_final(
    table: &mut [u8],
    tenant: u64,
    line: u64,
    time: u64,
    good: u64,
    answer: &mut [u64; 12],
) -> u64
    ensures { returned result answer.new [] [] table.new ≡ run (timed tenant line time (final good)) table.old }
{
    answered(
        on_line(table, tenant, line, time, IkeEvent::FinalAnswer(good)),
        answer,
    )
}

// Takes an error notify.
#[unsafe(no_mangle)]
pub extern "C" fn scal_error(
    table: &mut [u8],
    tenant: u64,
    line: u64,
    time: u64,
    number: u64,
    answer: &mut [u64; 12],
) -> u64
    ensures { returned result answer.new [] [] table.new ≡ run (timed tenant line time (error number)) table.old }
{
    answered(
        on_line(table, tenant, line, time, IkeEvent::Error(number)),
        answer,
    )
}

// Takes a congestion notify with its back-off timer.
#[unsafe(no_mangle)]
pub extern "C" fn scal_congestion(
    table: &mut [u8],
    tenant: u64,
    line: u64,
    time: u64,
    authenticated: u64,
    timer: u64,
    answer: &mut [u64; 12],
) -> u64
    ensures { returned result answer.new [] [] table.new ≡ run (timed tenant line time (congestion authenticated timer)) table.old }
{
    answered(
        congested(table, tenant, line, time, authenticated, timer),
        answer,
    )
}

// Gives an attempt up.
#[unsafe(no_mangle)]
pub extern "C" fn scal_give_up(
    table: &mut [u8],
    tenant: u64,
    line: u64,
    time: u64,
    answer: &mut [u64; 12],
) -> u64
    ensures { returned result answer.new [] [] table.new ≡ run (timed tenant line time give_up) table.old }
{
    answered(on_line(table, tenant, line, time, IkeEvent::GiveUp), answer)
}
