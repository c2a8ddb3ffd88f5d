// The EAP-5G session of a line: what comes from the network, and the replies.
#![tactic(auto)]

ghost use Rattle.std.specs.Prelude.{[], ◌≡◌, ◌≤◌, length};
ghost use Rattle.eap.specs.declared.Packet.TheVariants.{Start, NasRequest, Success};
ghost use Rattle.record.specs.Line.{line_of};
ghost use Rattle.response.specs.Response.{reply_room};
ghost use Rattle.rules.specs.Answer.{numbers_of, part_named, PartWithin};
ghost use Rattle.rules.specs.Call.{eap, reply};
ghost use Rattle.rules.specs.Refusals.{lacks_parameters};
ghost use Rattle.step.specs.Step.{action_in, effect, effect_in};
ghost use Rattle.session.specs.Session.{Takes};

use buffer::slice::zero;
use eap::Packet;
use parameter_reader::well_formed;
use phase::{Phase, Turn};
use record::Record;
use refusal::Refusal;
use response::{fill_response, is_out_of_range};
use rules::Action;
use step::{Done, Stepped, found_at};

// EAP Start: the identifier is owed, and NAS is asked for.
fn eap_start(found: Record, identifier: u64) -> Stepped
    ensures { Takes result (line_of found) (Start identifier) }
{
    let Phase::Auth(a) = found.phase else {
        return Err(Refusal::Phase);
    };
    Ok(Done {
        line: found.in_phase(Phase::Eap(a, Turn::First(identifier))),
        action: Action::AskNas,
    })
}

// EAP NAS: the identifier is owed, and NAS is handed up as a part of the packet.
fn eap_nas(found: Record, identifier: u64, at: usize, n: usize) -> Stepped
    ensures { Takes result (line_of found) (NasRequest identifier at n) }
{
    let Phase::Eap(a, Turn::Answered(_)) = found.phase else {
        return Err(Refusal::Phase);
    };
    Ok(Done {
        line: found.in_phase(Phase::Eap(a, Turn::Owed(identifier))),
        action: Action::HandUp(at, n),
    })
}

// EAP Success with the identifier of the last reply: AUTH is sent.
fn eap_success(found: Record, identifier: u64) -> Stepped
    ensures { Takes result (line_of found) (Success identifier) }
{
    let Phase::Eap(a, Turn::Answered(last)) = found.phase else {
        return Err(Refusal::Phase);
    };
    if identifier != last {
        return Err(Refusal::Phase);
    }
    Ok(Done {
        line: found.in_phase(Phase::Sure(a)),
        action: Action::SendAuth,
    })
}

// A packet: Start, NAS requests and Success are taken apart, and every other one is turned away.
pub fn eap_packet(line: Record, time: u64, packet: &[u8]) -> Stepped
    ensures effect_is { effect_in (line_of line) result (part_named (numbers_of (action_in result)) [] [] packet.now) [] ≡ effect (eap packet.now) time (line_of line) }
    ensures part_within { PartWithin (numbers_of (action_in result)) [] [] packet.now }
{
    let found = found_at(line, time)?;
    let Some(read) = eap::read(packet) else {
        return Err(Refusal::Malformed);
    };
    if let Packet::Start { identifier } = read {
        return eap_start(found, identifier);
    }
    if let Packet::NasRequest {
        identifier,
        nas,
        nas_length,
    } = read
    {
        return eap_nas(found, identifier, nas, nas_length);
    }
    let Packet::Success { identifier } = read else {
        return Err(Refusal::Malformed);
    };
    eap_success(found, identifier)
}

// Whether the first reply of a session is still to come, and it lacks AN-parameters.
fn lacks_parameters(parameters: &[u8], phase: Phase) -> bool
    ensures { result ≡ lacks_parameters parameters.now phase }
{
    match phase {
        Phase::Eap(_, Turn::First(_)) => parameters.is_empty(),
        _ => false,
    }
}

// Reply: the response carries the identifier that was owed.
pub fn reply(line: Record, time: u64, parameters: &[u8], nas: &[u8], buffer: &mut [u8]) -> Stepped
    requires { reply_room ≤ length buffer.old }
    ensures { effect_in (line_of line) result [] buffer.new ≡ effect (reply parameters.now nas.now (length buffer.old)) time (line_of line) }
{
    zero(buffer);
    let found = found_at(line, time)?;
    if is_out_of_range(parameters, nas) || lacks_parameters(parameters, found.phase) {
        return Err(Refusal::Range);
    }
    if !well_formed(parameters) {
        return Err(Refusal::Malformed);
    }
    let Phase::Eap(a, turn) = found.phase else {
        return Err(Refusal::Phase);
    };
    let (Turn::First(identifier) | Turn::Owed(identifier)) = turn else {
        return Err(Refusal::Phase);
    };
    let n = fill_response(identifier, parameters, nas, buffer);
    Ok(Done {
        line: found.in_phase(Phase::Eap(a, Turn::Answered(identifier))),
        action: Action::SendResponse(n),
    })
}
