// The calls without a table: reading and writing packets, AN-parameters one by one, the timer octet.
#![tactic(auto)]

ghost use Rattle.std.specs.Prelude.{[], ◌≡◌, length};
ghost use Rattle.refusal.specs.Numbers.{number_in};
ghost use Rattle.packets.specs.Packets.{fields_in, read_parameter, read_request, read_response, read_timer, told, write_response};

use buffer::number::{MOST_OCTET, get};
use eap::{Packet, is_message, is_nas_request, is_success};
use parameter_reader::reader::read_from;
use parameters::MOST_PARAMETERS;
use refusal::Refusal;
use timer::Timer;

// The number of a call, 0 where it is accepted, and its six numbers, zeros where it is refused.
#[tactic(auto, unfolding(octets::specs::Part::zeros))]
pub fn returned(outcome: Result<[u64; 6], Refusal>, fields: &mut [u64; 6]) -> u64
    ensures value { result ≡ number_in outcome }
    ensures fields_after { fields.new ≡ fields_in outcome }
{
    match outcome {
        Ok(numbers) => {
            *fields = numbers;
            0
        }
        Err(refusal) => {
            *fields = [0; 6];
            refusal.number()
        }
    }
}

// Reads Start, a NAS request or Success; a response is refused by its header.
pub fn read_request(packet: &[u8]) -> Result<[u64; 6], Refusal>
    ensures { told result [] ≡ read_request packet.now }
{
    if is_message(packet, 1, 1) {
        return Ok([1, get(packet, 1, 1), 0, 0, 0, 0]);
    }
    if is_nas_request(packet) {
        return Ok([2, get(packet, 1, 1), 0, 0, 16, get(packet, 14, 2)]);
    }
    if is_success(packet) {
        return Ok([3, get(packet, 1, 1), 0, 0, 0, 0]);
    }
    Err(Refusal::Malformed)
}

// Reads a NAS response.
pub fn read_response(packet: &[u8]) -> Result<[u64; 6], Refusal>
    ensures { told result [] ≡ read_response packet.now }
{
    if !is_message(packet, 2, 2) {
        return Err(Refusal::Malformed);
    }
    let Some(
        Packet::NasResponse {
            identifier,
            parameters,
            parameters_length,
            nas,
            nas_length,
        },
    ) = eap::read_response(packet)
    else {
        return Err(Refusal::Malformed);
    };
    Ok([
        2,
        identifier,
        parameters as u64,
        parameters_length as u64,
        nas as u64,
        nas_length as u64,
    ])
}

// Writes a NAS response and zeros after it, or zeros alone where it is refused.
#[tactic(auto, unfolding(crate::specs::Packets::write_response, crate::specs::Packets::unless_refused, crate::specs::Packets::refused_by, eap::specs::Packet::packet_numbers, response::specs::Response::written_packet, response::specs::Response::written))]
pub fn write_response(
    identifier: u64,
    parameters: &[u8],
    nas: &[u8],
    packet: &mut [u8],
) -> Result<[u64; 6], Refusal>
    ensures { told result packet.new ≡ write_response identifier parameters.now nas.now (length packet.old) }
{
    response::write_response(identifier, parameters, nas, packet)?;
    let n = parameters.len() as u64;
    Ok([2, identifier, 16, n, 18 + n, nas.len() as u64])
}

// Reads the AN-parameter at a place.
#[tactic(auto, unfolding(crate::specs::Packets::read_parameter, crate::specs::Packets::parameter_refusal, crate::specs::Packets::parameter_numbers, crate::specs::Packets::is_broken, crate::specs::Packets::unless_refused, crate::specs::Packets::fields_only, crate::specs::Packets::refused_by, octets::specs::Refusal::refusal, octets::specs::Part::zeros))]
pub fn read_parameter(parameters: &[u8], at: u64) -> Result<[u64; 6], Refusal>
    ensures { told result [] ≡ read_parameter parameters.now at }
{
    let n = parameters.len();
    if MOST_PARAMETERS < n || (n as u64) < at {
        return Err(Refusal::Range);
    }
    match read_from(parameters, at as usize) {
        Ok(Some(found)) => Ok([
            1,
            found.kind,
            found.start as u64,
            found.length as u64,
            found.next as u64,
            0,
        ]),
        Ok(None) => Ok([0; 6]),
        Err(_) => Err(Refusal::Malformed),
    }
}

// Reads a timer octet.
#[tactic(auto, unfolding(crate::specs::Packets::read_timer, crate::specs::Packets::fields_only, crate::specs::Packets::refused_by, timer::specs::Timer::timer_numbers, octets::specs::Part::padded, octets::specs::Part::zeros))]
pub fn read_timer(octet: u64) -> Result<[u64; 6], Refusal>
    ensures { told result [] ≡ read_timer octet }
{
    if MOST_OCTET < octet {
        return Err(Refusal::Range);
    }
    match timer::read(octet as u8) {
        Timer::None => Ok([0; 6]),
        Timer::Seconds(n) => Ok([1, n, 0, 0, 0, 0]),
        Timer::Deactivated => Ok([2, 0, 0, 0, 0, 0]),
    }
}
