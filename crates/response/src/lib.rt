// The writer of NAS responses.
#![tactic(auto)]

ghost use Rattle.std.specs.Prelude.{◌≡◌, ◌+◌, ◌≤◌, length};
ghost use Rattle.octets.specs.Part.{Wrote, padded, zeros};
ghost use Rattle.refusal.specs.Numbers.{number_in};
ghost use Rattle.response.specs.Laws.{Laws};
ghost use Rattle.response.specs.Response.{block, header, lent_out_of_range, response, write_refusal, written};

use buffer::number::{MOST_OCTET, put};
use buffer::slice::{copy, zero};
use eap::MOST_NAS;
use parameter_reader::well_formed;
use parameters::MOST_PARAMETERS;
use refusal::Refusal;

// The smallest buffer that a response is written to.
pub const REPLY_ROOM: usize = 3090;

// Whether AN-parameters have over 1,024 octets, or NAS none or over 2,048.
#[tactic(auto, unfolding(crate::specs::Response::lent_out_of_range))]
pub fn is_out_of_range(parameters: &[u8], nas: &[u8]) -> bool
    ensures { result ≡ lent_out_of_range parameters.now nas.now }
{
    MOST_PARAMETERS < parameters.len() || !(1..=MOST_NAS).contains(&nas.len())
}

// Whether what is lent with an identifier is written to a buffer of so many octets, or why it is refused.
#[tactic(auto, unfolding(crate::specs::Response::write_refusal, crate::specs::Response::out_of_range, octets::specs::Refusal::refusal))]
fn check_writable(
    identifier: u64,
    parameters: &[u8],
    nas: &[u8],
    room: usize,
) -> Result<(), Refusal>
    ensures { number_in result ≡ write_refusal identifier parameters.now nas.now room }
{
    if room < REPLY_ROOM {
        return Err(Refusal::Buffer);
    }
    if MOST_OCTET < identifier || is_out_of_range(parameters, nas) {
        return Err(Refusal::Range);
    }
    if !well_formed(parameters) {
        return Err(Refusal::Malformed);
    }
    Ok(())
}

// Stores the header of a NAS response.
fn put_header(packet: &mut [u8], identifier: u64, size: u64)
    requires { 14 ≤ length packet.old }
    ensures { Wrote packet.old 0 (header 2 identifier size 2) packet.new }
{
    put(packet, 0, 1, 2);
    put(packet, 1, 1, identifier);
    put(packet, 2, 2, size);
    put(packet, 4, 1, 254);
    put(packet, 5, 3, 10415);
    put(packet, 8, 4, 3);
    put(packet, 12, 1, 2);
    put(packet, 13, 1, 0);
}

// Stores octets behind their length.
fn put_block(packet: &mut [u8], at: usize, octets: &[u8])
    requires { at + 2 + length octets.now ≤ length packet.old }
    ensures { Wrote packet.old at (block octets.now) packet.new }
{
    put(packet, at, 2, octets.len() as u64);
    copy(octets, packet, at + 2);
}

// Writes a NAS response to a buffer of zeros; of an identifier its lowest octet.
pub fn fill_response(identifier: u64, parameters: &[u8], nas: &[u8], packet: &mut [u8]) -> usize
    requires { (18 + length parameters.now + length nas.now ≤ length packet.old) × (packet.old ≡ zeros (length packet.old)) }
    ensures buffer { packet.new ≡ padded (length packet.old) (response identifier parameters.now nas.now) }
    ensures count { result ≡ length (response identifier parameters.now nas.now) }
{
    let m = parameters.len();
    let n = nas.len();
    put_header(packet, identifier, (18 + m + n) as u64);
    put_block(packet, 14, parameters);
    put_block(packet, 16 + m, nas);
    18 + m + n
}

// Writes a NAS response and zeros after it, or zeros alone where it is refused.
#[tactic(auto, unfolding(crate::specs::Response::written))]
pub fn write_response(
    identifier: u64,
    parameters: &[u8],
    nas: &[u8],
    packet: &mut [u8],
) -> Result<(), Refusal>
    ensures refused { number_in result ≡ write_refusal identifier parameters.now nas.now (length packet.old) }
    ensures buffer { packet.new ≡ written identifier parameters.now nas.now (length packet.old) }
{
    zero(packet);
    check_writable(identifier, parameters, nas, packet.len())?;
    fill_response(identifier, parameters, nas, packet);
    Ok(())
}

// Does nothing; its promise is that writing and reading undo each other.
pub fn laws()
    ensures { Laws }
{}
