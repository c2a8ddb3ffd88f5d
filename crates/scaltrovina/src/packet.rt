// The calls without a table.
ghost use Rattle.std.specs.Prelude.{[], ◌≡◌, length};
ghost use Rattle.packets.specs.Packets.{packet_returned, read_parameter, read_request, read_response, read_timer, write_response};

use packets::{read_parameter, read_request, read_response, read_timer, returned, write_response};

// Reads Start, a NAS request or Success.
#[unsafe(no_mangle)]
pub extern "C" fn scal_read_request(packet: &[u8], fields: &mut [u64; 6]) -> u64
    ensures { packet_returned result fields.new [] ≡ read_request packet.now }
{
    returned(read_request(packet), fields)
}

// Reads a NAS response.
#[unsafe(no_mangle)]
pub extern "C" fn scal_read_response(packet: &[u8], fields: &mut [u64; 6]) -> u64
    ensures { packet_returned result fields.new [] ≡ read_response packet.now }
{
    returned(read_response(packet), fields)
}

// Writes a NAS response.
#[unsafe(no_mangle)]
pub extern "C" fn scal_write_response(
    identifier: u64,
    parameters: &[u8],
    nas: &[u8],
    packet: &mut [u8],
    fields: &mut [u64; 6],
) -> u64
    ensures { packet_returned result fields.new packet.new ≡ write_response identifier parameters.now nas.now (length packet.old) }
{
    returned(write_response(identifier, parameters, nas, packet), fields)
}

// Reads the AN-parameter at a place of a block.
#[unsafe(no_mangle)]
pub extern "C" fn scal_parameter(parameters: &[u8], at: u64, fields: &mut [u64; 6]) -> u64
    ensures { packet_returned result fields.new [] ≡ read_parameter parameters.now at }
{
    returned(read_parameter(parameters, at), fields)
}

// Reads a back-off timer octet.
#[unsafe(no_mangle)]
pub extern "C" fn scal_timer(octet: u64, fields: &mut [u64; 6]) -> u64
    ensures { packet_returned result fields.new [] ≡ read_timer octet }
{
    returned(read_timer(octet), fields)
}
