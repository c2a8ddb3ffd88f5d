// The reader of EAP-5G packets.
#![tactic(auto)]

ghost use Rattle.std.specs.Prelude.{◌≡◌, ◌+◌, ◌≤◌, if◌then◌else◌, length, IfSome, IsTrue};
ghost use Rattle.octets.specs.Digits.{field};
ghost use Rattle.eap.specs.Packet.{fits, is_expanded, is_message, is_nas, is_nas_request, is_parameters, is_success, read_packet};
ghost use Rattle.eap.specs.Branch.{response_of};

use buffer::number::get;
use buffer::slice::{part, word};
use parameter_reader::well_formed;
use parameters::MOST_PARAMETERS;

// The most octets that NAS has.
pub const MOST_NAS: usize = 2048;

// Type, vendor and vendor type of every packet but Success as one number: 254, 10415 and 3 in eight octets, the first of them lowest.
const EXPANDED: u64 = 0x0300_0000_AF28_00FE;

// A packet: its identifier, and where its AN-parameters and its NAS stand and how long they are.
#[derive(Clone, Copy)]
pub enum Packet {
    Start {
        identifier: u64,
    },
    NasRequest {
        identifier: u64,
        nas: usize,
        nas_length: usize,
    },
    Success {
        identifier: u64,
    },
    NasResponse {
        identifier: u64,
        parameters: usize,
        parameters_length: usize,
        nas: usize,
        nas_length: usize,
    },
    Stop {
        identifier: u64,
    },
}

// The length that stands at a place, where it and its octets lie within the packet.
#[tactic(auto, unfolding(crate::specs::Packet::fits))]
fn block_at(packet: &[u8], at: usize) -> Option<usize>
    ensures value { result ≡ (if fits packet.now at then Some (field packet.now at 2) else None) }
    ensures within { IfSome result (λ n. at + 2 + n ≤ length packet.now) }
{
    let room = packet.len().checked_sub(at)?.checked_sub(2)?;
    let length = get(packet, at, 2) as usize;
    (length <= room).then_some(length)
}

// The length of the NAS behind a place, where it has 1 to 2,048 octets.
#[tactic(auto, unfolding(crate::specs::Packet::is_nas))]
fn nas_at(packet: &[u8], at: usize) -> Option<usize>
    ensures value { result ≡ (if is_nas packet.now at then Some (field packet.now at 2) else None) }
    ensures within { IfSome result (λ n. at + 2 + n ≤ length packet.now) }
{
    let length = block_at(packet, at)?;
    (1..=MOST_NAS).contains(&length).then_some(length)
}

// The length of the AN-parameters behind a place, where they have at most 1,024 octets and end exactly.
#[tactic(auto, unfolding(crate::specs::Packet::is_parameters, crate::specs::Packet::fits))]
fn parameters_at(packet: &[u8], at: usize) -> Option<usize>
    ensures value { result ≡ (if is_parameters packet.now at then Some (field packet.now at 2) else None) }
    ensures within { IfSome result (λ n. at + 2 + n ≤ length packet.now) }
{
    let length = block_at(packet, at)?;
    (length <= MOST_PARAMETERS && well_formed(part(packet, at + 2, length))).then_some(length)
}

// Whether a packet begins as every EAP-5G packet does, and has the length that it says.
#[tactic(auto, unfolding(crate::specs::Packet::is_expanded, crate::specs::Packet::length_field))]
fn is_expanded(packet: &[u8]) -> bool
    ensures value { result ≡ is_expanded packet.now }
    ensures enough { IsTrue result → 14 ≤ length packet.now }
{
    let n = packet.len();
    14 <= n && get(packet, 2, 2) == n as u64 && word(packet, 4) == EXPANDED
}

// Whether a packet is an EAP-5G packet of a code with a message.
#[tactic(auto, unfolding(crate::specs::Packet::is_message, crate::specs::Packet::code, crate::specs::Packet::message))]
pub fn is_message(packet: &[u8], code: u64, message: u64) -> bool
    ensures { result ≡ is_message code message packet.now }
{
    is_expanded(packet) && get(packet, 0, 1) == code && get(packet, 12, 1) == message
}

// Whether a packet is a request with a NAS message, and whole NAS follows.
#[tactic(auto, unfolding(crate::specs::Packet::is_nas_request))]
pub fn is_nas_request(packet: &[u8]) -> bool
    ensures { result ≡ is_nas_request packet.now }
{
    is_message(packet, 1, 2) && nas_at(packet, 14).is_some()
}

// Whether a packet is Success.
#[tactic(auto, unfolding(crate::specs::Packet::is_success, crate::specs::Packet::code, crate::specs::Packet::length_field))]
pub fn is_success(packet: &[u8]) -> bool
    ensures { result ≡ is_success packet.now }
{
    packet.len() == 4 && get(packet, 0, 1) == 3 && get(packet, 2, 2) == 4
}

// A response with a NAS message is that where what follows is whole.
#[tactic(auto, unfolding(crate::specs::Branch::response_of, crate::specs::Packet::nas_place, crate::specs::Packet::identifier))]
pub fn read_response(packet: &[u8]) -> Option<Packet>
    ensures { result ≡ response_of packet.now }
{
    let parameters_length = parameters_at(packet, 14)?;
    let at = 16 + parameters_length;
    let nas_length = nas_at(packet, at)?;
    Some(Packet::NasResponse {
        identifier: get(packet, 1, 1),
        parameters: 16,
        parameters_length,
        nas: at + 2,
        nas_length,
    })
}

// Reads any octets.
#[tactic(auto, unfolding(crate::specs::Packet::read_packet, crate::specs::Packet::is_success, crate::specs::Packet::is_message, crate::specs::Packet::is_nas_request, crate::specs::Packet::is_nas_response, crate::specs::Packet::identifier, crate::specs::Packet::code, crate::specs::Packet::message, crate::specs::Branch::response_of))]
pub fn read(packet: &[u8]) -> Option<Packet>
    ensures { result ≡ read_packet packet.now }
{
    if is_success(packet) {
        return Some(Packet::Success {
            identifier: get(packet, 1, 1),
        });
    }
    if !is_expanded(packet) {
        return None;
    }
    let identifier = get(packet, 1, 1);
    match (get(packet, 0, 1), get(packet, 12, 1)) {
        (1, 1) => Some(Packet::Start { identifier }),
        (1, 2) => {
            let nas_length = nas_at(packet, 14)?;
            Some(Packet::NasRequest {
                identifier,
                nas: 16,
                nas_length,
            })
        }
        (2, 2) => read_response(packet),
        (2, 4) => Some(Packet::Stop { identifier }),
        _ => None,
    }
}
