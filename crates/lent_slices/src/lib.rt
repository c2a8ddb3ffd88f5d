// Steps on a line's record that is lent, of the events that come with slices.
#![tactic(auto, using(lent::proofs::Leaving::left_by, lent::proofs::Leaving::left_named))]

ghost use Rattle.std.specs.Prelude.{[], ◌≡◌, ◌≤◌, length};
ghost use Rattle.network.specs.Name.{name_room};
ghost use Rattle.record.specs.Line.{line_of};
ghost use Rattle.response.specs.Response.{reply_room};
ghost use Rattle.rules.specs.Answer.{numbers_of, part_named, PartWithin};
ghost use Rattle.rules.specs.Call.{address, country, eap, reply, start};
ghost use Rattle.step.specs.Step.{effect};
ghost use Rattle.lent.specs.Left.{action_told, effect_left};

use lent::{keep, on_record};
use record::Record;
use refusal::Refusal;
use rules::{Action, StartNumbers};
use session::eap_packet;
use whole::{address_answer, country_answer};

// A closure that writes to a buffer would promise nothing of it, so the steps with a buffer are called here.

// Start on a lent record.
pub fn on_start(
    line: &mut Record,
    time: u64,
    given: StartNumbers,
    text: &[u8],
    name: &mut [u8],
) -> Result<Action, Refusal>
    requires { name_room ≤ length name.old }
    ensures name_after { effect_left result line.new (part_named (numbers_of (action_told result)) text.now name.new []) name.new ≡ effect (start given text.now (length name.old)) time (line_of line.old) }
    ensures part_within { PartWithin (numbers_of (action_told result)) text.now name.new [] }
{
    let stepped = whole::start(*line, time, given, text, name);
    keep(line, stepped)
}

// The country answer on a lent record.
pub fn on_country(
    line: &mut Record,
    time: u64,
    replied: u64,
    networks: &[u8],
    text: &[u8],
    name: &mut [u8],
) -> Result<Action, Refusal>
    requires { name_room ≤ length name.old }
    ensures name_after { effect_left result line.new (part_named (numbers_of (action_told result)) text.now name.new []) name.new ≡ effect (country replied networks.now text.now (length name.old)) time (line_of line.old) }
    ensures part_within { PartWithin (numbers_of (action_told result)) text.now name.new [] }
{
    let stepped = country_answer(*line, time, replied, networks, text, name);
    keep(line, stepped)
}

// The address answer on a lent record.
pub fn on_address(line: &mut Record, time: u64, addresses: &[u8]) -> Result<Action, Refusal>
    ensures { effect_left result line.new [] [] ≡ effect (address addresses.now) time (line_of line.old) }
{
    on_record(line, |record| address_answer(record, time, addresses))
}

// An EAP packet on a lent record.
pub fn on_eap(line: &mut Record, time: u64, packet: &[u8]) -> Result<Action, Refusal>
    ensures packet_after { effect_left result line.new (part_named (numbers_of (action_told result)) [] [] packet.now) [] ≡ effect (eap packet.now) time (line_of line.old) }
    ensures part_within { PartWithin (numbers_of (action_told result)) [] [] packet.now }
{
    on_record(line, |record| eap_packet(record, time, packet))
}

// A reply on a lent record.
pub fn on_reply(
    line: &mut Record,
    time: u64,
    parameters: &[u8],
    nas: &[u8],
    buffer: &mut [u8],
) -> Result<Action, Refusal>
    requires { reply_room ≤ length buffer.old }
    ensures { effect_left result line.new [] buffer.new ≡ effect (reply parameters.now nas.now (length buffer.old)) time (line_of line.old) }
{
    let stepped = session::reply(*line, time, parameters, nas, buffer);
    keep(line, stepped)
}
