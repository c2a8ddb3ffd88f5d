// From start to the chosen address.
ghost use Rattle.std.specs.Prelude.{[], ◌≡◌, length};
ghost use Rattle.rules.specs.Answer.{part_named, PartWithin};
ghost use Rattle.rules.specs.Call.{address, country, start, start_numbers, timed};
ghost use Rattle.rules.specs.Run.{run};
ghost use Rattle.frame.specs.Returned.{returned};

use rules::StartNumbers;
use settling::answered;

// Starts an attempt: selection goes on until it asks a name, chooses an address or stops.
#[unsafe(no_mangle)]
pub extern "C" fn scal_start(
    table: &mut [u8],
    tenant: u64,
    line: u64,
    time: u64,
    place: u64,
    mcc: u64,
    registered: u64,
    registered_mcc: u64,
    registered_mnc: u64,
    version: u64,
    text: &[u8],
    name: &mut [u8],
    answer: &mut [u64; 12],
) -> u64
    ensures table_after { returned result answer.new (part_named answer.new text.now name.new []) name.new table.new ≡ run (timed tenant line time (start (start_numbers place mcc registered registered_mcc registered_mnc version) text.now (length name.old))) table.old }
    ensures part_within { PartWithin answer.new text.now name.new [] }
{
    let given = StartNumbers {
        place,
        mcc,
        registered,
        registered_mcc,
        registered_mnc,
        version,
    };
    answered(
        setup::start(table, tenant, line, time, given, text, name),
        answer,
    )
}

// Takes the answer to the country query.
#[unsafe(no_mangle)]
pub extern "C" fn scal_country(
    table: &mut [u8],
    tenant: u64,
    line: u64,
    time: u64,
    replied: u64,
    networks: &[u8],
    text: &[u8],
    name: &mut [u8],
    answer: &mut [u64; 12],
) -> u64
    ensures table_after { returned result answer.new (part_named answer.new text.now name.new []) name.new table.new ≡ run (timed tenant line time (country replied networks.now text.now (length name.old))) table.old }
    ensures part_within { PartWithin answer.new text.now name.new [] }
{
    answered(
        setup::country(table, tenant, line, time, replied, networks, text, name),
        answer,
    )
}

// Takes the answer to the gateway's name: the addresses.
#[unsafe(no_mangle)]
pub extern "C" fn scal_address(
    table: &mut [u8],
    tenant: u64,
    line: u64,
    time: u64,
    addresses: &[u8],
    answer: &mut [u64; 12],
) -> u64
    ensures { returned result answer.new [] [] table.new ≡ run (timed tenant line time (address addresses.now)) table.old }
{
    answered(setup::address(table, tenant, line, time, addresses), answer)
}
