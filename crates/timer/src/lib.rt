// The back-off timer octet: the top three bits give the unit, the low five the count.
#![tactic(auto)]

ghost use Rattle.std.specs.Prelude.{◌≡◌, ◌<◌};
ghost use Rattle.timer.specs.Timer.{unit_seconds, timer_of};

// The seconds of units 0 to 6, indexed by the octet's top three bits.
const UNITS: [u64; 7] = [600, 3600, 36000, 2, 30, 60, 1152000];

// What a timer octet says; each of the three has a number of its own for C, so that no hold is a case too.
#[derive(Clone, Copy)]
pub enum Timer {
    // No hold is set.
    None,
    // A hold of so many seconds.
    Seconds(u64),
    // The timer is deactivated.
    Deactivated,
}

// The seconds of one unit, read from the table.
fn unit_seconds(unit: usize) -> u64
    requires { unit < 7 }
    ensures { result ≡ unit_seconds unit }
{
    UNITS[unit]
}

// Reads any octet: unit 7 is deactivated at every count.
#[tactic(auto, using(crate::proofs::Lengths::product), unfolding(crate::specs::Timer::timer_of))]
pub fn read(octet: u8) -> Timer
    ensures { result ≡ timer_of octet }
{
    match (octet / 32, octet % 32) {
        (7, _) => Timer::Deactivated,
        (_, 0) => Timer::None,
        (unit, count) => Timer::Seconds(count as u64 * unit_seconds(unit as usize)),
    }
}
