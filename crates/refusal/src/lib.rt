// Why a call is refused, and the number that says so to C.
#![tactic(auto)]

ghost use Rattle.std.specs.Prelude.{◌≡◌};
ghost use Rattle.refusal.specs.Numbers.{number_of};

// Why a call is refused.
#[derive(Clone, Copy, PartialEq, Eq)]
pub enum Refusal {
    // The table is not sound.
    Table,
    // The tenant is above 15 or the line above 3.
    Pair,
    // The answer buffer is too short.
    Buffer,
    // The pair to open is open already.
    Open,
    // The pair is not open.
    NotOpen,
    // All 32 records are taken.
    Full,
    // The time is earlier than the line's last accepted one.
    Early,
    // A number, a count or a length is out of its range.
    Range,
    // A configuration text, AN-parameters or a packet is not well formed, or is none that the call reads.
    Malformed,
    // The event is not allowed in the line's phase, or not with this SPI, identifier or authentication.
    Phase,
    // The SPI is on this line already.
    Spi,
    // Eight children stand.
    Children,
    // Eight holds are in force.
    Holds,
}

impl Refusal {
    // The number of a refusal.
    pub fn number(self) -> u64
        ensures { result ≡ number_of self }
    {
        match self {
            Refusal::Table => 1,
            Refusal::Pair => 2,
            Refusal::Buffer => 3,
            Refusal::Open => 4,
            Refusal::NotOpen => 5,
            Refusal::Full => 6,
            Refusal::Early => 7,
            Refusal::Range => 8,
            Refusal::Malformed => 9,
            Refusal::Phase => 10,
            Refusal::Spi => 11,
            Refusal::Children => 12,
            Refusal::Holds => 13,
        }
    }
}
