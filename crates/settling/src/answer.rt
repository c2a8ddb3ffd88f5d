// The twelve numbers of an answer.
ghost use Rattle.std.specs.Prelude.{◌≡◌};
ghost use Rattle.rules.specs.Answer.{numbers_of};
ghost use Rattle.rules.specs.declared.Action.TheVariants.{Chose};

use address::Address;
use rules::Action;

// The twelve numbers of a chosen address, behind so many that were passed over.
fn chose(a: Address, passed: u64) -> [u64; 12]
    ensures { result ≡ numbers_of (Chose a passed) }
{
    match a {
        Address::V4(x) => [4, 0, passed, 0, 0, 0, 4, 0, x, 0, 0, 0],
        Address::V6(high, low) => [4, 0, passed, 0, 0, 0, 6, high, low, 0, 0, 0],
    }
}

// The twelve numbers of an action; its type is of a lower crate, so that this is no `From`.
pub fn numbers(action: Action) -> [u64; 12]
    ensures { result ≡ numbers_of action }
{
    match action {
        Action::Nothing => [0; 12],
        Action::Stopped(stop, k) => [1, stop.number(), k as u64, 0, 0, 0, 0, 0, 0, 0, 0, 0],
        Action::AskCountry(n) => [2, 0, 0, 2, 0, n as u64, 0, 0, 0, 0, 0, n as u64],
        Action::AskText(at, n) => [3, 0, 0, 1, at as u64, n as u64, 0, 0, 0, 0, 0, 0],
        Action::AskBuilt(n) => [3, 0, 0, 2, 0, n as u64, 0, 0, 0, 0, 0, n as u64],
        Action::Chose(a, k) => chose(a, k as u64),
        Action::SendInit => [5, 0, 0, 0, 0, 0, 0, 0, 0, 0, 0, 0],
        Action::SendAuthRequest => [6, 0, 0, 0, 0, 0, 0, 0, 0, 0, 0, 0],
        Action::AskNas => [7, 0, 0, 0, 0, 0, 0, 0, 0, 0, 0, 0],
        Action::HandUp(at, n) => [8, 0, 0, 3, at as u64, n as u64, 0, 0, 0, 0, 0, 0],
        Action::SendResponse(n) => [9, 0, 0, 0, 0, 0, 0, 0, 0, 0, 0, n as u64],
        Action::SendAuth => [10, 0, 0, 0, 0, 0, 0, 0, 0, 0, 0, 0],
        Action::Live => [11, 0, 0, 0, 0, 0, 0, 0, 0, 0, 0, 0],
        Action::Released(ended) => [12, 0, 0, 0, 0, 0, 0, 0, 0, u64::from(ended), 0, 0],
        Action::ErrorUp(ended, n) => [13, 0, 0, 0, 0, 0, 0, 0, 0, u64::from(ended), n, 0],
        Action::Listed(n) => [0, 0, 0, 0, 0, 0, 0, 0, 0, 0, 0, n as u64],
    }
}
