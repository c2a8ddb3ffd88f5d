// What a call tells C: its number, and the twelve numbers of its answer.
#![tactic(auto, unfolding(octets::specs::Part::zeros, rules::specs::Answer::numbers_of, rules::specs::Answer::twelve))]

pub mod answer;

ghost use Rattle.std.specs.Prelude.{◌≡◌};
ghost use Rattle.refusal.specs.Numbers.{number_in};
ghost use Rattle.frame.specs.Returned.{numbers_in};

use crate::answer::numbers;
use refusal::Refusal;
use rules::Action;

// The number of a call without an answer, 0 where it is accepted.
pub fn number(outcome: Result<(), Refusal>) -> u64
    ensures { result ≡ number_in outcome }
{
    match outcome {
        Ok(()) => 0,
        Err(refusal) => refusal.number(),
    }
}

// The number of a call, 0 where it is accepted, and its twelve numbers, zeros where it is refused.
pub fn answered(outcome: Result<Action, Refusal>, answer: &mut [u64; 12]) -> u64
    ensures value { result ≡ number_in outcome }
    ensures answer_after { answer.new ≡ numbers_in outcome }
{
    match outcome {
        Ok(action) => {
            *answer = numbers(action);
            0
        }
        Err(refusal) => {
            *answer = [0; 12];
            refusal.number()
        }
    }
}
