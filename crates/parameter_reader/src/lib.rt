// AN-parameters read one after another: at a place, a whole block, and by a reader that keeps hold of a block and its place.
#![tactic(auto)]

pub mod reader;

ghost use Rattle.std.specs.Prelude.{◌≡◌};
ghost use Rattle.parameters.specs.Parameters.{parameter_at, well_formed};

use parameters::{Broken, Parameter};

// The AN-parameter at a place, none at the end of the block.
pub fn parameter_at(parameters: &[u8], at: usize) -> Result<Option<Parameter>, Broken>
    ensures { result ≡ parameter_at parameters.now at }
{
    if parameters.len() < at {
        return Err(Broken);
    }
    match &parameters[at..] {
        [] => Ok(None),
        [kind, length, value @ ..] => {
            let length = *length as usize;
            if value.len() < length {
                return Err(Broken);
            }
            let start = at + 2;
            Ok(Some(Parameter {
                kind: *kind as u64,
                start,
                length,
                next: start + length,
            }))
        }
        _ => Err(Broken),
    }
}

// Whether a block of AN-parameters ends exactly with one of them.
pub fn well_formed(parameters: &[u8]) -> bool
    ensures { result ≡ well_formed parameters.now }
{
    let mut at = 0;
    loop {
        match parameter_at(parameters, at) {
            Ok(Some(parameter)) => at = parameter.next,
            Ok(None) => return true,
            Err(_) => return false,
        }
    }
}
