// A reader of AN-parameters, which keeps hold of the block and the place that it reached.
ghost use Rattle.std.specs.Prelude.{◌≡◌};
ghost use Rattle.parameters.specs.Parameters.{parameter_at};
ghost use Rattle.parameters.specs.Reading.{place_after};

use crate::parameter_at;
use parameters::{Broken, Parameter};

// A block of AN-parameters and a place in it.
#[derive(Clone, Copy)]
pub struct Reader<'a> {
    pub block: &'a [u8],
    pub at: usize,
}

// The place behind the AN-parameter at a place, or the same place where no whole one stands there.
#[tactic(auto, unfolding(parameters::specs::Reading::behind, parameters::specs::Reading::place_after))]
fn place_after(block: &[u8], at: usize) -> usize
    ensures { result ≡ place_after block.now at }
{
    match parameter_at(block, at) {
        Ok(Some(parameter)) => parameter.next,
        Ok(None) | Err(_) => at,
    }
}

impl<'a> Reader<'a> {
    // A reader at a place of a block; its start is place 0.
    pub fn new(block: &'a [u8], at: usize) -> Self
        ensures { (result.block ≡ block.entry) × (result.at ≡ at) }
    {
        Reader { block, at }
    }

    // What stands at the place that a reader reached.
    pub fn next(self) -> Result<Option<Parameter>, Broken>
        ensures { result ≡ parameter_at self.entry.block.now self.entry.at }
    {
        parameter_at(self.block, self.at)
    }

    // The reader behind what stands at its place.
    pub fn onward(self) -> Self
        ensures { (result.block ≡ self.entry.block) × (result.at ≡ place_after self.entry.block.now self.entry.at) }
    {
        Reader {
            at: place_after(self.block, self.at),
            ..self
        }
    }

    // The place that a reader reached.
    pub fn place(self) -> usize
        ensures { result ≡ self.entry.at }
    {
        self.at
    }
}

// The AN-parameter at a place of a block, by a reader.
pub fn read_from(block: &[u8], at: usize) -> Result<Option<Parameter>, Broken>
    ensures { result ≡ parameter_at block.now at }
{
    Reader::new(block, at).next()
}
