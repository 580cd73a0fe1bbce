ghost use Rattle.std.specs.Prelude.{◌≡◌};
ghost use Rattle.rely_inputs.specs.Samples.{fault, place};

use crate::{InputFault, InputWhy};

/// The sample and the parameter that a value is for, each numbered from 1, with 0 for none.
#[derive(Clone, Copy, Debug, PartialEq, Eq)]
pub struct Place {
    pub sample: u32,
    pub var: u32,
}

impl Place {
    pub fn new(sample: u32, var: u32) -> Place
        ensures { result ≡ place sample var }
    {
        Place { sample, var }
    }

    pub fn refused(self, why: InputWhy) -> InputFault
        ensures { result ≡ fault why self }
    {
        InputFault::At {
            why,
            sample: self.sample,
            var: self.var,
        }
    }
}
