ghost use Rattle.std.specs.Prelude.{◌≡◌};
ghost use Rattle.rely_hard.specs.Meaning.{fault, place};

use crate::{HardFault, HardWhy, Key};

/// Where in the file a value stands, by its key and the numbers that a refusal gives.
#[derive(Clone, Copy, Debug, PartialEq, Eq)]
pub struct Place {
    pub key: Key,
    pub outer: u32,
    pub inner: u32,
}

impl Place {
    pub fn new(key: Key, outer: u32, inner: u32) -> Place
        ensures { result ≡ place key outer inner }
    {
        Place { key, outer, inner }
    }

    pub fn refused(self, why: HardWhy) -> HardFault
        ensures { result ≡ fault why self }
    {
        HardFault::At {
            why,
            key: self.key,
            outer: self.outer,
            inner: self.inner,
        }
    }
}
