//! Why a command has no answer.

ghost use Rattle.std.specs.Prelude.{◌≡◌};
ghost use Rattle.chisel_lines.specs.Faults.{fault_status};

use crate::{Refusal, Status};
use std::alloc::AllocError;

/// Why a command has no answer.
#[derive(Clone, Copy, Debug)]
pub enum Fault<'w> {
    /// The words are in no form.
    Words,
    /// The fetch of the file of that name failed.
    Read(&'w str),
    /// The file of that name is longer than its limit, in bytes.
    Length(&'w str, u32),
    Refused(Refusal),
    Memory,
}

impl Fault<'_> {
    /// How the command ends.
    pub fn status(&self) -> Status
        ensures { result ≡ fault_status self.now }
    {
        match self {
            Fault::Words => Status::Words,
            Fault::Read(_) => Status::ReadFault,
            Fault::Length(..) => Status::Limit,
            Fault::Refused(refusal) => refusal.status(),
            Fault::Memory => Status::Memory,
        }
    }
}

impl From<AllocError> for Fault<'_> {
    ghost use Rattle.std.specs.Prelude.{◌≡◌};
    ghost use Rattle.chisel_lines.specs.declared.fault.Fault.TheVariants.{Memory};

    ghost from_gives = { λ _ e. e ≡ Memory };

    fn from(_e: AllocError) -> Self {
        Fault::Memory
    }
}
