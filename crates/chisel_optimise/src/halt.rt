ghost use Rattle.std.specs.Prelude.{◌≡◌, Some};
ghost use Rattle.chisel_optimise.specs.Halts.{halt_by};

use chisel_lines::{Answer, Refusal};
use std::alloc::{AllocError, AllocFailed};

/// Why a command ends before its work is done.
#[derive(Debug, Drop)]
pub(crate) enum Halt {
    /// With that answer.
    Answer(Answer),
    Memory,
}

impl Halt {
    /// With the line of a refusal.
    pub(crate) fn refused(refusal: Refusal) -> Halt
        ensures { result ≡ halt_by (Some refusal) }
    {
        Halt::Answer(Answer::Refused(refusal))
    }
}

impl From<AllocError> for Halt {
    ghost use Rattle.std.specs.Prelude.{◌≡◌};
    ghost use Rattle.chisel_optimise.specs.declared.halt.Halt.TheVariants.{Memory};

    ghost from_gives = { λ _ e. e ≡ Memory };

    fn from(_e: AllocError) -> Halt {
        Halt::Memory
    }
}

impl<T: Drop> From<AllocFailed<T>> for Halt {
    ghost use Rattle.std.specs.Prelude.{◌≡◌};
    ghost use Rattle.chisel_optimise.specs.declared.halt.Halt.TheVariants.{Memory};

    ghost from_gives = { λ _ e. e ≡ Memory };

    fn from(_e: AllocFailed<T>) -> Halt {
        Halt::Memory
    }
}
