use std::alloc::{AllocError, AllocFailed};
use thiserror::Error;

/// Why a kernel has no table.
#[derive(Clone, Copy, Debug, PartialEq, Eq, Error)]
pub enum ProblemFault {
    /// No kind and no memory is open.
    #[error("nothing is left to choose")]
    NoOpen,
    /// More kinds and memories are open than a table has decisions.
    #[error("more than 256 decisions")]
    Decisions,
    /// An open place has more kinds or memories than a decision has options.
    #[error("more than 16 options")]
    Options,
    #[error("out of memory")]
    Memory,
}

impl<T: Drop> From<AllocFailed<T>> for ProblemFault {
    ghost use Rattle.std.specs.Prelude.{◌≡◌};
    ghost use Rattle.chisel_problem.specs.declared.fault.ProblemFault.TheVariants.{Memory};

    ghost from_gives = { λ _ e. e ≡ Memory };

    fn from(_e: AllocFailed<T>) -> ProblemFault {
        ProblemFault::Memory
    }
}

impl From<AllocError> for ProblemFault {
    ghost use Rattle.std.specs.Prelude.{◌≡◌};
    ghost use Rattle.chisel_problem.specs.declared.fault.ProblemFault.TheVariants.{Memory};

    ghost from_gives = { λ _ e. e ≡ Memory };

    fn from(_e: AllocError) -> ProblemFault {
        ProblemFault::Memory
    }
}
