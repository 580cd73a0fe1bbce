use rely_num::Span;
use std::alloc::{AllocError, AllocFailed};
use thiserror::Error;

/// Why there is no predicate, with the place in the text: a limit of the walk, or want of memory.
#[derive(Clone, Copy, Debug, PartialEq, Eq, Error)]
pub enum PreFault {
    /// There would be 257 conjuncts, none of which covers another.
    #[error("more than 256 conjuncts")]
    Wide(Span),
    /// A count would reach 2^36.
    #[error("a count reaches 2^36")]
    Count(Span),
    /// The squares of the numbers of conjuncts would add up to more than 2^24.
    #[error("too much work")]
    Work(Span),
    #[error("out of memory")]
    Memory,
}

impl<T: Drop> From<AllocFailed<T>> for PreFault {
    ghost use Rattle.std.specs.Prelude.{◌≡◌};
    ghost use Rattle.rely_precond.specs.declared.fault.PreFault.TheVariants.{Memory};

    ghost from_gives = { λ _ e. e ≡ Memory };

    fn from(_e: AllocFailed<T>) -> PreFault {
        PreFault::Memory
    }
}

impl From<AllocError> for PreFault {
    ghost use Rattle.std.specs.Prelude.{◌≡◌};
    ghost use Rattle.rely_precond.specs.declared.fault.PreFault.TheVariants.{Memory};

    ghost from_gives = { λ _ e. e ≡ Memory };

    fn from(_e: AllocError) -> PreFault {
        PreFault::Memory
    }
}
