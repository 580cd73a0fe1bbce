use std::alloc::{AllocError, AllocFailed};
use thiserror::Error;

/// Why tokens are no unit within the limits.
#[derive(Clone, Copy, Debug, PartialEq, Eq, Error)]
pub enum ParseFault {
    /// The place of a token that can't stand there; the text's length where a token is missing.
    #[error("another token is expected at {0}")]
    Expected(u32),
    /// The place of the 65th open bracket.
    #[error("the bracket at {0} is nested too deep")]
    Deep(u32),
    /// The place of the first function, variable, claim, operator or call too many.
    #[error("the one at {0} is one too many")]
    Many(u32),
    #[error("out of memory")]
    Memory,
}

impl From<AllocError> for ParseFault {
    ghost use Rattle.std.specs.Prelude.{◌≡◌};
    ghost use Rattle.rely_parser.specs.declared.fault.ParseFault.TheVariants.{Memory};

    ghost from_gives = { λ _ e. e ≡ Memory };

    fn from(_error: AllocError) -> ParseFault {
        ParseFault::Memory
    }
}

impl<T: Drop> From<AllocFailed<T>> for ParseFault {
    ghost use Rattle.std.specs.Prelude.{◌≡◌};
    ghost use Rattle.rely_parser.specs.declared.fault.ParseFault.TheVariants.{Memory};

    ghost from_gives = { λ _ e. e ≡ Memory };

    fn from(_failed: AllocFailed<T>) -> ParseFault {
        ParseFault::Memory
    }
}
