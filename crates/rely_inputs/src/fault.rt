use std::alloc::{AllocError, AllocFailed};
use thiserror::Error;

/// Why a file of sample inputs is refused.
#[derive(Clone, Copy, Debug, PartialEq, Eq)]
pub enum InputWhy {
    /// The text is no JSON.
    Json,
    /// The file has no list of samples, or a sample isn't an object.
    Shape,
    /// There is no sample, or there are more than 64.
    Count,
    /// A sample has no member for a parameter.
    Missing,
    /// The value of an array isn't a list of its length.
    Length,
    /// A value isn't a whole number of 64 bits, with its sign.
    Number,
    /// A sample has a member for no parameter.
    Extra,
}

/// Why no samples were read.
#[derive(Clone, Copy, Debug, PartialEq, Eq, Error)]
pub enum InputFault {
    /// The file is refused. The sample and the parameter are numbered from 1, and 0 stands for none.
    #[error("{why:?} at sample {sample}, parameter {var}")]
    At {
        why: InputWhy,
        sample: u32,
        var: u32,
    },
    #[error("out of memory")]
    Memory,
}

impl<T: Drop> From<AllocFailed<T>> for InputFault {
    ghost use Rattle.std.specs.Prelude.{◌≡◌};
    ghost use Rattle.rely_inputs.specs.declared.fault.InputFault.TheVariants.{Memory};

    ghost from_gives = { λ _ e. e ≡ Memory };

    fn from(_e: AllocFailed<T>) -> InputFault {
        InputFault::Memory
    }
}

impl From<AllocError> for InputFault {
    ghost use Rattle.std.specs.Prelude.{◌≡◌};
    ghost use Rattle.rely_inputs.specs.declared.fault.InputFault.TheVariants.{Memory};

    ghost from_gives = { λ _ e. e ≡ Memory };

    fn from(_e: AllocError) -> InputFault {
        InputFault::Memory
    }
}
