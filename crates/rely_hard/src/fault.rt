use std::alloc::{AllocError, AllocFailed};
use thiserror::Error;

/// Why a hardware file is refused.
#[derive(Clone, Copy, Debug, PartialEq, Eq)]
pub enum HardWhy {
    /// The text is no JSON.
    Json,
    /// A key is absent.
    Missing,
    /// A value isn't of its sort.
    Kind,
    /// A value is out of its range.
    Range,
    /// An operator or a name stands twice in its list.
    Repeated,
    /// A list has no member that is always right.
    NoExact,
    /// A list has more than 32 members.
    Many,
}

/// The key at which a hardware file is refused.
#[derive(Clone, Copy, Debug, PartialEq, Eq)]
pub enum Key {
    Root,
    Base,
    Operators,
    Op,
    Kinds,
    Memories,
    Name,
    Right,
    Energy,
    Read,
    Write,
    ReadEnergy,
    WriteEnergy,
    Hold,
}

/// Why no hardware was read.
#[derive(Clone, Copy, Debug, PartialEq, Eq, Error)]
pub enum HardFault {
    /// The file is refused. `outer` is the number of the operator or the memory from 1, `inner` that of the kind, and 0
    /// stands for none.
    #[error("{why:?} at {key:?} {outer} {inner}")]
    At {
        why: HardWhy,
        key: Key,
        outer: u32,
        inner: u32,
    },
    #[error("out of memory")]
    Memory,
}

impl<T: Drop> From<AllocFailed<T>> for HardFault {
    ghost use Rattle.std.specs.Prelude.{◌≡◌};
    ghost use Rattle.rely_hard.specs.declared.fault.HardFault.TheVariants.{Memory};

    ghost from_gives = { λ _ e. e ≡ Memory };

    fn from(_e: AllocFailed<T>) -> HardFault {
        HardFault::Memory
    }
}

impl From<AllocError> for HardFault {
    ghost use Rattle.std.specs.Prelude.{◌≡◌};
    ghost use Rattle.rely_hard.specs.declared.fault.HardFault.TheVariants.{Memory};

    ghost from_gives = { λ _ e. e ≡ Memory };

    fn from(_e: AllocError) -> HardFault {
        HardFault::Memory
    }
}
