ghost use Rattle.std.specs.Prelude.{◌≡◌};
ghost use Rattle.rely_resolve.specs.Faults.{place, rank, is_before, sooner, first_with, when};

use rely_num::Span;
use std::alloc::{AllocError, AllocFailed};
use std::fmt;
use thiserror::Error;

/// Why a source means no kernel.
#[derive(Clone, Copy, Debug, PartialEq, Eq, Error)]
pub enum NameFault {
    /// A function or a variable that has the name of an earlier one.
    Twice(Span),
    /// No function has the name.
    Function,
    /// A name of a claim that is no parameter.
    ClaimParam(Span),
    /// A name that is that of no variable.
    Unknown(Span),
    /// A scalar with an index.
    NotArray(Span),
    /// An array without an index.
    NotScalar(Span),
    /// An operator that the hardware doesn't list, or a kind that it doesn't list for its operator.
    NoKind(Span),
    /// A memory that the hardware doesn't list.
    NoMemory(Span),
    /// The variable with which a function holds more than 65,536 numbers.
    Limit(Span),
    /// A callee whose name no earlier function has.
    NoCallee(Span),
    /// A callee that takes another number of arguments.
    Arity(Span),
    /// A callee that has an array as a parameter.
    ArrayParam(Span),
    /// A callee that claims nothing of its result.
    NoClaim(Span),
    Memory,
}

impl fmt::Display for NameFault {
    fn fmt<W: fmt::Write>(&self, f: &mut fmt::Formatter<W>) -> fmt::Result {
        match self {
            NameFault::Function | NameFault::Memory => f.write_str(self.subject()),
            _ => write!(f, "{} at {}{}", self.subject(), self.place(), self.ending()),
        }
    }
}

impl NameFault {
    // What stands before its place in what is said of it.
    fn subject(self) -> &'static str {
        match self {
            NameFault::Twice(_) | NameFault::ClaimParam(_) | NameFault::Unknown(_) => "the name",
            NameFault::Function => "no function has the name",
            NameFault::NotArray(_) => "the scalar",
            NameFault::NotScalar(_) => "the array",
            NameFault::NoKind(_) => "the hardware doesn't list what is",
            NameFault::NoMemory(_) => "the hardware doesn't list the memory",
            NameFault::Limit(_) => "too many numbers are held with the variable",
            NameFault::NoCallee(_) => "no earlier function has the name",
            NameFault::Arity(_) | NameFault::ArrayParam(_) | NameFault::NoClaim(_) => "the callee",
            NameFault::Memory => "out of memory",
        }
    }

    // What stands behind it.
    fn ending(self) -> &'static str {
        match self {
            NameFault::Twice(_) => " is used twice",
            NameFault::ClaimParam(_) => " is that of no parameter",
            NameFault::Unknown(_) => " is that of no variable",
            NameFault::NotArray(_) => " has an index",
            NameFault::NotScalar(_) => " has no index",
            NameFault::Arity(_) => " takes another number of arguments",
            NameFault::ArrayParam(_) => " has an array as a parameter",
            NameFault::NoClaim(_) => " claims nothing of its result",
            _ => "",
        }
    }

    // Where it stands.
    fn place(self) -> u32
        ensures { result ≡ place self }
    {
        match self {
            NameFault::Function | NameFault::Memory => 0,
            NameFault::Twice(span)
            | NameFault::ClaimParam(span)
            | NameFault::Unknown(span)
            | NameFault::NotArray(span)
            | NameFault::NotScalar(span)
            | NameFault::NoKind(span)
            | NameFault::NoMemory(span)
            | NameFault::Limit(span)
            | NameFault::NoCallee(span)
            | NameFault::Arity(span)
            | NameFault::ArrayParam(span)
            | NameFault::NoClaim(span) => span.from,
        }
    }

    // Which comes first at one place.
    fn rank(self) -> u8
        ensures { result ≡ rank self }
    {
        match self {
            NameFault::Twice(_) => 0,
            NameFault::Function => 1,
            NameFault::ClaimParam(_) => 2,
            NameFault::Unknown(_) => 3,
            NameFault::NotArray(_) => 4,
            NameFault::NotScalar(_) => 5,
            NameFault::NoKind(_) => 6,
            NameFault::NoMemory(_) => 7,
            NameFault::Limit(_) => 8,
            NameFault::NoCallee(_) => 9,
            NameFault::Arity(_) => 10,
            NameFault::ArrayParam(_) => 11,
            NameFault::NoClaim(_) => 12,
            NameFault::Memory => 13,
        }
    }

    // Whether it stands earlier, or at the same place with a lesser rank.
    fn is_before(self, other: NameFault) -> bool
        ensures { result ≡ is_before self other }
    {
        self.place() < other.place() || self.place() == other.place() && self.rank() < other.rank()
    }
}

/// The first of two faults.
pub(crate) fn sooner(first: Option<NameFault>, fault: NameFault) -> Option<NameFault>
    ensures { result ≡ sooner first fault }
{
    match first {
        Some(first) if !fault.is_before(first) => Some(first),
        _ => Some(fault),
    }
}

/// The fault too, where there is one.
pub(crate) fn noted(first: Option<NameFault>, is_wrong: bool, fault: NameFault) -> Option<NameFault>
    ensures { result ≡ first_with first (when is_wrong fault) }
{
    if is_wrong {
        sooner(first, fault)
    } else {
        first
    }
}

impl From<AllocError> for NameFault {
    ghost use Rattle.std.specs.Prelude.{◌≡◌};
    ghost use Rattle.rely_resolve.specs.declared.fault.NameFault.TheVariants.{Memory};

    ghost from_gives = { λ _ e. e ≡ Memory };

    fn from(_error: AllocError) -> NameFault {
        NameFault::Memory
    }
}

impl<T: Drop> From<AllocFailed<T>> for NameFault {
    ghost use Rattle.std.specs.Prelude.{◌≡◌};
    ghost use Rattle.rely_resolve.specs.declared.fault.NameFault.TheVariants.{Memory};

    ghost from_gives = { λ _ e. e ≡ Memory };

    fn from(_failed: AllocFailed<T>) -> NameFault {
        NameFault::Memory
    }
}
