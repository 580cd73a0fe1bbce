//! Why the files are refused: each refusal is a line of the manual.

ghost use Rattle.std.specs.Prelude.{◌≡◌};
ghost use Rattle.chisel_lines.specs.Refusals.{refusal_status, walk_refusal};

use crate::Status;
use rely_hard::{HardWhy, Key};
use rely_inputs::InputWhy;
use rely_precond::PreFault;

/// What is wrong with a source.
#[derive(Clone, Copy, Debug, PartialEq, Eq)]
pub enum Reason {
    /// A byte that begins no token.
    Byte,
    /// A number beyond its range.
    Wide,
    /// The tokens so far begin no unit.
    Expected,
    /// Too many open brackets.
    Deep,
    /// Too many functions, variables, claims or operators.
    Many,
    /// A name that is named again.
    Twice,
    /// No function has the name that was asked for.
    Function,
    /// A name of a claim that isn't a parameter.
    Claim,
    /// A name of no variable.
    Unknown,
    /// A scalar that is indexed.
    NotArray,
    /// An array without an index.
    NotScalar,
    /// An operator or a kind that the hardware doesn't list.
    NoKind,
    /// A memory that the hardware doesn't list.
    NoMemory,
    /// The variable with which a function holds too many numbers.
    Store,
    /// A call of no earlier function.
    NoCallee,
    /// A call with another number of arguments.
    Arity,
    /// A call of a function that has an array as a parameter.
    ArrayParam,
    /// A call of a function without a claim on its result.
    NoClaim,
    /// A kind or a memory that is left open.
    Mark,
    /// The function leaves nothing open.
    Closed,
    /// A call in a function that trials are asked of.
    Trials,
}

/// A limit that the manual names.
#[derive(Clone, Copy, Debug, PartialEq, Eq)]
pub enum Limit {
    /// The conjuncts of a claim.
    Wide,
    /// One count of a conjunct.
    Count,
    /// The work of the walk through a claim's function.
    Work,
    /// The steps of all runs of a command.
    Steps,
    /// The places that are left open.
    Decisions,
    /// The kinds or memories of one such place.
    Options,
    /// The visits of a search.
    Nodes,
}

/// Why the files are refused. Want of memory is none of it.
#[derive(Clone, Copy, Debug, PartialEq, Eq)]
pub enum Refusal {
    /// What is wrong with the source, at that place.
    Source(Reason, u32),
    /// What is wrong with the hardware file, at the member with these numbers, counted from 1.
    Hardware(HardWhy, Key, u32, u32),
    /// What is wrong with the sample inputs, at that sample and parameter, counted from 1.
    Inputs(InputWhy, u32, u32),
    /// The limit that is reached, with its place or its number.
    Limit(Limit, u32),
}

impl Refusal {
    /// How a command that is refused ends.
    pub fn status(self) -> Status
        ensures { result ≡ refusal_status self }
    {
        match self {
            Refusal::Source(..) | Refusal::Hardware(..) | Refusal::Inputs(..) => Status::Text,
            Refusal::Limit(..) => Status::Limit,
        }
    }
}

/// The limit that a walk through a claim's function reaches; want of memory is none.
pub fn walk_refusal(fault: PreFault) -> Option<Refusal>
    ensures { result ≡ walk_refusal fault }
{
    match fault {
        PreFault::Wide(at) => Some(Refusal::Limit(Limit::Wide, at.from)),
        PreFault::Count(at) => Some(Refusal::Limit(Limit::Count, at.from)),
        PreFault::Work(at) => Some(Refusal::Limit(Limit::Work, at.from)),
        PreFault::Memory => None,
    }
}
