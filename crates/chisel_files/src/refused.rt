//! Faults of the layers below as faults of a command.

ghost use Rattle.std.specs.Prelude.{◌≡◌};
ghost use Rattle.chisel_files.specs.Refused.{fault_on, hardware_refusal, input_refusal, lex_refusal, meaning_refusal, name_refusal, parse_refusal, source_refusal};

use chisel_lines::{Fault, Reason, Refusal};
use chisel_source::{MeaningFault, SourceFault};
use rely_hard::HardFault;
use rely_inputs::InputFault;
use rely_lexer::LexFault;
use rely_parser::ParseFault;
use rely_resolve::NameFault;

/// The fault that has the line of the refusal, and want of memory where there is none: no text within its limit is too long.
pub(crate) fn fault_on<'w>(refusal: Option<Refusal>) -> Fault<'w>
    ensures { result ≡ fault_on refusal }
{
    match refusal {
        Some(refusal) => Fault::Refused(refusal),
        None => Fault::Memory,
    }
}

fn lex_refusal(fault: LexFault) -> Option<Refusal>
    ensures { result ≡ lex_refusal fault }
{
    match fault {
        LexFault::BadByte(place) => Some(Refusal::Source(Reason::Byte, place)),
        LexFault::NumberWide(place) => Some(Refusal::Source(Reason::Wide, place)),
        LexFault::TooLong | LexFault::Memory => None,
    }
}

fn parse_refusal(fault: ParseFault) -> Option<Refusal>
    ensures { result ≡ parse_refusal fault }
{
    match fault {
        ParseFault::Expected(place) => Some(Refusal::Source(Reason::Expected, place)),
        ParseFault::Deep(place) => Some(Refusal::Source(Reason::Deep, place)),
        ParseFault::Many(place) => Some(Refusal::Source(Reason::Many, place)),
        ParseFault::Memory => None,
    }
}

/// Why a source has no tree.
pub(crate) fn source_refusal(fault: SourceFault) -> Option<Refusal>
    ensures { result ≡ source_refusal fault }
{
    match fault {
        SourceFault::Lex(fault) => lex_refusal(fault),
        SourceFault::Parse(fault) => parse_refusal(fault),
    }
}

fn hardware_refusal(fault: HardFault) -> Option<Refusal>
    ensures { result ≡ hardware_refusal fault }
{
    match fault {
        HardFault::At {
            why,
            key,
            outer,
            inner,
        } => Some(Refusal::Hardware(why, key, outer, inner)),
        HardFault::Memory => None,
    }
}

fn name_refusal(fault: NameFault) -> Option<Refusal>
    ensures { result ≡ name_refusal fault }
{
    match fault {
        NameFault::Twice(at) => Some(Refusal::Source(Reason::Twice, at.from)),
        NameFault::Function => Some(Refusal::Source(Reason::Function, 0)),
        NameFault::ClaimParam(at) => Some(Refusal::Source(Reason::Claim, at.from)),
        NameFault::Unknown(at) => Some(Refusal::Source(Reason::Unknown, at.from)),
        NameFault::NotArray(at) => Some(Refusal::Source(Reason::NotArray, at.from)),
        NameFault::NotScalar(at) => Some(Refusal::Source(Reason::NotScalar, at.from)),
        NameFault::NoKind(at) => Some(Refusal::Source(Reason::NoKind, at.from)),
        NameFault::NoMemory(at) => Some(Refusal::Source(Reason::NoMemory, at.from)),
        NameFault::Limit(at) => Some(Refusal::Source(Reason::Store, at.from)),
        NameFault::NoCallee(at) => Some(Refusal::Source(Reason::NoCallee, at.from)),
        NameFault::Arity(at) => Some(Refusal::Source(Reason::Arity, at.from)),
        NameFault::ArrayParam(at) => Some(Refusal::Source(Reason::ArrayParam, at.from)),
        NameFault::NoClaim(at) => Some(Refusal::Source(Reason::NoClaim, at.from)),
        NameFault::Memory => None,
    }
}

/// Why a source means nothing on a hardware.
pub(crate) fn meaning_refusal(fault: MeaningFault) -> Option<Refusal>
    ensures { result ≡ meaning_refusal fault }
{
    match fault {
        MeaningFault::Hardware(fault) => hardware_refusal(fault),
        MeaningFault::Name(fault) => name_refusal(fault),
    }
}

/// Why sample inputs are none.
pub(crate) fn input_refusal(fault: InputFault) -> Option<Refusal>
    ensures { result ≡ input_refusal fault }
{
    match fault {
        InputFault::At { why, sample, var } => Some(Refusal::Inputs(why, sample, var)),
        InputFault::Memory => None,
    }
}
