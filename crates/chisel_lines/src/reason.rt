//! The words that the lines of refusals print.

ghost use Rattle.std.specs.Prelude.{◌≡◌};
ghost use Rattle.chisel_lines.specs.Reasons.{key_text, lack_text, limit_text, reason_text, why_text};

use crate::{Limit, Reason};
use rely_hard::{HardWhy, Key};
use rely_inputs::InputWhy;

/// The word for what is wrong with a source.
pub fn reason_text(reason: Reason) -> &'static [u8]
    ensures { result.now ≡ reason_text reason }
{
    match reason {
        Reason::Byte => b"byte",
        Reason::Wide => b"wide",
        Reason::Expected => b"expected",
        Reason::Deep => b"deep",
        Reason::Many => b"many",
        Reason::Twice => b"twice",
        Reason::Function => b"function",
        Reason::Claim => b"claim",
        Reason::Unknown => b"unknown",
        Reason::NotArray => b"notarray",
        Reason::NotScalar => b"notscalar",
        Reason::NoKind => b"nokind",
        Reason::NoMemory => b"nomemory",
        Reason::Store => b"store",
        Reason::NoCallee => b"nocallee",
        Reason::Arity => b"arity",
        Reason::ArrayParam => b"arrayparam",
        Reason::NoClaim => b"noclaim",
        Reason::Mark => b"mark",
        Reason::Closed => b"closed",
        Reason::Trials => b"trials",
    }
}

/// The word for a limit.
pub fn limit_text(limit: Limit) -> &'static [u8]
    ensures { result.now ≡ limit_text limit }
{
    match limit {
        Limit::Wide => b"wide",
        Limit::Count => b"count",
        Limit::Work => b"work",
        Limit::Steps => b"steps",
        Limit::Decisions => b"decisions",
        Limit::Options => b"options",
        Limit::Nodes => b"nodes",
    }
}

/// The word for what is wrong with a hardware file.
pub fn why_text(why: HardWhy) -> &'static [u8]
    ensures { result.now ≡ why_text why }
{
    match why {
        HardWhy::Json => b"json",
        HardWhy::Missing => b"missing",
        HardWhy::Kind => b"kind",
        HardWhy::Range => b"range",
        HardWhy::Repeated => b"repeated",
        HardWhy::NoExact => b"noexact",
        HardWhy::Many => b"many",
    }
}

/// The word for the key of a hardware file at which it is wrong.
pub fn key_text(key: Key) -> &'static [u8]
    ensures { result.now ≡ key_text key }
{
    match key {
        Key::Root => b"root",
        Key::Base => b"base",
        Key::Operators => b"operators",
        Key::Op => b"op",
        Key::Kinds => b"kinds",
        Key::Memories => b"memories",
        Key::Name => b"name",
        Key::Right => b"right",
        Key::Energy => b"energy",
        Key::Read => b"read",
        Key::Write => b"write",
        Key::ReadEnergy => b"read_energy",
        Key::WriteEnergy => b"write_energy",
        Key::Hold => b"hold",
    }
}

/// The word for what is wrong with sample inputs.
pub fn lack_text(why: InputWhy) -> &'static [u8]
    ensures { result.now ≡ lack_text why }
{
    match why {
        InputWhy::Json => b"json",
        InputWhy::Shape => b"shape",
        InputWhy::Count => b"count",
        InputWhy::Missing => b"missing",
        InputWhy::Length => b"length",
        InputWhy::Number => b"number",
        InputWhy::Extra => b"extra",
    }
}
