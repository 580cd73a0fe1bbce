use rely_hard::HardFault;
use rely_lexer::LexFault;
use rely_parser::ParseFault;
use rely_resolve::NameFault;

/// Why a source has no tree.
#[derive(Clone, Copy, Debug, PartialEq, Eq)]
pub enum SourceFault {
    Lex(LexFault),
    Parse(ParseFault),
}

/// Why a source means nothing on a hardware.
#[derive(Clone, Copy, Debug, PartialEq, Eq)]
pub enum MeaningFault {
    Hardware(HardFault),
    Name(NameFault),
}
