ghost use Rattle.std.specs.Prelude.{◌≡◌, Some, IfSome};
ghost use Rattle.rely_num.specs.Texts.{word_text, word_of};

/// A word that the language keeps for itself.
#[derive(Clone, Copy, Debug, PartialEq, Eq)]
pub enum Word {
    Fn,
    Claim,
    Result,
    R,
    Var,
    In,
    If,
    Else,
    While,
    Max,
    Repeat,
    Return,
    Call,
    Within,
}

impl Word {
    /// Every reserved word.
    pub const ALL: [Word; 14] = [
        Word::Fn,
        Word::Claim,
        Word::Result,
        Word::R,
        Word::Var,
        Word::In,
        Word::If,
        Word::Else,
        Word::While,
        Word::Max,
        Word::Repeat,
        Word::Return,
        Word::Call,
        Word::Within,
    ];

    /// How the source writes it.
    #[tactic(auto, unfolding(crate::specs::Texts::word_of))]
    pub fn text(self) -> &'static [u8]
        ensures text { result.now ≡ word_text self }
        ensures read { word_of result.now ≡ Some self }
    {
        match self {
            Word::Fn => b"fn",
            Word::Claim => b"claim",
            Word::Result => b"result",
            Word::R => b"R",
            Word::Var => b"var",
            Word::In => b"in",
            Word::If => b"if",
            Word::Else => b"else",
            Word::While => b"while",
            Word::Max => b"max",
            Word::Repeat => b"repeat",
            Word::Return => b"return",
            Word::Call => b"call",
            Word::Within => b"within",
        }
    }

    /// The reserved word that the whole text writes.
    #[tactic(auto, using(crate::proofs::Searches::word_from_all, crate::proofs::Searches::word_of_written))]
    pub fn of_text(text: &[u8]) -> Option<Word>
        ensures value { result ≡ word_of text.now }
        ensures written { IfSome result (λ w. text.now ≡ word_text w) }
    {
        for word in Word::ALL {
            if word.text() == text {
                return Some(word);
            }
        }
        None
    }
}
