//! The words of a command line.
ghost use Rattle.std.specs.Prelude.{◌≡◌, string_bytes};

use std::marker::Model;

/// A word of a command line, which contracts see as the list of its bytes.
#[derive(Drop, Debug)]
pub struct Arg {
    text: String,
}

impl Model for Arg {
    ghost use Rattle.std.specs.Prelude.{List, ℕ, string_bytes};

    ghost Value = { List ℕ };

    ghost view = { λ a. string_bytes a.text };
}

impl Arg {
    /// Keeps the word. It takes no memory.
    pub fn from_string(s: String) -> Arg
        ensures { result ≡ string_bytes s }
    {
        Arg { text: s }
    }

    /// Lends the word.
    pub fn as_str(&self) -> &str
        ensures { result.now ≡ self.now }
    {
        self.text.as_str()
    }
}
