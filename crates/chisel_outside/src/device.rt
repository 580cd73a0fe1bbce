//! Readers and writers, call by call.
ghost use Rattle.std.specs.Prelude.{◌≡◌, ◌↔◌, ◌∷◌, [], List, Option, None, Err, IsTrue};
ghost use Rattle.std.specs.Io.{ReadsAtMost, WritesAtMost};
ghost use Rattle.std.specs.Io.KnownBytes.{ReadConsumes, WriteAppends};
ghost use Rattle.chisel_outside.specs.Outside.{Bytes};
ghost use Rattle.chisel_outside.specs.Device.{Answer, answer_of, Gains};

use std::io;
use std::io::{ErrorKind, Read, Write};

/// What is read from, and may tell what it answered so far.
pub(crate) trait Reader {
    /// The bytes that are left, where they are told.
    ghost remaining: { Self → Option Bytes };

    /// The answers so far, where they are told.
    ghost answers: { Self → Option (List Answer) };

    /// One call of `read`.
    fn read_once(&mut self, piece: &mut [u8]) -> io::Result<usize>
        ensures bound { ReadsAtMost result piece.new }
        ensures bytes { ReadConsumes (remaining self.old) (remaining self.new) result piece.new }
        ensures answer { Gains (answers self.old) (answers self.new) (answer_of result ∷ []) };
}

impl<R: Read> Reader for R {
    ghost remaining = { λ r. R.remaining r };

    ghost answers = { λ _. None };

    fn read_once(&mut self, piece: &mut [u8]) -> io::Result<usize> {
        self.read(piece)
    }
}

/// What is written to, and may tell what it answered so far.
pub(crate) trait Writer {
    /// The bytes that it holds, where they are told.
    ghost contents: { Self → Option Bytes };

    /// The answers so far, where they are told.
    ghost answers: { Self → Option (List Answer) };

    /// One call of `write`.
    fn write_once(&mut self, piece: &[u8]) -> io::Result<usize>
        ensures bound { WritesAtMost result piece.now }
        ensures bytes { WriteAppends (contents self.old) (contents self.new) result piece.now }
        ensures answer { Gains (answers self.old) (answers self.new) (answer_of result ∷ []) };
}

impl<W: Write> Writer for W {
    ghost contents = { λ w. W.contents w };

    ghost answers = { λ _. None };

    fn write_once(&mut self, piece: &[u8]) -> io::Result<usize> {
        self.write(piece)
    }
}

/// A signal came before the call moved anything.
pub(crate) fn is_interrupted(answer: &io::Result<usize>) -> bool
    ensures { IsTrue result ↔ (answer_of answer.now ≡ Err ErrorKind.Interrupted) }
{
    matches!(answer, Err(e) if e.kind() == ErrorKind::Interrupted)
}
