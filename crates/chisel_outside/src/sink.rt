//! Where lines go.
ghost use Rattle.std.specs.Prelude.{◌≡◌, ◌||◌, ℕ, Bool, Option, nat_lt};
ghost use Rattle.chisel_outside.specs.Outside.{Bytes, Puts};

/// The answer of a put.
#[derive(Clone, Copy, Debug, PartialEq, Eq)]
pub enum Put {
    /// The whole piece was taken.
    All,
    /// No more than a front of the piece was taken.
    Failed,
}

/// What takes pieces of text and counts the puts that failed.
pub trait Sink {
    /// What stands in the sink, where it is told.
    ghost written: { Self → Option Bytes };

    /// How often a put failed.
    ghost faults: { Self → ℕ };

    /// Whether a put came after one that failed.
    ghost late: { Self → Bool };

    /// Appends the piece. It takes no memory.
    fn put(&mut self, piece: &[u8]) -> Put
        ensures puts { Puts (written self.old) (written self.new) piece.now (faults self.old) (faults self.new) result }
        ensures late { late self.new ≡ (late self.old || nat_lt 0 (faults self.old)) };
}
