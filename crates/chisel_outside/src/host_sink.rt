//! A sink over standard output.
ghost use Rattle.std.specs.Prelude.{◌≡◌, ◌||◌, None, false, nat_lt};
ghost use Rattle.std.specs.Io.{WritesAtMost};
ghost use Rattle.std.specs.Io.KnownBytes.{WriteAppends};
ghost use Rattle.chisel_outside.specs.Device.{answer_of, GainsSome, EndIn};
ghost use Rattle.chisel_outside.specs.Outside.{Puts};
ghost use Rattle.chisel_outside.specs.Host.{Writes, WritesBy};

use crate::device::{Writer, is_interrupted};
use crate::sink::{Put, Sink};
use std::io;
use std::io::{Printer, Write};

/// A sink over a writer, as the runtime's standard output, which keeps its counts and tells no content.
#[derive(Drop)]
pub struct HostSink<W> {
    out: W,
    faults: u64,
    late: bool,
}

impl<'r, P: Print> HostSink<Printer<'r, P>> {
    /// A sink without faults. It takes no memory.
    pub fn new(to: &'r P) -> HostSink<Printer<'r, P>>
        ensures faults { result.faults ≡ 0 }
        ensures late { result.late ≡ false }
    {
        HostSink {
            out: io::writer(to),
            faults: 0,
            late: false,
        }
    }
}

// One write, again where a signal interrupts it.
fn write_some<W: Writer>(out: &mut W, piece: &[u8]) -> io::Result<usize>
    ensures bound { WritesAtMost result piece.now }
    ensures bytes { WriteAppends (W.contents out.old) (W.contents out.new) result piece.now }
    ensures calls { GainsSome (W.answers out.old) (W.answers out.new) (EndIn (answer_of result)) }
{
    for _ in 1..u64::MAX {
        let answer = out.write_once(piece);
        if !is_interrupted(&answer) {
            return answer;
        }
    }
    out.write_once(piece)
}

// A write that takes nothing is a fault, so that each turn takes at least one byte.
fn write_whole<W: Writer>(out: &mut W, piece: &[u8]) -> Put
    ensures bytes { Writes (W.contents out.old) (W.contents out.new) piece.now result }
    ensures calls { GainsSome (W.answers out.old) (W.answers out.new) (WritesBy result) }
{
    let mut rest = piece;
    while !rest.is_empty() {
        match write_some(out, rest) {
            Ok(0) => return Put::Failed,
            Ok(n) => rest = &rest[n..],
            Err(_) => return Put::Failed,
        }
    }
    Put::All
}

impl<W: Write> Sink for HostSink<W> {
    ghost written = { λ _. None };

    ghost faults = { λ s. s.faults };

    ghost late = { λ s. s.late };

    fn put(&mut self, piece: &[u8]) -> Put
        ensures puts { Puts None None piece.now self.old.faults self.new.faults result }
        ensures late { self.new.late ≡ (self.old.late || nat_lt 0 self.old.faults) }
        ensures told { Writes (W.contents self.old.out) (W.contents self.new.out) piece.now result }
    {
        self.late = self.late || self.faults > 0;
        let put = write_whole(&mut self.out, piece);
        if put == Put::Failed {
            self.faults = self.faults.saturating_add(1);
        }
        put
    }
}
