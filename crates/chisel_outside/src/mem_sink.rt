//! A sink in memory, which fails where it is told to, and where its room ends.
ghost use Rattle.std.specs.Prelude.{◌≡◌};
ghost use Rattle.chisel_outside.specs.Memory.{cut_at, taken_of, fails_of};

use crate::sink::{Put, Sink};
use rely_num::List;
use std::alloc::{AllocError, Global};
use std::marker::Model;

/// A sink in memory, some of whose puts fail. Puts take the room that [`MemSink::reserve`] made, and no memory.
#[derive(Drop, Debug)]
pub struct MemSink {
    written: Vec<u8>,
    faults: u64,
    late: bool,
    puts: u64,
    failing: List<(u64, usize)>,
    room: usize,
}

impl Model for MemSink {
    ghost use Rattle.std.specs.Prelude.{◌+◌, ◌≤◌, vec_len, vec_capacity};
    ghost use Rattle.chisel_outside.specs.Memory.{Sunk};

    ghost Value = { Sunk };

    ghost view = { λ s. record { written = s.written.items; faults = s.faults; late = s.late; puts = s.puts; failing = s.failing; room = s.room } };

    ghost invariant = { λ s. vec_len s.written + s.room ≤ vec_capacity s.written };
}

fn cut_of(failing: &[(u64, usize)], number: u64) -> Option<usize>
    ensures { result ≡ cut_at number failing.now }
{
    for pair in failing {
        if pair.0 == number {
            return Some(pair.1);
        }
    }
    None
}

fn taken_of(cut: Option<usize>, room: usize, len: usize) -> usize
    ensures { result ≡ taken_of cut room len }
{
    match cut {
        None => len.min(room),
        Some(cut) => len.min(room).min(cut),
    }
}

fn fails_of(cut: Option<usize>, room: usize, len: usize) -> bool
    ensures { result ≡ fails_of cut room len }
{
    match cut {
        None => room < len,
        Some(_) => true,
    }
}

impl MemSink {
    ghost use Rattle.std.specs.Prelude.{◌≡◌, ◌<◌, [], false, max, is_ok, if◌then◌else◌, OnErr};

    /// `failing` are pairs of the number of a put, counted from 1, and of the bytes that this put still takes before it
    /// fails. The sink has no room. It takes no memory.
    pub fn new(alloc: Global, failing: List<(u64, usize)>) -> MemSink
        ensures { result ≡ record { written = []; faults = 0; late = false; puts = 0; failing = failing; room = 0 } }
    {
        MemSink {
            written: Vec::new(alloc),
            faults: 0,
            late: false,
            puts: 0,
            failing,
            room: 0,
        }
    }

    /// What stands in the sink.
    pub fn bytes(&self) -> &[u8]
        ensures { result.now ≡ self.now.written }
    {
        self.written.as_slice()
    }

    /// Makes room for at least `spare` further bytes.
    ///
    /// # Errors
    ///
    /// Memory was refused. The sink is then as it was.
    pub fn reserve(&mut self, spare: usize) -> Result<(), AllocError>
        ensures after { self.new ≡ record self.old { room = if is_ok result then max self.old.room spare else self.old.room } }
        ensures err { OnErr result (self.old.room < spare) }
    {
        if self.room < spare {
            self.written.reserve(spare)?;
            self.room = spare;
        }
        Ok(())
    }
}

impl Sink for MemSink {
    ghost use Rattle.std.specs.Prelude.{◌≡◌, ◌||◌, Some, nat_lt};
    ghost use Rattle.chisel_outside.specs.Outside.{Puts};
    ghost use Rattle.chisel_outside.specs.Memory.{after_put, answer_to};

    ghost written = { λ s. Some s.written };

    ghost faults = { λ s. s.faults };

    ghost late = { λ s. s.late };

    fn put(&mut self, piece: &[u8]) -> Put
        ensures puts { Puts (Some self.old.written) (Some self.new.written) piece.now self.old.faults self.new.faults result }
        ensures late { self.new.late ≡ (self.old.late || nat_lt 0 self.old.faults) }
        ensures answer { result ≡ answer_to self.old piece.now }
        ensures after { self.new ≡ after_put self.old piece.now }
    {
        let number = self.puts.saturating_add(1);
        let cut = cut_of(self.failing.as_slice(), number);
        let taken = taken_of(cut, self.room, piece.len());
        let failed = fails_of(cut, self.room, piece.len());
        let _ = self.written.extend_from_slice(&piece[..taken]);
        self.room -= taken;
        self.puts = number;
        self.late = self.late || self.faults > 0;
        if failed {
            self.faults = self.faults.saturating_add(1);
            Put::Failed
        } else {
            Put::All
        }
    }
}
