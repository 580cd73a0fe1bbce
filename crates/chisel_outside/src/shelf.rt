//! Where files come from.
ghost use Rattle.std.specs.Prelude.{◌≡◌, ◌+◌, ◌<◌, ◌^◌, Option};
ghost use Rattle.chisel_outside.specs.Outside.{Log, Bytes, Fetches, failures, faults_of};

use rely_num::List;
use std::alloc::Global;

/// The answer of a fetch.
#[derive(Drop, Debug)]
pub enum Fetched {
    /// All bytes of the file.
    Whole(List<u8>),
    /// The file has more bytes than the limit.
    Longer,
    /// The device failed, or there is no such file.
    Failed,
    /// Memory was refused.
    Memory,
}

/// What gives files by name and logs each name with a mark where its fetch failed.
pub trait Shelf {
    /// The bytes under a name, or none, where the shelf tells.
    ghost held: { Self → Bytes → Option (Option Bytes) };

    /// What was asked for so far, each with a mark where it failed.
    ghost log: { Self → Log };

    /// Reads the file `name` of at most `limit` bytes. A fetch that lacks memory leaves no trace in the log.
    fn fetch(&mut self, alloc: Global, name: &str, limit: usize) -> Fetched
        requires { limit < 2 ^ 32 }
        ensures fetches { Fetches (held self.old name.now) name.now limit (log self.old) (log self.new) result }
        ensures faults { faults_of (log self.new) ≡ faults_of (log self.old) + failures result }
        ensures held { (n : Bytes) → held self.new n ≡ held self.old n };
}
