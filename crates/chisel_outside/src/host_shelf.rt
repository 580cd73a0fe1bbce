//! A shelf over the system's files.
ghost use Rattle.std.specs.Prelude.{◌≡◌, ◌<◌, ◌^◌, [], None, length, IfOk, IfErr};
ghost use Rattle.std.specs.Io.{ReadsAtMost};
ghost use Rattle.std.specs.Io.KnownBytes.{ReadConsumes};
ghost use Rattle.std.specs.IoError.{error_kind};
ghost use Rattle.chisel_outside.specs.Device.{answer_of, GainsSome, EndIn};
ghost use Rattle.chisel_outside.specs.Host.{Reads, ReadsBy, Holds, IsWithin, IsFault};

use crate::device::{Reader, is_interrupted};
use crate::mem_shelf::mark_of;
use crate::shelf::{Fetched, Shelf};
use rely_num::List;
use std::alloc::Global;
use std::io::{Error, ErrorKind, Read};
use std::rt::Files;
use std::{fs, io};

/// A shelf over the runtime's files, which keeps the log and tells no content.
#[derive(Drop)]
pub struct HostShelf<'r, R> {
    files: &'r R,
    log: Vec<(List<u8>, bool)>,
}

impl<'r, R: Files> HostShelf<'r, R> {
    /// A shelf with an empty log. It takes no memory.
    pub fn new(files: &'r R, alloc: Global) -> HostShelf<'r, R>
        ensures { result.log.items ≡ [] }
    {
        HostShelf {
            files,
            log: Vec::new(alloc),
        }
    }
}

// Want of memory is no fault of the device.
fn fault_of(e: &Error) -> Fetched
    ensures { IsFault (error_kind e.now) result }
{
    if e.kind() == ErrorKind::OutOfMemory {
        Fetched::Memory
    } else {
        Fetched::Failed
    }
}

// One read, again where a signal interrupts it.
fn read_some<R: Reader>(file: &mut R, piece: &mut [u8]) -> io::Result<usize>
    ensures bound { ReadsAtMost result piece.new }
    ensures len { length piece.new ≡ length piece.old }
    ensures bytes { ReadConsumes (R.remaining file.old) (R.remaining file.new) result piece.new }
    ensures calls { GainsSome (R.answers file.old) (R.answers file.new) (EndIn (answer_of result)) }
{
    for _ in 1..u64::MAX {
        let answer = file.read_once(piece);
        if !is_interrupted(&answer) {
            return answer;
        }
    }
    file.read_once(piece)
}

// Each turn but the last takes at least one byte, so there are at most `limit + 1`.
fn read_up_to<R: Reader>(alloc: Global, file: &mut R, limit: usize) -> Fetched
    requires { limit < 2 ^ 32 }
    ensures bytes { Reads limit (R.remaining file.old) (R.remaining file.new) result }
    ensures calls { GainsSome (R.answers file.old) (R.answers file.new) (ReadsBy result) }
{
    let mut bytes = Vec::new(alloc);
    let mut piece = [0u8; 4096];
    while bytes.len() <= limit {
        let most = (limit + 1 - bytes.len()).min(4096);
        match read_some(file, &mut piece[..most]) {
            Ok(0) => return Fetched::Whole(List::from_vec(bytes)),
            Ok(n) => {
                if bytes.extend_from_slice(&piece[..n]).is_err() {
                    return Fetched::Memory;
                }
            }
            Err(e) => return fault_of(&e),
        }
    }
    Fetched::Longer
}

fn read_opened<R: Read + Drop>(alloc: Global, opened: io::Result<R>, limit: usize) -> Fetched
    requires { limit < 2 ^ 32 }
    ensures within { IsWithin limit result }
    ensures ok { IfOk opened (λ file. Holds limit (R.remaining file) result) }
    ensures err { IfErr opened (λ e. IsFault (error_kind e) result) }
{
    match opened {
        Ok(mut file) => read_up_to(alloc, &mut file, limit),
        Err(e) => fault_of(&e),
    }
}

impl<R: Files> Shelf for HostShelf<'_, R> {
    ghost held = { λ _ _. None };

    ghost log = { λ s. s.log.items };

    fn fetch(&mut self, alloc: Global, name: &str, limit: usize) -> Fetched {
        let Ok(kept) = Vec::from_slice(alloc, name.as_bytes()) else {
            return Fetched::Memory;
        };
        let kept = List::from_vec(kept);
        let fetched = read_opened(alloc, fs::open(self.files, name), limit);
        let Some(mark) = mark_of(&fetched) else {
            return Fetched::Memory;
        };
        if self.log.push((kept, mark)).is_err() {
            return Fetched::Memory;
        }
        fetched
    }
}
