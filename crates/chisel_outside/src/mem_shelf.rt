//! A shelf in memory, which fails where it is told to.
ghost use Rattle.std.specs.Prelude.{◌≡◌, ◌⊎◌, None, option_map, if◌then◌else◌};
ghost use Rattle.chisel_outside.specs.Memory.{lookup, given, mark_for};

use crate::shelf::{Fetched, Shelf};
use rely_num::List;
use std::alloc::Global;
use std::marker::Model;

/// A shelf over files in memory, some of whose fetches fail.
#[derive(Drop, Debug)]
pub struct MemShelf {
    files: List<(List<u8>, List<u8>)>,
    failing: List<u64>,
    log: Vec<(List<u8>, bool)>,
}

impl Model for MemShelf {
    ghost use Rattle.chisel_outside.specs.Memory.{Shelved};

    ghost Value = { Shelved };

    ghost view = { λ s. record { files = s.files; failing = s.failing; log = s.log.items } };
}

fn find<'s>(files: &'s [(List<u8>, List<u8>)], name: &[u8]) -> Option<&'s [u8]>
    ensures { option_map (λ b. b.now) result ≡ lookup name.now files.now }
{
    for file in files {
        if file.0.as_slice() == name {
            return Some(file.1.as_slice());
        }
    }
    None
}

fn found_in<'s>(files: &'s [(List<u8>, List<u8>)], fails: bool, name: &[u8]) -> Option<&'s [u8]>
    ensures { option_map (λ b. b.now) result ≡ (if fails then None else lookup name.now files.now) }
{
    if fails { None } else { find(files, name) }
}

fn copy_of(alloc: Global, found: Option<&[u8]>, limit: usize) -> Fetched
    ensures { (result ≡ Fetched.Memory) ⊎ (result ≡ given (option_map (λ b. b.now) found.entry) limit) }
{
    let Some(bytes) = found else {
        return Fetched::Failed;
    };
    if limit < bytes.len() {
        return Fetched::Longer;
    }
    match Vec::from_slice(alloc, bytes) {
        Ok(bytes) => Fetched::Whole(List::from_vec(bytes)),
        Err(_) => Fetched::Memory,
    }
}

pub(crate) fn mark_of(fetched: &Fetched) -> Option<bool>
    ensures { result ≡ mark_for fetched.now }
{
    match fetched {
        Fetched::Memory => None,
        Fetched::Failed => Some(true),
        Fetched::Whole(_) | Fetched::Longer => Some(false),
    }
}

impl MemShelf {
    ghost use Rattle.std.specs.Prelude.{◌≡◌, []};

    /// `files` are pairs of a name and its bytes. `failing` numbers the fetches that fail, counted from 1 by the log. It
    /// takes no memory.
    pub fn new(alloc: Global, files: List<(List<u8>, List<u8>)>, failing: List<u64>) -> MemShelf
        ensures { result ≡ record { files = files; failing = failing; log = [] } }
    {
        MemShelf {
            files,
            failing,
            log: Vec::new(alloc),
        }
    }
}

impl Shelf for MemShelf {
    ghost use Rattle.std.specs.Prelude.{◌≡◌, ◌⊎◌, ◌+◌, ◌<◌, ◌^◌, Some};
    ghost use Rattle.chisel_outside.specs.declared.shelf.Fetched.TheVariants.{Memory};
    ghost use Rattle.chisel_outside.specs.Outside.{Bytes, Fetches, failures, faults_of};
    ghost use Rattle.chisel_outside.specs.Memory.{lookup, gives};

    ghost held = { λ s name. Some (lookup name s.files) };

    ghost log = { λ s. s.log };

    fn fetch(&mut self, alloc: Global, name: &str, limit: usize) -> Fetched
        requires { limit < 2 ^ 32 }
        ensures fetches { Fetches (Some (lookup name.now self.old.files)) name.now limit self.old.log self.new.log result }
        ensures faults { faults_of self.new.log ≡ faults_of self.old.log + failures result }
        ensures held { (n : Bytes) → Some (lookup n self.new.files) ≡ Some (lookup n self.old.files) }
        ensures exact { (result ≡ Memory) ⊎ (result ≡ gives self.old name.now limit) }
        ensures rest { self.new ≡ record self.old { log = self.new.log } }
    {
        let Ok(kept) = Vec::from_slice(alloc, name.as_bytes()) else {
            return Fetched::Memory;
        };
        let kept = List::from_vec(kept);
        let number = self.log.len() as u64 + 1;
        let fails = self.failing.as_slice().contains(&number);
        let found = found_in(self.files.as_slice(), fails, name.as_bytes());
        let fetched = copy_of(alloc, found, limit);
        let Some(mark) = mark_of(&fetched) else {
            return Fetched::Memory;
        };
        if self.log.push((kept, mark)).is_err() {
            return Fetched::Memory;
        }
        fetched
    }
}
