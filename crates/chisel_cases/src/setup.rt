//! What a run is given: files by name, and the fetches and puts that fail.

use anyhow::Context;
use chisel_outside::{Arg, MemShelf, MemSink};
use chisel_top::{Status, run};
use rely_num::List;
use std::alloc::{AllocError, Global};
use std::collections::BTreeMap;

/// The room of a sink in bytes, more than any text that is printed.
const ROOM: usize = 1 << 22;

/// How a run ended, and what stands in its sink.
#[derive(Debug, Drop)]
pub(crate) struct Ended {
    pub(crate) status: Status,
    pub(crate) sink: MemSink,
}

/// What the next run is given.
#[derive(Debug, Drop)]
pub(crate) struct Setup {
    alloc: Global,
    files: BTreeMap<String, Vec<u8>>,
    /// The file that began last.
    open: String,
    fetches: Vec<u64>,
    puts: Vec<(u64, usize)>,
}

impl Setup {
    /// No file, and nothing fails.
    pub(crate) fn new(alloc: Global) -> Setup {
        Setup {
            alloc,
            files: BTreeMap::new(alloc),
            open: String::new(alloc),
            fetches: Vec::new(alloc),
            puts: Vec::new(alloc),
        }
    }

    /// From here on no fetch and no put fails.
    pub(crate) fn fail_nowhere(&mut self) {
        self.fetches.clear();
        self.puts.clear();
    }

    pub(crate) fn fail_fetch(&mut self, number: u64) -> Result<(), AllocError> {
        self.fetches.push(number)?;
        Ok(())
    }

    pub(crate) fn fail_put(&mut self, number: u64, taken: usize) -> Result<(), AllocError> {
        self.puts.push((number, taken))?;
        Ok(())
    }

    /// Begins a file, in place of an earlier one of the name.
    pub(crate) fn begin_file(&mut self, name: &str) -> Result<(), AllocError> {
        let key = String::from_str(self.alloc, name)?;
        self.files.insert(key, Vec::new(self.alloc))?;
        self.open = String::from_str(self.alloc, name)?;
        Ok(())
    }

    /// Adds bytes to the file that began last.
    pub(crate) fn append(&mut self, bytes: &[u8]) -> anyhow::Result<()> {
        let file = self.files.get_mut(self.open.as_str());
        file.context("no file has begun")?.extend_from_slice(bytes)?;
        Ok(())
    }

    pub(crate) fn remove_file(&mut self, name: &str) {
        self.files.remove(name);
    }

    /// Runs the program on these words, with one blank between two.
    pub(crate) fn run(&self, words: &str) -> Result<Ended, AllocError> {
        let mut arguments = Vec::new(self.alloc);
        for word in words.split(' ') {
            arguments.push(Arg::from_string(String::from_str(self.alloc, word)?))?;
        }
        let mut shelf = self.shelf()?;
        let mut sink = MemSink::new(self.alloc, List::from_vec(self.puts.clone()?));
        sink.reserve(ROOM)?;
        let status = run(self.alloc, arguments.as_slice(), &mut shelf, &mut sink);
        Ok(Ended { status, sink })
    }

    fn shelf(&self) -> Result<MemShelf, AllocError> {
        let mut files = Vec::new(self.alloc);
        for (name, bytes) in self.files.iter() {
            let name = Vec::from_slice(self.alloc, name.as_bytes())?;
            files.push((List::from_vec(name), List::from_vec(bytes.clone()?)))?;
        }
        let fetches = List::from_vec(self.fetches.clone()?);
        Ok(MemShelf::new(self.alloc, List::from_vec(files), fetches))
    }
}
