//! Fetching a file by its name.

ghost use Rattle.std.specs.Prelude.{◌≡◌, List, ℕ};
ghost use Rattle.chisel_files.specs.Files.{bytes_of, file};
ghost use Rattle.chisel_files.specs.Works.{Works};

use chisel_lines::Fault;
use chisel_outside::{Fetched, Shelf};
use rely_num::List;
use std::alloc::Global;

/// The last length of a source and of a hardware file, in bytes.
pub(crate) const LONGEST: u32 = 65_536;
/// That of sample inputs.
pub(crate) const LONGEST_INPUTS: u32 = 1_048_576;

fn bytes_of<'w>(name: &'w str, limit: u32, fetched: Fetched) -> Result<List<u8>, Fault<'w>>
    ensures { result ≡ bytes_of name.entry limit fetched }
{
    match fetched {
        Fetched::Whole(bytes) => Ok(bytes),
        Fetched::Longer => Err(Fault::Length(name, limit)),
        Fetched::Failed => Err(Fault::Read(name)),
        Fetched::Memory => Err(Fault::Memory),
    }
}

/// The bytes of the file of that name, at most `limit` of them.
pub fn fetch<'w, F: Shelf>(
    alloc: Global,
    shelf: &mut F,
    name: &'w str,
    limit: u32,
) -> Result<List<u8>, Fault<'w>>
    ensures held { (n : List ℕ) → F.held shelf.new n ≡ F.held shelf.old n }
    ensures works { Works (F.held shelf.old) (F.log shelf.old) (F.log shelf.new) (file name.now limit) result }
{
    let fetched = shelf.fetch(alloc, name, limit as usize);
    bytes_of(name, limit, fetched)
}
