//! A source and its hardware, in the order of work, and then the marks.

ghost use Rattle.std.specs.Prelude.{◌≡◌, List, ℕ, IfOk};
ghost use Rattle.rely_kernel.specs.Setting.{marks_of};
ghost use Rattle.rely_num.specs.OpenMarks.{AreOpenMarks};
ghost use Rattle.chisel_files.specs.Front.{closed_work, closing, meant_work, ready_work};
ghost use Rattle.chisel_files.specs.Works.{Comes, Works};
ghost use Rattle.chisel_source.specs.Meaning.{AreClosed, IsMeant, IsReady};

use crate::fetching::{LONGEST, fetch};
use crate::refused::{fault_on, meaning_refusal, source_refusal};
use bumpalo::Bump;
use chisel_lines::{Fault, Reason, Refusal};
use chisel_outside::Shelf;
use chisel_source::{Meant, Ready, meaning, open_place_of, unit_in};
use std::alloc::Global;

/// What a source means, whose tree is read before the hardware is fetched.
fn meant<'w, F: Shelf>(
    alloc: Global,
    text: &[u8],
    hardware: &'w str,
    function: &str,
    shelf: &mut F,
) -> Result<Meant, Fault<'w>>
    ensures held { (n : List ℕ) → F.held shelf.new n ≡ F.held shelf.old n }
    ensures works { Works (F.held shelf.old) (F.log shelf.old) (F.log shelf.new) (meant_work text.now hardware.now function.now) result }
    ensures valid { IfOk result IsMeant }
    ensures marks { IfOk result (λ m. AreOpenMarks text.now (marks_of m.linked.kernel)) }
{
    let arena = Bump::new(alloc);
    let unit = match unit_in(alloc, &arena, text) {
        Ok(unit) => unit,
        Err(fault) => return Err(fault_on(source_refusal(fault))),
    };
    let bytes = match fetch(alloc, shelf, hardware, LONGEST) {
        Ok(bytes) => bytes,
        Err(fault) => return Err(fault),
    };
    match meaning(alloc, &unit, function, bytes.as_slice()) {
        Ok(meant) => Ok(meant),
        Err(fault) => Err(fault_on(meaning_refusal(fault))),
    }
}

/// Reads the source and the hardware of these names, and the function of that name.
pub fn ready<'w, F: Shelf>(
    alloc: Global,
    source: &'w str,
    hardware: &'w str,
    function: &str,
    shelf: &mut F,
) -> Result<Ready, Fault<'w>>
    ensures held { (n : List ℕ) → F.held shelf.new n ≡ F.held shelf.old n }
    ensures works { Works (F.held shelf.old) (F.log shelf.old) (F.log shelf.new) (ready_work source.now hardware.now function.now) result }
    ensures valid { IfOk result IsReady }
{
    let text = match fetch(alloc, shelf, source, LONGEST) {
        Ok(text) => text,
        Err(fault) => return Err(fault),
    };
    let meant = match meant(alloc, text.as_slice(), hardware, function, shelf) {
        Ok(meant) => meant,
        Err(fault) => return Err(fault),
    };
    Ok(Ready::new(text, meant))
}

/// The same back, unless the function or one that it reaches leaves a place open.
pub fn closed<'w>(ready: Ready) -> Result<Ready, Fault<'w>>
    ensures comes { Comes (closing ready) result }
    ensures same { IfOk result (λ r. r ≡ ready) }
    ensures closed { IfOk result (λ r. AreClosed r.linked) }
{
    match open_place_of(&ready.linked) {
        Some(place) => Err(Fault::Refused(Refusal::Source(Reason::Mark, place))),
        None => Ok(ready),
    }
}

/// What is ready and leaves no place open.
pub fn closed_ready<'w, F: Shelf>(
    alloc: Global,
    source: &'w str,
    hardware: &'w str,
    function: &str,
    shelf: &mut F,
) -> Result<Ready, Fault<'w>>
    ensures held { (n : List ℕ) → F.held shelf.new n ≡ F.held shelf.old n }
    ensures works { Works (F.held shelf.old) (F.log shelf.old) (F.log shelf.new) (closed_work source.now hardware.now function.now) result }
    ensures valid { IfOk result IsReady }
    ensures closed { IfOk result (λ r. AreClosed r.linked) }
{
    match ready(alloc, source, hardware, function, shelf) {
        Ok(ready) => closed(ready),
        Err(fault) => Err(fault),
    }
}
