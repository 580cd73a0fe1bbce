//! What the commands begin with that choose kinds and memories: a function that leaves some place open, and where it starts.

ghost use Rattle.std.specs.Prelude.{◌≡◌, ◌≤◌, List, ℕ, IfOk};
ghost use Rattle.rely_kernel.specs.Setting.{marks_of};
ghost use Rattle.rely_num.specs.OpenMarks.{AreOpenMarks};
ghost use Rattle.chisel_files.specs.Choosing.{IsProblem, IsOpen, certificate_work, made_meaning, made_problem, open_work, opening, problem_work};
ghost use Rattle.chisel_files.specs.Works.{Comes, Works};
ghost use Rattle.chisel_source.specs.Meaning.{IsMeant, IsReady};

use crate::fetching::fetch;
use crate::inputs::starts;
use crate::reading::ready;
use crate::refused::{fault_on, input_refusal, meaning_refusal, source_refusal};
use bumpalo::Bump;
use chisel_lines::{Fault, Reason, Refusal};
use chisel_make::{Made, make};
use chisel_outside::Shelf;
use chisel_source::{Meant, Ready, meaning, open_place, open_place_in, unit_in};
use rely_kernel::Store;
use rely_num::List;
use std::alloc::Global;

/// The last length of a certificate, in bytes.
const LONGEST_CERTIFICATE: u32 = 4_194_304;

/// The function of a made problem.
const MADE: &str = "made";

/// What the words name.
#[derive(Clone, Copy, Debug)]
pub struct Names<'w> {
    pub source: &'w str,
    pub hardware: &'w str,
    pub inputs: &'w str,
    pub function: &'w str,
}

/// A function that leaves some place open, and where its samples start.
#[derive(Debug, Drop)]
pub struct Problem {
    pub ready: Ready,
    pub starts: List<Store>,
}

/// The same back, where the function leaves some place open and none that it reaches does, which is looked at first.
#[tactic(auto, using(crate::proofs::Problems::mark_behind, crate::proofs::Problems::nothing_open, crate::proofs::Problems::some_place, crate::proofs::Problems::open_by))]
fn open<'w>(ready: Ready) -> Result<Ready, Fault<'w>>
    ensures comes { Comes (opening ready) result }
    ensures same { IfOk result (λ r. r ≡ ready) }
    ensures is_open { IfOk result (λ r. IsOpen r.linked) }
{
    if let Some(place) = open_place_in(ready.linked.inner.as_slice()) {
        return Err(Fault::Refused(Refusal::Source(Reason::Mark, place)));
    }
    match open_place(&ready.linked.kernel) {
        Some(_) => Ok(ready),
        None => {
            let place = ready.linked.kernel.name.from;
            Err(Fault::Refused(Refusal::Source(Reason::Closed, place)))
        }
    }
}

/// What is ready, where the function leaves some place open.
fn open_ready<'w, F: Shelf>(
    alloc: Global,
    names: Names<'w>,
    shelf: &mut F,
) -> Result<Ready, Fault<'w>>
    ensures held { (n : List ℕ) → F.held shelf.new n ≡ F.held shelf.old n }
    ensures works { Works (F.held shelf.old) (F.log shelf.old) (F.log shelf.new) (open_work names.entry.source.now names.entry.hardware.now names.entry.function.now) result }
    ensures valid { IfOk result IsReady }
    ensures is_open { IfOk result (λ r. IsOpen r.linked) }
{
    match ready(alloc, names.source, names.hardware, names.function, shelf) {
        Ok(ready) => open(ready),
        Err(fault) => Err(fault),
    }
}

/// Reads the source, the hardware and the sample inputs of these names.
pub fn read_problem<'w, F: Shelf>(
    alloc: Global,
    names: Names<'w>,
    shelf: &mut F,
) -> Result<Problem, Fault<'w>>
    ensures held { (n : List ℕ) → F.held shelf.new n ≡ F.held shelf.old n }
    ensures works { Works (F.held shelf.old) (F.log shelf.old) (F.log shelf.new) (problem_work names.entry.source.now names.entry.hardware.now names.entry.inputs.now names.entry.function.now) result }
    ensures sound { IfOk result IsProblem }
{
    let ready = match open_ready(alloc, names, shelf) {
        Ok(ready) => ready,
        Err(fault) => return Err(fault),
    };
    match starts(alloc, &ready.linked.kernel, names.inputs, shelf) {
        Ok(starts) => Ok(Problem { ready, starts }),
        Err(fault) => Err(fault),
    }
}

/// The text of the certificate of that name.
pub fn certificate<'w, F: Shelf>(
    alloc: Global,
    name: &'w str,
    shelf: &mut F,
) -> Result<List<u8>, Fault<'w>>
    ensures held { (n : List ℕ) → F.held shelf.new n ≡ F.held shelf.old n }
    ensures works { Works (F.held shelf.old) (F.log shelf.old) (F.log shelf.new) (certificate_work name.now) result }
{
    fetch(alloc, shelf, name, LONGEST_CERTIFICATE)
}

/// What the texts of a made problem mean.
fn made_meaning<'w>(alloc: Global, source: &[u8], hardware: &[u8]) -> Result<Meant, Fault<'w>>
    ensures comes { Comes (made_meaning source.now hardware.now) result }
    ensures valid { IfOk result IsMeant }
    ensures marks { IfOk result (λ m. AreOpenMarks source.now (marks_of m.linked.kernel)) }
{
    let arena = Bump::new(alloc);
    let unit = match unit_in(alloc, &arena, source) {
        Ok(unit) => unit,
        Err(fault) => return Err(fault_on(source_refusal(fault))),
    };
    match meaning(alloc, &unit, MADE, hardware) {
        Ok(meant) => Ok(meant),
        Err(fault) => Err(fault_on(meaning_refusal(fault))),
    }
}

/// Makes the problem of that size and number, whose texts are read as those of files.
pub fn made<'w>(alloc: Global, size: u32, number: u64) -> Result<Problem, Fault<'w>>
    requires least { 1 ≤ size }
    requires most { size ≤ 100 }
    ensures comes { Comes (made_problem size number) result }
    ensures sound { IfOk result IsProblem }
{
    let Made {
        source,
        hardware,
        inputs,
    } = make(alloc, size, number)?;
    let meant = match made_meaning(alloc, source.as_slice(), hardware.as_slice()) {
        Ok(meant) => meant,
        Err(fault) => return Err(fault),
    };
    let ready = match open(Ready::new(source, meant)) {
        Ok(ready) => ready,
        Err(fault) => return Err(fault),
    };
    match rely_inputs::read(alloc, &ready.linked.kernel, inputs.as_slice()) {
        Ok(starts) => Ok(Problem { ready, starts }),
        Err(fault) => Err(fault_on(input_refusal(fault))),
    }
}
