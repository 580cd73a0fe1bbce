//! The top call.

ghost use Rattle.std.specs.Prelude.{◌≡◌, List, ℕ, None, Err, false};
ghost use Rattle.rely_num.specs.Texts.{Bytes};
ghost use Rattle.chisel_lines.specs.Faults.{memory_line, read_line};
ghost use Rattle.chisel_lines.specs.Statuses.{IsFree};
ghost use Rattle.chisel_lines.specs.declared.fault.Fault.TheVariants as fault;
ghost use Rattle.chisel_top.specs.Findings.{work_of};
ghost use Rattle.chisel_top.specs.Outcomes.{Reaches};
ghost use Rattle.chisel_top.specs.Promises.{Counts, EndsWithoutForm, FailedLast, FetchesInOrder, Headline, IsOwed, IsReport, OpensInOrder, Wrote, WroteFront};
ghost use Rattle.chisel_words.specs.Words.{form};

use crate::Status;
use crate::commands::{certify, introduce, measure, optimise, simulate, verify};
use crate::tell::tell;
use chisel_lines::{Answer, Fault};
use chisel_outside::{Arg, Shelf, Sink};
use chisel_words::Asked;
use std::alloc::Global;

// What the command answers, or why it has no answer.
fn outcome<'w, F: Shelf>(
    alloc: Global,
    words: &'w [Arg],
    shelf: &mut F,
) -> Result<Answer, Fault<'w>>
    ensures held { (n : List ℕ) → F.held shelf.new n ≡ F.held shelf.old n }
    ensures reaches { Reaches (F.held shelf.old) (F.log shelf.old) (F.log shelf.new) (work_of (form words.now)) result }
    ensures no_form { form words.now ≡ None → result ≡ Err fault.Words }
{
    match chisel_words::read(words) {
        None => Err(Fault::Words),
        Some(Asked::Verify(words)) => verify(alloc, words, shelf),
        Some(Asked::Optimise(words)) => optimise(alloc, words, shelf),
        Some(Asked::Check(words)) => certify(alloc, words, chisel_optimise::Asked::Check, shelf),
        Some(Asked::Rewrite(words)) => certify(
            alloc,
            words,
            chisel_optimise::Asked::Rewrite,
            shelf,
        ),
        Some(Asked::Migrate(words)) => certify(
            alloc,
            words,
            chisel_optimise::Asked::Migrate,
            shelf,
        ),
        Some(Asked::Run(words)) => simulate(alloc, words, shelf),
        Some(Asked::Make(words)) => measure(alloc, words),
        Some(Asked::Version) => introduce(alloc),
    }
}

/// Does all that the program does: reads the words, fetches the files that they name, and writes one text.
///
/// The shelf is asked for the files' names alone, in the order of work, and the sink is put one text or one fault's line.
/// `report` says what is written for every status but those of a device or of memory: it answers *some* contents of the files,
/// which are the shelf's where it tells them. `headline` says what the lines that are written promise of runs on unreliable
/// hardware. Neither has a premise: over files that tell nothing they speak of the bytes that were fetched.
pub fn run<F: Shelf, K: Sink>(alloc: Global, words: &[Arg], shelf: &mut F, sink: &mut K) -> Status
    // The shelf and the sink.
    ensures held { (n : Bytes) → F.held shelf.new n ≡ F.held shelf.old n }
    ensures log { FetchesInOrder words.now (F.log shelf.old) (F.log shelf.new) result }
    ensures opened { OpensInOrder words.now (F.held shelf.old) (F.log shelf.old) (F.log shelf.new) }
    ensures counts { Counts (K.faults sink.old) (K.faults sink.new) result }
    ensures late { K.faults sink.old ≡ 0 → K.late sink.old ≡ false → K.late sink.new ≡ false }

    // When each answer comes.
    ensures words { result ≡ Status.Words → form words.now ≡ None }
    ensures no_form { form words.now ≡ None → EndsWithoutForm (K.written sink.old) (K.written sink.new) result }
    ensures read_fault { result ≡ Status.ReadFault → (name : Bytes)
        × FailedLast (F.log shelf.old) (F.log shelf.new) name × Wrote (K.written sink.old) (K.written sink.new) (read_line name) }
    ensures write_fault { result ≡ Status.WriteFault → (text : Bytes)
        × WroteFront (K.written sink.old) (K.written sink.new) text × IsOwed words.now (F.held shelf.old) (F.log shelf.old) (F.log shelf.new) text }
    ensures memory { result ≡ Status.Memory → Wrote (K.written sink.old) (K.written sink.new) memory_line }

    // What is written, and what its lines promise.
    ensures report { (IsFree result → ⊥) → IsReport words.now (F.held shelf.old) (F.log shelf.old) (F.log shelf.new) (K.written sink.old) (K.written sink.new) result }
    ensures headline { (IsFree result → ⊥) → Headline words.now (F.held shelf.old) (F.log shelf.old) (F.log shelf.new) (K.written sink.old) (K.written sink.new) result }
{
    let outcome = outcome(alloc, words, shelf);
    tell(sink, &outcome)
}
