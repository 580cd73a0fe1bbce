//! Writing to the sink, in pieces and without memory.

ghost use Rattle.std.specs.Prelude.{◌≡◌, ◌++◌, false, codes, decimal};
ghost use Rattle.chisel_lines.specs.Refusals.{refusal_line};
ghost use Rattle.chisel_lines.specs.Faults.{fault_line, fault_status};
ghost use Rattle.chisel_lines.specs.declared.refusal.Refusal.TheVariants as refusal;
ghost use Rattle.chisel_top.specs.Outcomes.{outcome_status, outcome_text};
ghost use Rattle.chisel_top.specs.Telling.{Delivers, joined};

use crate::Status;
use chisel_lines::{
    Answer, Fault, Refusal, key_text, lack_text, limit_text, reason_text, why_text,
};
use chisel_outside::{Put, Sink};
use itoa::Buffer;
use rely_hard::{HardWhy, Key};
use rely_inputs::InputWhy;

/// Puts the pieces one after the other; no piece follows one that failed.
fn put_all<K: Sink>(sink: &mut K, pieces: &[&[u8]], status: Status) -> Status
    ensures delivers { Delivers (joined pieces.now) status (K.written sink.old) (K.written sink.new) (K.faults sink.old) (K.faults sink.new) result }
    ensures late { K.faults sink.old ≡ 0 → K.late sink.old ≡ false → K.late sink.new ≡ false }
{
    for piece in pieces {
        match sink.put(piece) {
            Put::All => {}
            Put::Failed => return Status::WriteFault,
        }
    }
    status
}

fn tell_line<K: Sink>(sink: &mut K, line: &[u8], status: Status) -> Status
    ensures delivers { Delivers (line.now) status (K.written sink.old) (K.written sink.new) (K.faults sink.old) (K.faults sink.new) result }
    ensures late { K.faults sink.old ≡ 0 → K.late sink.old ≡ false → K.late sink.new ≡ false }
{
    put_all(sink, &[line], status)
}

fn tell_word<K: Sink>(
    sink: &mut K,
    before: &[u8],
    word: &str,
    after: &[u8],
    status: Status,
) -> Status
    ensures delivers { Delivers (before.now ++ word.now ++ after.now) status (K.written sink.old) (K.written sink.new) (K.faults sink.old) (K.faults sink.new) result }
    ensures late { K.faults sink.old ≡ 0 → K.late sink.old ≡ false → K.late sink.new ≡ false }
{
    put_all(sink, &[before, word.as_bytes(), after], status)
}

/// A text, a word and a number at the line's end.
fn tell_number<K: Sink>(
    sink: &mut K,
    before: &[u8],
    word: &[u8],
    number: u32,
    status: Status,
) -> Status
    ensures delivers { Delivers (before.now ++ word.now ++ codes " " ++ decimal number ++ codes "\n") status (K.written sink.old) (K.written sink.new) (K.faults sink.old) (K.faults sink.new) result }
    ensures late { K.faults sink.old ≡ 0 → K.late sink.old ≡ false → K.late sink.new ≡ false }
{
    let mut buffer = Buffer::new();
    let number = buffer.format(number).as_bytes();
    put_all(sink, &[before, word, b" ", number, b"\n"], status)
}

/// The member of a hardware file at which it is refused.
struct Member {
    key: Key,
    outer: u32,
    inner: u32,
}

fn tell_member<K: Sink>(sink: &mut K, why: HardWhy, member: Member, status: Status) -> Status
    ensures delivers { Delivers (refusal_line (refusal.Hardware why member.key member.outer member.inner)) status (K.written sink.old) (K.written sink.new) (K.faults sink.old) (K.faults sink.new) result }
    ensures late { K.faults sink.old ≡ 0 → K.late sink.old ≡ false → K.late sink.new ≡ false }
{
    let Member { key, outer, inner } = member;
    let mut first = Buffer::new();
    let mut second = Buffer::new();
    let outer = first.format(outer).as_bytes();
    let inner = second.format(inner).as_bytes();
    let pieces: [&[u8]; 9] = [
        b"fault hardware ",
        why_text(why),
        b" ",
        key_text(key),
        b" ",
        outer,
        b" ",
        inner,
        b"\n",
    ];
    put_all(sink, &pieces, status)
}

fn tell_sample<K: Sink>(
    sink: &mut K,
    why: InputWhy,
    sample: u32,
    var: u32,
    status: Status,
) -> Status
    ensures delivers { Delivers (refusal_line (refusal.Inputs why sample var)) status (K.written sink.old) (K.written sink.new) (K.faults sink.old) (K.faults sink.new) result }
    ensures late { K.faults sink.old ≡ 0 → K.late sink.old ≡ false → K.late sink.new ≡ false }
{
    let mut first = Buffer::new();
    let mut second = Buffer::new();
    let sample = first.format(sample).as_bytes();
    let var = second.format(var).as_bytes();
    let pieces: [&[u8]; 7] = [
        b"fault inputs ",
        lack_text(why),
        b" ",
        sample,
        b" ",
        var,
        b"\n",
    ];
    put_all(sink, &pieces, status)
}

fn tell_refusal<K: Sink>(sink: &mut K, refusal: &Refusal, status: Status) -> Status
    ensures delivers { Delivers (refusal_line refusal.now) status (K.written sink.old) (K.written sink.new) (K.faults sink.old) (K.faults sink.new) result }
    ensures late { K.faults sink.old ≡ 0 → K.late sink.old ≡ false → K.late sink.new ≡ false }
{
    match refusal {
        Refusal::Source(reason, place) => {
            tell_number(sink, b"fault source ", reason_text(*reason), *place, status)
        }
        Refusal::Hardware(why, key, outer, inner) => {
            let member = Member {
                key: *key,
                outer: *outer,
                inner: *inner,
            };
            tell_member(sink, *why, member, status)
        }
        Refusal::Inputs(why, sample, var) => tell_sample(sink, *why, *sample, *var, status),
        Refusal::Limit(limit, number) => {
            tell_number(sink, b"fault limit ", limit_text(*limit), *number, status)
        }
    }
}

fn tell_fault<K: Sink>(sink: &mut K, fault: &Fault<'_>) -> Status
    ensures delivers { Delivers (fault_line fault.now) (fault_status fault.now) (K.written sink.old) (K.written sink.new) (K.faults sink.old) (K.faults sink.new) result }
    ensures late { K.faults sink.old ≡ 0 → K.late sink.old ≡ false → K.late sink.new ≡ false }
{
    let status = fault.status();
    match fault {
        Fault::Words => tell_line(sink, b"fault words\n", status),
        Fault::Read(word) => tell_word(sink, b"fault read ", word, b"\n", status),
        Fault::Length(word, limit) => tell_number(
            sink,
            b"fault limit length ",
            word.as_bytes(),
            *limit,
            status,
        ),
        Fault::Refused(refusal) => tell_refusal(sink, refusal, status),
        Fault::Memory => tell_line(sink, b"fault memory\n", status),
    }
}

/// Writes an answer by one put, and a fault's line in pieces.
pub(crate) fn tell<K: Sink>(sink: &mut K, outcome: &Result<Answer, Fault<'_>>) -> Status
    ensures delivers { Delivers (outcome_text outcome.now) (outcome_status outcome.now) (K.written sink.old) (K.written sink.new) (K.faults sink.old) (K.faults sink.new) result }
    ensures late { K.faults sink.old ≡ 0 → K.late sink.old ≡ false → K.late sink.new ≡ false }
{
    match outcome {
        Ok(Answer::Text(text, grade)) => tell_line(sink, text.as_slice(), grade.status()),
        Ok(Answer::Refused(refusal)) => tell_refusal(sink, refusal, refusal.status()),
        Err(fault) => tell_fault(sink, fault),
    }
}
