//! The commands that take a certificate, whoever made it.

ghost use Rattle.std.specs.Prelude.{◌≡◌, Some, Ok, Err, IfOk, IfErr, OnOk};
ghost use Rattle.rely_kernel.specs.Choice as kernel;
ghost use Rattle.rely_kernel.specs.Setting.{marks_of};
ghost use Rattle.rely_num.specs.OpenMarks.{AreOpenMarks};
ghost use Rattle.chisel_cert.specs.Node.{certificate_of};
ghost use Rattle.chisel_cert.specs.Ranges.{IsWithin};
ghost use Rattle.chisel_cert.specs.Reading.{certificate_at};
ghost use Rattle.chisel_cert.specs.Text.{text_of};
ghost use Rattle.chisel_cert.specs.Valid.{IsClaimed, IsValidFor};
ghost use Rattle.chisel_lines.specs.declared.answer.Answer.TheVariants.{Text};
ghost use Rattle.chisel_lines.specs.declared.status.Grade.TheVariants.{Good};
ghost use Rattle.chisel_problem.specs.Promises.{ChoicesAreKernels};
ghost use Rattle.chisel_optimise.specs.Migrated.{migrated};
ghost use Rattle.chisel_table.specs.Valid.{IsTable};
ghost use Rattle.chisel_optimise.specs.Answers.{IsCertified, IsInvalid, IsNoText, named_in, of_valid};
ghost use Rattle.chisel_optimise.specs.Halts.{HaltsBy};
ghost use Rattle.chisel_optimise.specs.Sound.{IsSound};

use crate::halt::Halt;
use crate::lines::{formless, invalid, nothing, yes};
use crate::newest::migrate;
use crate::table::table_of;
use bumpalo::Bump;
use chisel_cert::{Cert, CertFault, read};
use chisel_check::check;
use chisel_lines::{Answer, Grade};
use chisel_rewrite::rewrite;
use chisel_source::Ready;
use chisel_table::{Choice, Table};
use rely_kernel::Store;
use rely_num::List;
use std::alloc::{AllocError, Global};

/// What is asked of a certificate that somebody made.
#[derive(Clone, Copy, Debug)]
pub enum Asked {
    /// Whether it is valid.
    Check,
    /// The source with its choice named.
    Rewrite,
    /// The same certificate in the version that is printed.
    Migrate,
}

/// The certificate that a text writes.
fn certificate<'a>(alloc: Global, arena: &'a Bump, text: &'a [u8]) -> Result<Cert<'a>, Halt>
    ensures ok { IfOk result (λ c. certificate_at text.now ≡ Ok (certificate_of c)) }
    ensures within { IfOk result (λ c. IsWithin (certificate_of c)) }
    ensures err { IfErr result (HaltsBy (IsNoText text.now)) }
{
    match read(alloc, arena, text) {
        Ok(cert) => Ok(cert),
        Err(CertFault::At { line, why }) => Err(Halt::Answer(formless(alloc, line, why)?)),
        Err(CertFault::Memory) => Err(Halt::Memory),
    }
}

/// The certificate is valid.
fn is_valid(alloc: Global, t: &Table, c: &Cert<'_>) -> Result<(), Halt>
    requires table { IsTable t.now }
    requires within { IsWithin (certificate_of c.now) }
    ensures ok { OnOk result (IsValidFor t.now (certificate_of c.now)) }
    ensures err { IfErr result (HaltsBy (IsInvalid t.now (certificate_of c.now))) }
{
    match check(t, c) {
        chisel_check::Answer::Yes => Ok(()),
        chisel_check::Answer::No { line, why } => { Err(Halt::Answer(invalid(alloc, line, why)?)) }
    }
}

/// The source with the choice named in it.
fn rewritten(alloc: Global, ready: &Ready, options: &[u8]) -> Result<Answer, AllocError>
    requires marks { AreOpenMarks ready.now.text (marks_of ready.now.linked.kernel) }
    requires choice { kernel.IsChoice ready.now.linked.kernel ready.now.hardware options.now }
    ensures { IfOk result (λ a. a ≡ named_in ready.now (Some options.now)) }
{
    let options = List::from_vec(Vec::from_slice(alloc, options)?);
    let choice = Choice { options };
    let text = rewrite(
        alloc,
        ready.text.as_slice(),
        &ready.linked.kernel,
        &ready.hardware,
        &choice,
    )?;
    Ok(Answer::Text(List::from_vec(text), Grade::Good))
}

/// The same certificate in the version that is printed.
fn migrated(alloc: Global, t: &Table, c: &Cert<'_>) -> Result<Answer, AllocError>
    requires table { IsTable t.now }
    requires claimed { IsClaimed t.now (certificate_of c.now).choice }
    ensures { IfOk result (λ a. a ≡ Text (text_of (migrated t.now (certificate_of c.now))) Good) }
{
    let text = migrate(alloc, t, c)?;
    Ok(Answer::Text(List::from_vec(text), Grade::Good))
}

/// The answer to what is asked of a valid certificate.
fn of_valid(
    alloc: Global,
    ready: &Ready,
    t: &Table,
    c: &Cert<'_>,
    asked: Asked,
) -> Result<Answer, AllocError>
    requires marks { AreOpenMarks ready.now.text (marks_of ready.now.linked.kernel) }
    requires table { IsTable t.now }
    requires choices { ChoicesAreKernels ready.now.hardware ready.now.linked.kernel t.now }
    requires valid { IsValidFor t.now (certificate_of c.now) }
    ensures { IfOk result (λ a. a ≡ of_valid ready.now t.now (certificate_of c.now) asked) }
{
    match (asked, c.choice) {
        (Asked::Check, _) => yes(alloc),
        (Asked::Rewrite, Some(options)) => rewritten(alloc, ready, options),
        (Asked::Rewrite, None) => nothing(alloc),
        (Asked::Migrate, _) => migrated(alloc, t, c),
    }
}

/// The answer to what is asked of the certificate that a text writes. The text is read before anything is judged.
#[tactic(auto, using(crate::proofs::Answering::text_halts, crate::proofs::Answering::certified_ends, crate::proofs::Answering::certified_invalid, crate::proofs::Answering::certified_answers))]
pub(crate) fn certified(
    alloc: Global,
    ready: &Ready,
    starts: &[Store],
    text: &[u8],
    asked: Asked,
) -> Result<Answer, Halt>
    requires { IsSound ready.now starts.now }
    ensures ok { IfOk result (IsCertified ready.now starts.now text.now asked) }
    ensures err { IfErr result (HaltsBy (IsCertified ready.now starts.now text.now asked)) }
{
    let arena = Bump::new(alloc);
    let cert = match certificate(alloc, &arena, text) {
        Ok(cert) => cert,
        Err(halt) => return Err(halt),
    };
    let table = match table_of(alloc, ready, starts) {
        Ok(table) => table,
        Err(halt) => return Err(halt),
    };
    match is_valid(alloc, &table, &cert) {
        Ok(()) => (),
        Err(halt) => return Err(halt),
    }
    Ok(of_valid(alloc, ready, &table, &cert, asked)?)
}
