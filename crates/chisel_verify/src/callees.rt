//! The lines of the functions that are called.

ghost use Rattle.std.specs.Prelude.{◌≡◌, IfOk, IfErr};
ghost use Rattle.std.specs.List.{AllByRecursion};
ghost use Rattle.rely_hard.specs.Valid.{IsHardware};
ghost use Rattle.rely_kernel.specs.Setting.{IsClosed, IsOn};
ghost use Rattle.rely_kernel.specs.Valid.{IsValid};
ghost use Rattle.chisel_claims.specs.Verdicts.{IsLimited, callees_of, judged_of};
ghost use Rattle.chisel_verify.specs.Lines.{callee_text};
ghost use Rattle.chisel_verify.specs.Printing.{PrintsCallees};

use chisel_claims::{Judged, callee_on};
use chisel_lines::callee_line;
use rely_hard::Hardware;
use rely_kernel::Kernel;
use rely_precond::PreFault;
use rely_verdict::Verdict;
use std::alloc::{AllocError, Global};

/// The lines of the functions that are called.
#[derive(Drop)]
pub(crate) enum CalleeLines {
    /// One for each claim in use, since all of them are accepted.
    AllAccepted(Vec<u8>),
    /// That of the first that isn't.
    OneFails(Vec<u8>, Verdict),
}

/// The line of a claim in use behind its function's name, which stands in the source.
fn line_of(alloc: Global, source: &[u8], j: &Judged<'_>) -> Result<Vec<u8>, AllocError>
    ensures { IfOk result (λ v. v.items ≡ callee_text source.now (judged_of j.now)) }
{
    callee_line(alloc, source, j.kernel, j.number, j.claim, &j.verdict)
}

/// The lines of the claims in use, in order of the functions, or the one of the first that isn't accepted.
pub(crate) fn callee_lines(
    alloc: Global,
    source: &[u8],
    h: &Hardware,
    kernels: &[Kernel],
) -> Result<CalleeLines, PreFault>
    requires hardware { IsHardware h.now }
    requires valid { AllByRecursion IsValid kernels.now }
    requires on { AllByRecursion (IsOn h.now) kernels.now }
    requires closed { AllByRecursion IsClosed kernels.now }
    ensures ok { IfOk result (PrintsCallees source.now (callees_of h.now kernels.now)) }
    ensures err { IfErr result (IsLimited (callees_of h.now kernels.now)) }
{
    let mut text = Vec::new(alloc);
    for (i, k) in kernels.iter().enumerate() {
        let callee = match callee_on(alloc, h, i, k) {
            Ok(callee) => callee,
            Err(fault) => return Err(fault),
        };
        if let Some(callee) = callee {
            let line = line_of(alloc, source, &callee)?;
            if !callee.is_accepted() {
                return Ok(CalleeLines::OneFails(line, callee.verdict));
            }
            text.extend_from_slice(line.as_slice())?;
        }
    }
    Ok(CalleeLines::AllAccepted(text))
}
