//! The lines of the function.

ghost use Rattle.std.specs.Prelude.{◌≡◌, IfOk, IfErr};
ghost use Rattle.rely_hard.specs.Valid.{IsHardware};
ghost use Rattle.rely_kernel.specs.Setting.{IsClosed, IsOn};
ghost use Rattle.rely_kernel.specs.Valid.{IsValid};
ghost use Rattle.chisel_claims.specs.Verdicts.{IsLimited, own_judged};
ghost use Rattle.chisel_verify.specs.Printing.{PrintsOwn};

use crate::printed::Printed;
use chisel_claims::{judgement, own_kinds};
use chisel_lines::line;
use rely_hard::Hardware;
use rely_kernel::Linked;
use rely_precond::PreFault;
use std::alloc::Global;

/// One line for each claim of the function, under its own kinds and memories.
pub(crate) fn own_lines(alloc: Global, h: &Hardware, l: &Linked) -> Result<Printed, PreFault>
    requires hardware { IsHardware h.now }
    requires valid { IsValid l.now.kernel }
    requires on { IsOn h.now l.now.kernel }
    requires closed { IsClosed l.now.kernel }
    ensures ok { IfOk result (PrintsOwn (own_judged h.now l.now)) }
    ensures err { IfErr result (IsLimited (own_judged h.now l.now)) }
{
    let k = &l.kernel;
    let setting = own_kinds(alloc, k)?;
    let mut text = Vec::new(alloc);
    let mut verdicts = Vec::new(alloc);
    for claim in k.claims.as_slice() {
        let verdict = match judgement(alloc, h, k, &setting, claim) {
            Ok(verdict) => verdict,
            Err(fault) => return Err(fault),
        };
        let line = line(alloc, k, verdicts.len() as u32 + 1, claim, &verdict)?;
        text.extend_from_slice(line.as_slice())?;
        verdicts.push(verdict)?;
    }
    Ok(Printed { text, verdicts })
}
