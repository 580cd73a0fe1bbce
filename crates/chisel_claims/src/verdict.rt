//! The verdict on one claim.

ghost use Rattle.std.specs.Prelude.{◌≡◌, Contains, Ok, IfOk, IfErr};
ghost use Rattle.rely_hard.specs.Valid.{IsHardware};
ghost use Rattle.rely_kernel.specs.Rates.{own};
ghost use Rattle.rely_kernel.specs.Setting.{Fits, IsClosed};
ghost use Rattle.rely_kernel.specs.Valid.{IsValid};
ghost use Rattle.chisel_claims.specs.Verdicts.{IsLimited, judgement};

use rely_hard::Hardware;
use rely_kernel::{Claim, Kernel, Setting, own_setting};
use rely_precond::{PreFault, generate};
use rely_verdict::{Verdict, judge};
use std::alloc::{AllocError, Global};

/// The setting of a kernel that leaves no place open.
pub fn own_kinds(alloc: Global, k: &Kernel) -> Result<Setting, AllocError>
    requires { IsClosed k.now }
    ensures { IfOk result (λ t. t ≡ own k.now) }
{
    let setting = own_setting(alloc, k)?;
    let Some(setting) = setting else {
        unreachable!();
    };
    Ok(setting)
}

/// The verdict on a claim of the kernel under a setting, unless the walk from the claim reaches a limit.
#[tactic(auto, using(crate::proofs::Claiming::stops_limited))]
pub fn judgement(
    alloc: Global,
    h: &Hardware,
    k: &Kernel,
    t: &Setting,
    c: &Claim,
) -> Result<Verdict, PreFault>
    requires hardware { IsHardware h.now }
    requires valid { IsValid k.now }
    requires fits { Fits k.now h.now t.now }
    requires among { Contains k.now.claims c.now }
    ensures ok { IfOk result (λ v. judgement h.now k.now t.now c.now ≡ Ok v) }
    ensures err { IfErr result (IsLimited (judgement h.now k.now t.now c.now)) }
{
    match generate(alloc, k, c) {
        Ok(predicate) => Ok(judge(k, &predicate, c, h, t)),
        Err(fault) => Err(fault),
    }
}
