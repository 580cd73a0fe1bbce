//! The claims in use of the functions that are reached.

ghost use Rattle.std.specs.Prelude.{◌≡◌, ◌≤◌, Contains, Ok, IfOk, IfErr, IfSome, length, option_map};
ghost use Rattle.std.specs.List.{AllByRecursion};
ghost use Rattle.rely_hard.specs.Valid.{IsHardware};
ghost use Rattle.rely_kernel.specs.Setting.{IsClosed, IsOn};
ghost use Rattle.rely_kernel.specs.Valid.{IsValid};
ghost use Rattle.chisel_claims.specs.Verdicts.{Finds, IsLimited, callee_on, callees_of, in_use_from, judged_of};

use crate::judged::Judged;
use crate::verdict::{judgement, own_kinds};
use rely_hard::Hardware;
use rely_kernel::{Claim, Kernel};
use rely_precond::PreFault;
use std::alloc::Global;

/// The number of the result as a claim's target.
const RESULT: u32 = 63;

/// The number, from 1, and the claim in use, the first on the result.
fn in_use(claims: &[Claim]) -> Option<(u32, &Claim)>
    requires { length claims.now ≤ 8 }
    ensures first { option_map (λ n. (n.0, n.1.now)) result ≡ in_use_from 1 claims.now }
    ensures among { IfSome result (λ n. Contains claims.now n.1.now) }
{
    for (i, claim) in claims.iter().enumerate() {
        if claim.target == RESULT {
            return Some((i as u32 + 1, claim));
        }
    }
    None
}

/// The verdict on the claim in use of the function with that number, where it has one.
pub fn callee_on<'a>(
    alloc: Global,
    h: &Hardware,
    function: usize,
    k: &'a Kernel,
) -> Result<Option<Judged<'a>>, PreFault>
    requires hardware { IsHardware h.now }
    requires valid { IsValid k.now }
    requires on { IsOn h.now k.now }
    requires closed { IsClosed k.now }
    ensures ok { IfOk result (λ c. callee_on h.now function k.now (in_use_from 1 k.now.claims) ≡ Ok (option_map judged_of c)) }
    ensures err { IfErr result (IsLimited (callee_on h.now function k.now (in_use_from 1 k.now.claims))) }
{
    let Some((number, claim)) = in_use(k.claims.as_slice()) else {
        return Ok(None);
    };
    let setting = own_kinds(alloc, k)?;
    let verdict = match judgement(alloc, h, k, &setting, claim) {
        Ok(verdict) => verdict,
        Err(fault) => return Err(fault),
    };
    Ok(Some(Judged {
        function,
        kernel: k,
        number,
        claim,
        verdict,
    }))
}

/// The first function's claim in use that isn't accepted, with its verdict; none where all of them are.
pub fn first_failing<'a>(
    alloc: Global,
    h: &Hardware,
    kernels: &'a [Kernel],
) -> Result<Option<Judged<'a>>, PreFault>
    requires hardware { IsHardware h.now }
    requires valid { AllByRecursion IsValid kernels.now }
    requires on { AllByRecursion (IsOn h.now) kernels.now }
    requires closed { AllByRecursion IsClosed kernels.now }
    ensures ok { IfOk result (λ o. Finds (callees_of h.now kernels.now) (option_map judged_of o)) }
    ensures err { IfErr result (IsLimited (callees_of h.now kernels.now)) }
{
    for (i, k) in kernels.iter().enumerate() {
        let callee = match callee_on(alloc, h, i, k) {
            Ok(callee) => callee,
            Err(fault) => return Err(fault),
        };
        if let Some(callee) = callee {
            if !callee.is_accepted() {
                return Ok(Some(callee));
            }
        }
    }
    Ok(None)
}
