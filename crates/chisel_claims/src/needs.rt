//! The predicates of all claims of a function, and the first variable that a claim doesn't need and that it should.

ghost use Rattle.std.specs.Prelude.{◌≡◌, ◌≤◌, IfOk, IfErr, None, OnOk, length, map};
ghost use Rattle.std.specs.List.{AllZip};
ghost use Rattle.rely_kernel.specs.Valid.{IsValid};
ghost use Rattle.chisel_claims.specs.Needs.{IsFirstLimit, first_limit, first_needs};
ghost use Rattle.rely_precond.specs.Answers.{IsPredicateOf};

use rely_kernel::{Claim, Kernel};
use rely_precond::{PreFault, generate};
use rely_predicate::Predicate;
use rely_verdict::first_outside;
use std::alloc::Global;

/// The predicate of each claim of the kernel, in order, unless a walk reaches a limit.
pub fn predicates(alloc: Global, k: &Kernel) -> Result<Vec<Predicate>, PreFault>
    requires { IsValid k.now }
    ensures ok { IfOk result (λ ps. AllZip (λ c p. IsPredicateOf k.now c.target p) k.now.claims ps.items) }
    ensures unlimited { OnOk result (first_limit k.now k.now.claims ≡ None) }
    ensures err { IfErr result (IsFirstLimit k.now k.now.claims) }
{
    let mut predicates = Vec::new(alloc);
    for claim in k.claims.as_slice() {
        match generate(alloc, k, claim) {
            Ok(predicate) => predicates.push(predicate)?,
            Err(fault) => return Err(fault),
        }
    }
    Ok(predicates)
}

/// The number of the first claim, from 1, that has a conjunct with a variable outside its needs, and the least such variable
/// of the first such conjunct.
pub fn first_needs(claims: &[Claim], predicates: &[Predicate]) -> Option<(u32, u32)>
    requires few { length claims.now ≤ 8 }
    requires each { length predicates.now ≡ length claims.now }
    ensures { result ≡ first_needs 1 claims.now (map (λ p. p.conjs) predicates.now) }
{
    for (i, claim) in claims.iter().enumerate() {
        if let Some(var) = first_outside(claim.needs, predicates[i].conjs()) {
            return Some((i as u32 + 1, var));
        }
    }
    None
}
