ghost use Rattle.std.specs.Prelude.{◌≡◌, ◌<◌, [], ◌∷◌, Contains, IfErr, IfOk};
ghost use Rattle.rely_kernel.specs.Paths.{claimed};
ghost use Rattle.rely_kernel.specs.Valid.{IsValid};
ghost use Rattle.rely_precond.specs.Answers.{IsPredicateOf, IsStop};
ghost use Rattle.rely_precond.specs.Walk.{walk_claim};

use crate::fault::PreFault;
use crate::lists::at_start;
use crate::standing::{Listed, of_few};
use crate::statement::walk_all;
use crate::written::{Text, sets_of};
use rely_kernel::{Claim, Kernel, labels};
use rely_num::{Conj, List, VarSet};
use rely_predicate::Predicate;
use std::alloc::Global;

/// The conjuncts of all paths of a claim that no other covers, over the function's parameters.
///
/// It isn't empty, and each of its counts is below 2^36. Three limits keep the work bounded: the first one that the walk
/// meets is answered, with the statement at which it does, and with the loop for its turns. At one point a count comes before
/// the number of conjuncts, and that before the work.
pub fn generate(alloc: Global, k: &Kernel, c: &Claim) -> Result<Predicate, PreFault>
    requires valid { IsValid k.now }
    requires own { Contains k.now.claims c.now }
    ensures ok { IfOk result (λ p. IsPredicateOf k.now c.now.target p) }
    ensures refused { IfErr result (λ f. IsStop (walk_claim k.now c.now.target) f) }
{
    let claimed = claimed(alloc, k, c.target)?;
    let listed = Listed {
        list: of_few(alloc, labels(k), claimed)?,
        work: 0,
    };
    let sets = sets_of(alloc, k.body.as_slice())?;
    let text = Text {
        body: k.body.as_slice(),
        sets: &sets,
    };
    let walked = walk_all(alloc, k, text, listed)?;
    let list = at_start(alloc, k, walked.list.conjs())?;
    of_few(alloc, labels(k), list)
}

// The target alone, with nothing counted.
fn claimed(alloc: Global, k: &Kernel, target: u32) -> Result<Vec<Conj>, PreFault>
    requires valid { IsValid k.now }
    requires in_range { target < 64 }
    ensures ok { IfOk result (λ list. list.items ≡ claimed k.now target ∷ []) }
    ensures err { IfErr result (λ f. f ≡ PreFault.Memory) }
{
    let counts = vec![in alloc; 0u64; labels(k) as usize]?;
    let mut list = Vec::new(alloc);
    list.push(Conj {
        counts: List::from_vec(counts),
        vars: VarSet::EMPTY.with(target),
    })?;
    Ok(list)
}
