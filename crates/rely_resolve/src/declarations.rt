//! What is wrong with the names of declarations and claims.
ghost use Rattle.std.specs.Prelude.{◌≡◌, ◌≤◌, map, length, []};
ghost use Rattle.rely_num.specs.Texts.{is_among};
ghost use Rattle.rely_tree.specs.Shape.{ident_shape, kind_shape, decl_shape, said_shape};
ghost use Rattle.rely_resolve.specs.Faults.{first_with, twice_faults, memory_faults, memories_faults, limit_faults, param_faults, needs_faults, claim_faults, claims_faults, size};
ghost use Rattle.rely_resolve.specs.Names.{names};

use crate::fault::{NameFault, noted, sooner};
use crate::names::{is_same, place_of_memory};
use crate::variables::Variables;
use rely_hard::MemSpec;
use rely_tree::{Decl, Ident, Kind, Said};

/// The most numbers that a function holds.
const MOST_HELD: u64 = 65_536;

// Whether one of the variables has the name.
fn is_named(name: &[u8], vars: &[Decl]) -> bool
    ensures { result ≡ is_among name.now (names (map decl_shape vars.now)) }
{
    for var in vars {
        if is_same(name, var.name.text) {
            return true;
        }
    }
    false
}

/// Variables that are named again.
#[tactic(auto, using(crate::proofs::Firsts::firsts))]
pub(crate) fn twice(vars: &[Decl], first: Option<NameFault>) -> Option<NameFault>
    ensures { result ≡ first_with first (twice_faults [] (map decl_shape vars.now)) }
{
    let mut first = first;
    for (i, var) in vars.iter().enumerate() {
        let again = is_named(var.name.text, &vars[..i]);
        first = noted(first, again, NameFault::Twice(var.name.span));
    }
    first
}

fn memory(memories: &[MemSpec], kind: Kind, first: Option<NameFault>) -> Option<NameFault>
    ensures { result ≡ first_with first (memory_faults memories.now (kind_shape kind.entry)) }
{
    match kind {
        Kind::Named(i) => noted(
            first,
            place_of_memory(i.text, memories).is_none(),
            NameFault::NoMemory(i.span),
        ),
        Kind::Plain | Kind::Free(_) => first,
    }
}

/// Memories that aren't listed.
#[tactic(auto, using(crate::proofs::Firsts::firsts))]
pub(crate) fn memories(
    listed: &[MemSpec],
    vars: &[Decl],
    first: Option<NameFault>,
) -> Option<NameFault>
    ensures { result ≡ first_with first (memories_faults listed.now (map decl_shape vars.now)) }
{
    let mut first = first;
    for var in vars {
        first = memory(listed, var.memory, first);
    }
    first
}

// How many numbers a variable holds.
fn size(var: &Decl) -> u32
    ensures { result ≡ size (decl_shape var.now) }
{
    match var.length {
        Some(length) => length,
        None => 1,
    }
}

/// The variable with which too many numbers are held.
pub(crate) fn limit(vars: &[Decl], first: Option<NameFault>) -> Option<NameFault>
    ensures { result ≡ first_with first (limit_faults 0 (map decl_shape vars.now)) }
{
    let mut held = 0;
    for var in vars {
        held += u64::from(size(var));
        if held > MOST_HELD {
            return sooner(first, NameFault::Limit(var.name.span));
        }
    }
    first
}

fn param(params: &Variables, i: &Ident, first: Option<NameFault>) -> Option<NameFault>
    ensures { result ≡ first_with first (param_faults (map decl_shape params.now.list.items) (ident_shape i.now)) }
{
    let missing = params.place(i.text).is_none();
    noted(first, missing, NameFault::ClaimParam(i.span))
}

#[tactic(auto, using(crate::proofs::Firsts::firsts))]
fn needs(params: &Variables, needs: &[Ident], first: Option<NameFault>) -> Option<NameFault>
    ensures { result ≡ first_with first (needs_faults (map decl_shape params.now.list.items) (map ident_shape needs.now)) }
{
    let mut first = first;
    for need in needs {
        first = param(params, need, first);
    }
    first
}

#[tactic(auto, using(crate::proofs::Firsts::firsts))]
fn claim(params: &Variables, claim: &Said, first: Option<NameFault>) -> Option<NameFault>
    ensures { result ≡ first_with first (claim_faults (map decl_shape params.now.list.items) (said_shape claim.now)) }
{
    match claim.target {
        Some(target) => {
            let first = param(params, &target, first);
            needs(params, claim.needs, first)
        }
        None => needs(params, claim.needs, first),
    }
}

/// Names of claims that are no parameters.
#[tactic(auto, using(crate::proofs::Firsts::firsts))]
pub(crate) fn claims(
    params: &Variables,
    claims: &[Said],
    first: Option<NameFault>,
) -> Option<NameFault>
    ensures { result ≡ first_with first (claims_faults (map decl_shape params.now.list.items) (map said_shape claims.now)) }
{
    let mut first = first;
    for one in claims {
        first = claim(params, one, first);
    }
    first
}
