//! The kernel of one function.
ghost use Rattle.std.specs.Prelude.{◌≡◌, ◌≤◌, ◌++◌, map, length, option_map, true, false, IfOk, OnOk};
ghost use Rattle.std.specs.Option.{option_map_or};
ghost use Rattle.rely_hard.specs.Valid.{IsHardware};
ghost use Rattle.rely_tree.specs.Tree.{variables};
ghost use Rattle.rely_tree.specs.Shape.{ident_shape, kind_shape, decl_shape, said_shape, func_shape};
ghost use Rattle.rely_resolve.specs.Kernels.{slot_of, var_of, needs_of, claim_of, kernel_of, done_of};
ghost use Rattle.rely_tree.specs.Limits.{IsFunction};
ghost use Rattle.rely_resolve.specs.Linked.{fault_of};
ghost use Rattle.rely_resolve.specs.Names.{number_of, names, memory_names};

use crate::declarations::{claims as claims_faults, limit, memories, twice};
use crate::expr::mark_of;
use crate::fault::NameFault;
use crate::names::place_of_memory;
use crate::scope::{Made, Means, Scope};
use crate::stmt::block;
use crate::texts::block as block_faults;
use crate::variables::Variables;
use rely_hard::{Hardware, MemSpec};
use rely_kernel::{Claim, Kernel, Slot, Var};
use rely_num::{List, VarSet};
use rely_tree::{Decl, Func, Ident, Kind, Said};
use std::alloc::{AllocError, Global};

/// The number of a memory, 0 where it isn't listed.
fn number_of_memory(name: &[u8], memories: &[MemSpec]) -> u8
    requires { length memories.now ≤ 32 }
    ensures { result ≡ number_of name.now (memory_names memories.now) }
{
    match place_of_memory(name, memories) {
        Some(place) => place as u8,
        None => 0,
    }
}

fn slot_of_memory(memories: &[MemSpec], kind: Kind) -> Slot
    requires { length memories.now ≤ 32 }
    ensures { result ≡ slot_of (memory_names memories.now) (kind_shape kind.entry) }
{
    match kind {
        Kind::Plain => Slot::Named(number_of_memory(b"exact", memories)),
        Kind::Named(i) => Slot::Named(number_of_memory(i.text, memories)),
        Kind::Free(_) => Slot::Free,
    }
}

fn var(alloc: Global, h: &Hardware, param: bool, decl: &Decl) -> Result<Var, AllocError>
    requires { IsHardware h.now }
    ensures { IfOk result (λ v. v ≡ var_of h.now param (decl_shape decl.now)) }
{
    let name = Vec::from_slice(alloc, decl.name.text)?;
    Ok(Var {
        name: List::from_vec(name),
        length: decl.length,
        param,
        memory: slot_of_memory(h.memories.as_slice(), decl.memory),
        mark: mark_of(decl.memory),
    })
}

/// More variables behind these.
fn push_vars(
    alloc: Global,
    h: &Hardware,
    param: bool,
    decls: &[Decl],
    vars: &mut Vec<Var>,
) -> Result<(), AllocError>
    requires { IsHardware h.now }
    ensures { OnOk result (vars.new.items ≡ vars.old.items ++ map (var_of h.now param) (map decl_shape decls.now)) }
{
    for decl in decls {
        let one = var(alloc, h, param, decl)?;
        vars.push(one)?;
    }
    Ok(())
}

/// The parameters, then the locals.
fn vars_of(alloc: Global, h: &Hardware, f: &Func) -> Result<List<Var>, AllocError>
    requires { IsHardware h.now }
    ensures { let f = func_shape f.now in
        IfOk result (λ vs. vs ≡ map (var_of h.now true) f.params ++ map (var_of h.now false) f.locals) }
{
    let mut vars = Vec::new(alloc);
    push_vars(alloc, h, true, f.params, &mut vars)?;
    push_vars(alloc, h, false, f.locals, &mut vars)?;
    Ok(List::from_vec(vars))
}

/// A set with the named parameters.
fn needs_of(params: &Variables, needs: &[Ident]) -> VarSet
    ensures { result.bits ≡ needs_of (names (map decl_shape params.now.list.items)) 0 (map ident_shape needs.now) }
{
    let mut set = VarSet::EMPTY;
    for need in needs {
        set = set.with(params.number(need.text));
    }
    set
}

/// The result's number, or that of a parameter.
fn target_of(params: &Variables, target: Option<Ident>) -> u32
    ensures { result ≡ option_map_or (λ i. number_of i.text (names (map decl_shape params.now.list.items))) (option_map ident_shape target.entry) 63 }
{
    match target {
        Some(name) => params.number(name.text),
        None => 63,
    }
}

fn claim_of(params: &Variables, claim: &Said) -> Claim
    ensures { result ≡ claim_of (names (map decl_shape params.now.list.items)) (said_shape claim.now) }
{
    Claim {
        target: target_of(params, claim.target),
        bound: claim.bound,
        needs: needs_of(params, claim.needs),
    }
}

fn claims_of(alloc: Global, params: &Variables, claims: &[Said]) -> Result<List<Claim>, AllocError>
    ensures { IfOk result (λ cs. cs ≡ map (claim_of (names (map decl_shape params.now.list.items))) (map said_shape claims.now)) }
{
    let mut all = Vec::new(alloc);
    for claim in claims {
        all.push(claim_of(params, claim))?;
    }
    Ok(List::from_vec(all))
}

/// What is wrong first with the names of a function.
pub(crate) fn fault_of(scope: &Scope, f: &Func) -> Option<NameFault>
    requires vars { map decl_shape scope.now.vars.now.list.items ≡ variables (func_shape f.now) }
    requires params { scope.now.params.now.list.items ≡ f.now.params.now }
    ensures { result ≡ fault_of scope.now.h.now (map func_shape scope.now.earlier.now) (func_shape f.now) }
{
    let first = twice(scope.vars.list.as_slice(), None);
    let first = memories(
        scope.h.memories.as_slice(),
        scope.vars.list.as_slice(),
        first,
    );
    let first = limit(scope.vars.list.as_slice(), first);
    let first = claims_faults(scope.params, f.claims, first);
    block_faults(scope, f.body, first)
}

/// The kernel of a function whose names are as they must be.
#[tactic(auto, using(crate::proofs::Numbers::numbers_of_body))]
pub(crate) fn kernel_of(means: &Means, f: &Func) -> Result<Kernel, AllocError>
    requires hardware { IsHardware means.now.h.now }
    requires function { IsFunction (func_shape f.now) }
    requires vars { map decl_shape means.now.vars.now.list.items ≡ variables (func_shape f.now) }
    requires params { means.now.params.now.list.items ≡ f.now.params.now }
    requires done { length means.now.done.now ≤ 64 }
    ensures { IfOk result (λ k. k ≡ kernel_of means.now.h.now (done_of (map func_shape means.now.done.now) means.now.kernels.now) (func_shape f.now)) }
{
    let alloc = means.alloc;
    let vars = vars_of(alloc, means.h, f)?;
    let claims = claims_of(alloc, means.params, f.claims)?;
    let mut made = Made {
        sites: Vec::new(alloc),
        calls: Vec::new(alloc),
    };
    let body = block(means, &mut made, f.body)?;
    let Made { sites, calls } = made;
    Ok(Kernel {
        name: f.name.span,
        vars,
        sites: List::from_vec(sites),
        calls: List::from_vec(calls),
        body,
        claims,
    })
}
