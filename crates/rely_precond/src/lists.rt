//! Lists of conjuncts: copies of those of a predicate, and what a step of the walk makes of them.
ghost use Rattle.std.specs.Prelude.{◌≡◌, ◌-◌, ◌^◌, ◌++◌, [], ◌∷◌, bit_and, ◌==◌, false, not, filter, map, length, IfErr, IfOk, IfSome, IsNone, IsTrue};
ghost use Rattle.std.specs.List.{list_all};
ghost use Rattle.rely_kernel.specs.Machine.{parameters};
ghost use Rattle.rely_kernel.specs.Paths.{writes, skips, past, paths, use_of, at_start};
ghost use Rattle.rely_kernel.specs.Text.{expr_of, stmt_of};
ghost use Rattle.rely_kernel.specs.Valid.{IsValid};
ghost use Rattle.rely_loops.specs.Grown.{too_many};
ghost use Rattle.rely_precond.specs.Answers.{AreFew, IsFull};
ghost use Rattle.rely_precond.specs.InRange.{ExprInRange, StmtInRange, is_plain};
ghost use Rattle.rely_precond.specs.Places.{line_of};
ghost use Rattle.rely_precond.specs.Walk.{changed};

use crate::fault::PreFault;
use crate::growth::{through, use_of};
use crate::written::Marked;
use rely_kernel::{Ex, Kernel, StKind};
use rely_num::{Conj, List, Span, VarSet};
use std::alloc::Global;
use std::mem::replace;

fn copy(alloc: Global, c: &Conj) -> Result<Conj, PreFault>
    ensures ok { IfOk result (λ d. d ≡ c.now) }
    ensures err { IfErr result (λ f. f ≡ PreFault.Memory) }
{
    let counts = Vec::from_slice(alloc, c.counts.as_slice())?;
    Ok(Conj {
        counts: List::from_vec(counts),
        vars: c.vars,
    })
}

/// A list with copies of conjuncts behind it.
pub(crate) fn with_copies(
    alloc: Global,
    list: Vec<Conj>,
    conjs: &[Conj],
) -> Result<Vec<Conj>, PreFault>
    ensures ok { IfOk result (λ longer. longer.items ≡ list.items ++ conjs.now) }
    ensures err { IfErr result (λ f. f ≡ PreFault.Memory) }
{
    let mut longer = list;
    for c in conjs {
        longer.push(copy(alloc, c)?)?;
    }
    Ok(longer)
}

fn is_skipped(written: VarSet, c: &Conj) -> bool
    ensures { result ≡ (bit_and written.bits c.now.vars.bits == 0) }
{
    written.bits & c.vars.bits == 0
}

/// Whether no conjunct has one of these variables.
pub(crate) fn are_skipped(written: VarSet, conjs: &[Conj]) -> bool
    ensures { result ≡ list_all (λ c. bit_and written.bits c.vars.bits == 0) conjs.now }
{
    conjs.iter().all(|c| is_skipped(written, c))
}

/// The conjuncts that have none of these variables, and those that have one of them.
pub(crate) fn parted(
    alloc: Global,
    written: VarSet,
    conjs: Vec<Conj>,
) -> Result<(Vec<Conj>, Vec<Conj>), PreFault>
    ensures others { IfOk result (λ p. p.0.items ≡ filter (λ c. bit_and written.bits c.vars.bits == 0) conjs.items) }
    ensures own { IfOk result (λ p. p.1.items ≡ filter (λ c. not (bit_and written.bits c.vars.bits == 0)) conjs.items) }
    ensures err { IfErr result (λ f. f ≡ PreFault.Memory) }
{
    let mut others = Vec::new(alloc);
    let mut own = Vec::new(alloc);
    for c in conjs {
        if is_skipped(written, &c) {
            others.push(c)?;
        } else {
            own.push(c)?;
        }
    }
    Ok((others, own))
}

/// A list with another behind it.
pub(crate) fn joined(list: Vec<Conj>, more: Vec<Conj>) -> Result<Vec<Conj>, PreFault>
    ensures ok { IfOk result (λ longer. longer.items ≡ list.items ++ more.items) }
    ensures err { IfErr result (λ f. f ≡ PreFault.Memory) }
{
    if list.is_empty() {
        return Ok(more);
    }
    let mut longer = list;
    for c in more {
        longer.push(c)?;
    }
    Ok(longer)
}

/// A list with conjuncts behind it that have the labels and the names of a condition added.
pub(crate) fn with_tested(
    k: &Kernel,
    at: Span,
    e: &Ex,
    list: Vec<Conj>,
    conjs: Vec<Conj>,
) -> Result<Vec<Conj>, PreFault>
    requires valid { IsValid k.now }
    requires in_range { ExprInRange k.now (expr_of e.now) }
    requires some { too_many list.items ≡ false }
    requires few { too_many conjs.items ≡ false }
    ensures few { IfOk result (λ longer. too_many longer.items ≡ false) }
    ensures ok { IfOk result (λ longer. longer.items ≡ list.items ++ map (use_of k.now (expr_of e.now)) conjs.items) }
    ensures err { IfErr result (λ f. IsFull at (map (use_of k.now (expr_of e.now)) conjs.items) f) }
{
    let mut longer = list;
    for c in conjs {
        let Some(tested) = use_of(k, e, c) else {
            return Err(PreFault::Count(at));
        };
        longer.push(tested)?;
    }
    Ok(longer)
}

// The one path of a conjunct through a statement that is neither a choice nor a loop, or past it.
fn past(k: &Kernel, what: &StKind, written: VarSet, c: Conj) -> Option<Conj>
    requires valid { IsValid k.now }
    requires in_range { StmtInRange k.now (stmt_of what.now) }
    requires plain { IsTrue (is_plain (stmt_of what.now)) }
    requires written { written.bits ≡ writes (stmt_of what.now) }
    requires few { AreFew c.counts }
    ensures few { IfSome result (λ d. AreFew d.counts) }
    ensures path { IfSome result (λ d. past (skips (stmt_of what.now) c) (paths k.now (stmt_of what.now)) c ≡ d ∷ []) }
    ensures full { IsNone result → IsTrue (too_many (past (skips (stmt_of what.now) c) (paths k.now (stmt_of what.now)) c)) }
{
    if is_skipped(written, &c) {
        return Some(c);
    }
    through(k, what, c)
}

/// What a statement that is neither a choice nor a loop makes of each conjunct, in the memory of the list.
pub(crate) fn changed(
    alloc: Global,
    k: &Kernel,
    statement: &Marked,
    conjs: Vec<Conj>,
) -> Result<Vec<Conj>, PreFault>
    requires valid { IsValid k.now }
    requires in_range { StmtInRange k.now (stmt_of statement.now.what.now) }
    requires plain { IsTrue (is_plain (stmt_of statement.now.what.now)) }
    requires few { too_many conjs.items ≡ false }
    ensures ok { IfOk result (λ list. list.items ≡ changed k.now (line_of statement.now.what.now) conjs.items) }
    ensures few { IfOk result (λ list. too_many list.items ≡ false) }
    ensures err { IfErr result (λ f. IsFull statement.now.at (changed k.now (line_of statement.now.what.now) conjs.items) f) }
{
    let mut list = conjs;
    for i in 0..list.len() {
        let c = replace(&mut list[i], nothing(alloc));
        let Some(next) = past(k, statement.what, statement.written, c) else {
            return Err(PreFault::Count(statement.at));
        };
        list[i] = next;
    }
    Ok(list)
}

// Nothing counted and no variable. It takes no memory.
fn nothing(alloc: Global) -> Conj {
    Conj {
        counts: List::from_vec(Vec::new(alloc)),
        vars: VarSet::EMPTY,
    }
}

/// The conjuncts with only the parameters kept of their variables.
pub(crate) fn at_start(alloc: Global, k: &Kernel, conjs: &[Conj]) -> Result<Vec<Conj>, PreFault>
    requires { IsValid k.now }
    ensures ok { IfOk result (λ list. list.items ≡ map (at_start k.now) conjs.now) }
    ensures err { IfErr result (λ f. f ≡ PreFault.Memory) }
{
    let parameters = parameters(k);
    let mut list = Vec::new(alloc);
    for c in conjs {
        let counts = Vec::from_slice(alloc, c.counts.as_slice())?;
        list.push(Conj {
            counts: List::from_vec(counts),
            vars: VarSet {
                bits: c.vars.bits & parameters.bits,
            },
        })?;
    }
    Ok(list)
}

fn parameters(k: &Kernel) -> VarSet
    requires { IsValid k.now }
    ensures { result.bits ≡ 2 ^ length (parameters k.now) - 1 }
{
    VarSet {
        bits: (1 << first_local(k)) - 1,
    }
}

fn first_local(k: &Kernel) -> usize
    ensures { result ≡ length (parameters k.now) }
{
    k.vars.as_slice().iter().filter(|var| var.param).count()
}
