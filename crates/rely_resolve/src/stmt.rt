//! Statements with numbers in place of names.
ghost use Rattle.std.specs.Prelude.{◌≡◌, ◌≤◌, ◌+◌, ◌++◌, ◌∷◌, [], map, length, IfOk, OnOk};
ghost use Rattle.rely_hard.specs.Valid.{IsHardware};
ghost use Rattle.rely_tree.specs.Shape.{ident_shape, expr_shape, stmt_shape, block_shape, decl_shape, func_shape};
ghost use Rattle.rely_tree.specs.Counts.{expr_operators, exprs_operators, stmt_operators, block_operators, stmt_calls, block_calls};
ghost use Rattle.rely_resolve.specs.Kernels.{ex_of, exs_of, kind_of, sts_of, start_of, expr_sites, exprs_sites, stmt_sites, block_sites, call_site, stmt_sites_called, block_sites_called, done_of};
ghost use Rattle.rely_tree.specs.Limits.{IsExpr, HasNumbers, HaveNumbers};
ghost use Rattle.rely_resolve.specs.Names.{names, number_of};
ghost use Rattle.std.specs.List.{AllByRecursion};

use crate::calls::call_site;
use crate::expr::{expr, exprs};
use crate::scope::{Made, Means};
use rely_kernel::{CallSite, Site, St, StKind};
use rely_num::{List, Span};
use rely_tree::{Expr, Ident, Stmt};
use std::alloc::AllocError;

/// The span of the first token.
#[tactic(auto, using(rely_tree::proofs::Shapes::shapes))]
fn start_of(s: &Stmt) -> Span
    ensures { result ≡ start_of (stmt_shape s.now) }
{
    match *s {
        Stmt::Set(at, _, _)
        | Stmt::SetElem(at, _, _, _)
        | Stmt::If(at, _, _, _)
        | Stmt::While(at, _, _, _)
        | Stmt::Repeat(at, _, _)
        | Stmt::Return(at, _)
        | Stmt::Call(at, _, _, _, _) => at,
    }
}

/// A scalar that is set.
fn set(means: &Means, sites: &mut Vec<Site>, i: Ident, value: &Expr) -> Result<StKind, AllocError>
    requires hardware { IsHardware means.now.h.now }
    requires numbers { IsExpr (expr_shape value.now) }
    requires room { length sites.old.items + expr_operators (expr_shape value.now) ≤ 256 }
    ensures ok { let vs = names (map decl_shape means.now.vars.now.list.items) in
        let value = ex_of vs (length sites.old.items) (expr_shape value.now) in
        IfOk result (λ x. x ≡ StKind.Set (number_of i.entry.text.now vs) value) }
    ensures sites { let more = expr_sites means.now.h.now (expr_shape value.now) in
        OnOk result (sites.new.items ≡ sites.old.items ++ more) }
    ensures len { let more = expr_operators (expr_shape value.now) in
        OnOk result (length sites.new.items ≡ length sites.old.items + more) }
{
    let value = expr(means, sites, value)?;
    Ok(StKind::Set(means.vars.number(i.text), value))
}

/// An array's element that is set.
fn set_elem(
    means: &Means,
    sites: &mut Vec<Site>,
    i: Ident,
    index: &Expr,
    value: &Expr,
) -> Result<StKind, AllocError>
    requires hardware { IsHardware means.now.h.now }
    requires index { IsExpr (expr_shape index.now) }
    requires value { IsExpr (expr_shape value.now) }
    requires room { let first = expr_operators (expr_shape index.now) in
        let more = first + expr_operators (expr_shape value.now) in
        length sites.old.items + more ≤ 256 }
    ensures ok { let vs = names (map decl_shape means.now.vars.now.list.items) in
        let n = length sites.old.items in
        let next = n + expr_operators (expr_shape index.now) in
        let first = ex_of vs n (expr_shape index.now) in
        let second = ex_of vs next (expr_shape value.now) in
        IfOk result (λ x. x ≡ StKind.SetElem (number_of i.entry.text.now vs) first second) }
    ensures sites { let h = means.now.h.now in
        let more = expr_sites h (expr_shape index.now) ++ expr_sites h (expr_shape value.now) in
        OnOk result (sites.new.items ≡ sites.old.items ++ more) }
    ensures len { let first = expr_operators (expr_shape index.now) in
        let more = first + expr_operators (expr_shape value.now) in
        OnOk result (length sites.new.items ≡ length sites.old.items + more) }
{
    let index = expr(means, sites, index)?;
    let value = expr(means, sites, value)?;
    Ok(StKind::SetElem(means.vars.number(i.text), index, value))
}

/// A value that is returned.
fn returned(means: &Means, sites: &mut Vec<Site>, value: &Expr) -> Result<StKind, AllocError>
    requires hardware { IsHardware means.now.h.now }
    requires numbers { IsExpr (expr_shape value.now) }
    requires room { length sites.old.items + expr_operators (expr_shape value.now) ≤ 256 }
    ensures ok { let vs = names (map decl_shape means.now.vars.now.list.items) in
        let value = ex_of vs (length sites.old.items) (expr_shape value.now) in
        IfOk result (λ x. x ≡ StKind.Result value) }
    ensures sites { let more = expr_sites means.now.h.now (expr_shape value.now) in
        OnOk result (sites.new.items ≡ sites.old.items ++ more) }
    ensures len { let more = expr_operators (expr_shape value.now) in
        OnOk result (length sites.new.items ≡ length sites.old.items + more) }
{
    let value = expr(means, sites, value)?;
    Ok(StKind::Result(value))
}

/// One more call place, and its number.
fn push_call(
    means: &Means,
    calls: &mut Vec<CallSite>,
    word: Span,
    callee: Ident,
) -> Result<u32, AllocError>
    requires done { length means.now.done.now ≤ 64 }
    requires places { length calls.old.items ≤ 255 }
    ensures number { IfOk result (λ n. n ≡ length calls.old.items) }
    ensures calls { let done = done_of (map func_shape means.now.done.now) means.now.kernels.now in
        let one = call_site done word (ident_shape callee.entry) in
        OnOk result (calls.new.items ≡ calls.old.items ++ one ∷ []) }
    ensures len { OnOk result (length calls.new.items ≡ length calls.old.items + 1) }
{
    let place = calls.len() as u32;
    calls.push(call_site(means, word, callee))?;
    Ok(place)
}

/// A scalar that is set by the call of that place.
fn call(
    means: &Means,
    sites: &mut Vec<Site>,
    i: Ident,
    place: u32,
    args: &[Expr],
) -> Result<StKind, AllocError>
    requires hardware { IsHardware means.now.h.now }
    requires numbers { AllByRecursion IsExpr (map expr_shape args.now) }
    requires room { length sites.old.items + exprs_operators (map expr_shape args.now) ≤ 256 }
    ensures ok { let vs = names (map decl_shape means.now.vars.now.list.items) in
        let args = exs_of vs (length sites.old.items) (map expr_shape args.now) in
        IfOk result (λ x. x ≡ StKind.Call (number_of i.entry.text.now vs) place args) }
    ensures sites { let more = exprs_sites means.now.h.now (map expr_shape args.now) in
        OnOk result (sites.new.items ≡ sites.old.items ++ more) }
    ensures len { let more = exprs_operators (map expr_shape args.now) in
        OnOk result (length sites.new.items ≡ length sites.old.items + more) }
{
    let args = exprs(means, sites, args)?;
    Ok(StKind::Call(means.vars.number(i.text), place, args))
}

#[cycle(stmt)]
#[tactic(auto, using(rely_tree::proofs::Shapes::shapes, crate::proofs::Counted::joins))]
fn stmt(means: &Means, made: &mut Made, s: &Stmt) -> Result<StKind, AllocError>
    requires hardware { IsHardware means.now.h.now }
    requires done { length means.now.done.now ≤ 64 }
    requires numbers { HasNumbers (stmt_shape s.now) }
    requires room { length made.old.sites.items + stmt_operators (stmt_shape s.now) ≤ 256 }
    requires places { length made.old.calls.items + stmt_calls (stmt_shape s.now) ≤ 256 }
    ensures ok { IfOk result (λ x. x ≡ kind_of (names (map decl_shape means.now.vars.now.list.items)) (length made.old.sites.items) (length made.old.calls.items) (stmt_shape s.now)) }
    ensures sites { OnOk result (made.new.sites.items ≡ made.old.sites.items ++ stmt_sites means.now.h.now (stmt_shape s.now)) }
    ensures sites_len { OnOk result (length made.new.sites.items ≡ length made.old.sites.items + stmt_operators (stmt_shape s.now)) }
    ensures calls { OnOk result (made.new.calls.items ≡ made.old.calls.items ++ stmt_sites_called (done_of (map func_shape means.now.done.now) means.now.kernels.now) (stmt_shape s.now)) }
    ensures calls_len { OnOk result (length made.new.calls.items ≡ length made.old.calls.items + stmt_calls (stmt_shape s.now)) }
{
    match *s {
        Stmt::Set(_, i, value) => set(means, &mut made.sites, i, &value),
        Stmt::SetElem(_, i, index, value) => set_elem(means, &mut made.sites, i, &index, &value),
        Stmt::If(_, test, held, other) => {
            let test = expr(means, &mut made.sites, &test)?;
            let held = block(means, made, held)?;
            let other = block(means, made, other)?;
            Ok(StKind::If(test, held, other))
        }
        Stmt::While(_, test, most, body) => {
            let test = expr(means, &mut made.sites, &test)?;
            let body = block(means, made, body)?;
            Ok(StKind::While(test, most, body))
        }
        Stmt::Repeat(_, turns, body) => {
            let body = block(means, made, body)?;
            Ok(StKind::Repeat(turns, body))
        }
        Stmt::Return(_, value) => returned(means, &mut made.sites, &value),
        Stmt::Call(_, i, word, callee, args) => {
            let place = push_call(means, &mut made.calls, word, callee)?;
            call(means, &mut made.sites, i, place, args)
        }
    }
}

/// Statements in order, whose sites and call places join the others.
#[cycle(stmt)]
pub(crate) fn block(means: &Means, made: &mut Made, ss: &[Stmt]) -> Result<List<St>, AllocError>
    requires hardware { IsHardware means.now.h.now }
    requires done { length means.now.done.now ≤ 64 }
    requires numbers { HaveNumbers (block_shape ss.now) }
    requires room { length made.old.sites.items + block_operators (block_shape ss.now) ≤ 256 }
    requires places { length made.old.calls.items + block_calls (block_shape ss.now) ≤ 256 }
    ensures ok { IfOk result (λ x. x ≡ sts_of (names (map decl_shape means.now.vars.now.list.items)) (length made.old.sites.items) (length made.old.calls.items) (block_shape ss.now)) }
    ensures sites { OnOk result (made.new.sites.items ≡ made.old.sites.items ++ block_sites means.now.h.now (block_shape ss.now)) }
    ensures sites_len { OnOk result (length made.new.sites.items ≡ length made.old.sites.items + block_operators (block_shape ss.now)) }
    ensures calls { OnOk result (made.new.calls.items ≡ made.old.calls.items ++ block_sites_called (done_of (map func_shape means.now.done.now) means.now.kernels.now) (block_shape ss.now)) }
    ensures calls_len { OnOk result (length made.new.calls.items ≡ length made.old.calls.items + block_calls (block_shape ss.now)) }
{
    let mut all = Vec::new(means.alloc);
    for s in ss {
        let what = stmt(means, made, s)?;
        all.push(St {
            at: start_of(s),
            what,
        })?;
    }
    Ok(List::from_vec(all))
}
