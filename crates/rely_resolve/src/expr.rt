//! Expressions with numbers in place of names.
ghost use Rattle.std.specs.Prelude.{◌≡◌, ◌≤◌, ◌+◌, ◌++◌, ◌∷◌, [], map, length, IfOk, OnOk};
ghost use Rattle.rely_hard.specs.Valid.{IsHardware};
ghost use Rattle.rely_tree.specs.Shape.{kind_shape, expr_shape, decl_shape};
ghost use Rattle.rely_tree.specs.Counts.{expr_operators, exprs_operators};
ghost use Rattle.rely_resolve.specs.Kernels.{ex_of, exs_of, expr_sites, exprs_sites, mark_of, site_of, slot_of};
ghost use Rattle.rely_tree.specs.Limits.{IsExpr};
ghost use Rattle.std.specs.List.{AllByRecursion};
ghost use Rattle.rely_resolve.specs.Names.{names, number_of, kind_names};

use crate::names::place_of_kind;
use crate::scope::Means;
use rely_hard::{Hardware, KindSpec};
use rely_kernel::{Ex, Site, Slot, kinds_of};
use rely_num::{List, Op, Span};
use rely_tree::{Expr, Ident, Kind};
use sqlite_items::Boxed;
use std::alloc::{AllocError, Global};

/// The span of what stands nowhere.
const NOWHERE: Span = Span { from: 0, to: 0 };

/// The `?` of an open kind or memory.
pub(crate) fn mark_of(kind: Kind) -> Span
    ensures { result ≡ mark_of (kind_shape kind.entry) }
{
    match kind {
        Kind::Free(span) => span,
        Kind::Plain | Kind::Named(_) => NOWHERE,
    }
}

/// The number of a kind, 0 where it isn't listed.
fn number_of_kind(name: &[u8], kinds: &[KindSpec]) -> u8
    requires { length kinds.now ≤ 32 }
    ensures { result ≡ number_of name.now (kind_names kinds.now) }
{
    match place_of_kind(name, kinds) {
        Some(place) => place as u8,
        None => 0,
    }
}

fn slot_of_kind(kinds: &[KindSpec], kind: Kind) -> Slot
    requires { length kinds.now ≤ 32 }
    ensures { result ≡ slot_of (kind_names kinds.now) (kind_shape kind.entry) }
{
    match kind {
        Kind::Plain => Slot::Named(number_of_kind(b"exact", kinds)),
        Kind::Named(i) => Slot::Named(number_of_kind(i.text, kinds)),
        Kind::Free(_) => Slot::Free,
    }
}

fn site_of(h: &Hardware, op: Op, kind: Kind) -> Site
    requires { IsHardware h.now }
    ensures { result ≡ site_of h.now op (kind_shape kind.entry) }
{
    Site {
        op,
        kind: slot_of_kind(kinds_of(h, op), kind),
        mark: mark_of(kind),
    }
}

/// One more site, and its number.
fn push_site(h: &Hardware, sites: &mut Vec<Site>, op: Op, kind: Kind) -> Result<u32, AllocError>
    requires hardware { IsHardware h.now }
    requires room { length sites.old.items ≤ 255 }
    ensures number { IfOk result (λ n. n ≡ length sites.old.items) }
    ensures sites { let one = site_of h.now op (kind_shape kind.entry) in
        OnOk result (sites.new.items ≡ sites.old.items ++ one ∷ []) }
    ensures len { OnOk result (length sites.new.items ≡ length sites.old.items + 1) }
{
    let site = sites.len() as u32;
    sites.push(site_of(h, op, kind))?;
    Ok(site)
}

/// An array's element.
fn element(means: &Means, i: Ident, index: Ex) -> Result<Ex, AllocError>
    ensures { let vs = names (map decl_shape means.now.vars.now.list.items) in
        IfOk result (λ x. x ≡ Ex.Elem (number_of i.entry.text.now vs) index) }
{
    let index = Boxed::new(means.alloc, index)?;
    Ok(Ex::Elem(means.vars.number(i.text), index))
}

/// An operator with its operands.
fn operation(alloc: Global, site: u32, left: Ex, right: Ex) -> Result<Ex, AllocError>
    ensures { IfOk result (λ x. x ≡ Ex.Bin site left right) }
{
    let left = Boxed::new(alloc, left)?;
    let right = Boxed::new(alloc, right)?;
    Ok(Ex::Bin(site, left, right))
}

/// An expression, whose sites join the others.
pub(crate) fn expr(means: &Means, sites: &mut Vec<Site>, e: &Expr) -> Result<Ex, AllocError>
    requires hardware { IsHardware means.now.h.now }
    requires numbers { IsExpr (expr_shape e.now) }
    requires room { length sites.old.items + expr_operators (expr_shape e.now) ≤ 256 }
    ensures ok { IfOk result (λ x. x ≡ ex_of (names (map decl_shape means.now.vars.now.list.items)) (length sites.old.items) (expr_shape e.now)) }
    ensures sites { OnOk result (sites.new.items ≡ sites.old.items ++ expr_sites means.now.h.now (expr_shape e.now)) }
    ensures len { OnOk result (length sites.new.items ≡ length sites.old.items + expr_operators (expr_shape e.now)) }
{
    match *e {
        Expr::Num(number) => Ok(Ex::Num(number as i64)),
        Expr::Name(i) => Ok(Ex::Read(means.vars.number(i.text))),
        Expr::Elem(i, index) => {
            let index = expr(means, sites, index)?;
            element(means, i, index)
        }
        Expr::Bin(op, _, kind, left, right) => {
            let left = expr(means, sites, left)?;
            let site = push_site(means.h, sites, op, kind)?;
            let right = expr(means, sites, right)?;
            operation(means.alloc, site, left, right)
        }
    }
}

/// Expressions in order, whose sites join the others.
pub(crate) fn exprs(
    means: &Means,
    sites: &mut Vec<Site>,
    es: &[Expr],
) -> Result<List<Ex>, AllocError>
    requires hardware { IsHardware means.now.h.now }
    requires numbers { AllByRecursion IsExpr (map expr_shape es.now) }
    requires room { length sites.old.items + exprs_operators (map expr_shape es.now) ≤ 256 }
    ensures ok { IfOk result (λ xs. xs ≡ exs_of (names (map decl_shape means.now.vars.now.list.items)) (length sites.old.items) (map expr_shape es.now)) }
    ensures sites { OnOk result (sites.new.items ≡ sites.old.items ++ exprs_sites means.now.h.now (map expr_shape es.now)) }
    ensures len { OnOk result (length sites.new.items ≡ length sites.old.items + exprs_operators (map expr_shape es.now)) }
{
    let mut all = Vec::new(means.alloc);
    for e in es {
        let one = expr(means, sites, e)?;
        all.push(one)?;
    }
    Ok(List::from_vec(all))
}
