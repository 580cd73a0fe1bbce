//! What is wrong with the names of expressions and statements.
ghost use Rattle.std.specs.Prelude.{◌≡◌, ◌++◌, map, find, length};
ghost use Rattle.std.specs.Option.{option_copied};
ghost use Rattle.rely_num.specs.Ops.{is_op};
ghost use Rattle.rely_tree.specs.Shape.{ident_shape, kind_shape, expr_shape, stmt_shape, block_shape, decl_shape, func_shape};
ghost use Rattle.rely_resolve.specs.Faults.{first_with, scalar_faults, array_faults, named_faults, kind_faults, callee_faults, expr_faults, exprs_faults, stmt_faults, block_faults};

use crate::calls::callee;
use crate::fault::{NameFault, noted, sooner};
use crate::names::place_of_kind;
use crate::scope::Scope;
use crate::variables::Variables;
use rely_hard::{Hardware, KindSpec, OpSpec};
use rely_num::{Op, Span};
use rely_tree::{Expr, Ident, Kind, Stmt};

/// A name without an index.
fn scalar(vars: &Variables, i: Ident, first: Option<NameFault>) -> Option<NameFault>
    ensures { result ≡ first_with first (scalar_faults (map decl_shape vars.now.list.items) (ident_shape i.entry)) }
{
    match vars.place(i.text) {
        Some(v) => noted(first, vars.is_array(v), NameFault::NotScalar(i.span)),
        None => sooner(first, NameFault::Unknown(i.span)),
    }
}

/// A name with an index.
fn array(vars: &Variables, i: Ident, first: Option<NameFault>) -> Option<NameFault>
    ensures { result ≡ first_with first (array_faults (map decl_shape vars.now.list.items) (ident_shape i.entry)) }
{
    match vars.place(i.text) {
        Some(v) => noted(first, !vars.is_array(v), NameFault::NotArray(i.span)),
        None => sooner(first, NameFault::Unknown(i.span)),
    }
}

fn named(kinds: &[KindSpec], kind: Kind, first: Option<NameFault>) -> Option<NameFault>
    ensures { result ≡ first_with first (named_faults kinds.now (kind_shape kind.entry)) }
{
    match kind {
        Kind::Named(i) => noted(
            first,
            place_of_kind(i.text, kinds).is_none(),
            NameFault::NoKind(i.span),
        ),
        Kind::Plain | Kind::Free(_) => first,
    }
}

/// The operator as the hardware lists it.
pub(crate) fn listed(h: &Hardware, op: Op) -> Option<&OpSpec>
    ensures { option_copied result ≡ find (λ o. is_op o.op op) h.now.operators }
{
    h.operators.as_slice().iter().find(|o| o.op == op)
}

fn operator(
    h: &Hardware,
    op: Op,
    span: Span,
    kind: Kind,
    first: Option<NameFault>,
) -> Option<NameFault>
    ensures { result ≡ first_with first (kind_faults h.now op span (kind_shape kind.entry)) }
{
    match listed(h, op) {
        Some(listed) => named(listed.kinds.as_slice(), kind, first),
        None => sooner(first, NameFault::NoKind(span)),
    }
}

#[tactic(auto, using(crate::proofs::Firsts::firsts))]
fn expr(scope: &Scope, e: &Expr, first: Option<NameFault>) -> Option<NameFault>
    ensures { result ≡ first_with first (expr_faults scope.now.h.now (map decl_shape scope.now.vars.now.list.items) (expr_shape e.now)) }
{
    match *e {
        Expr::Num(_) => first,
        Expr::Name(i) => scalar(scope.vars, i, first),
        Expr::Elem(i, index) => {
            let first = array(scope.vars, i, first);
            expr(scope, index, first)
        }
        Expr::Bin(op, span, kind, left, right) => {
            let first = expr(scope, left, first);
            let first = operator(scope.h, op, span, kind, first);
            expr(scope, right, first)
        }
    }
}

#[tactic(auto, using(crate::proofs::Firsts::firsts))]
fn exprs(scope: &Scope, es: &[Expr], first: Option<NameFault>) -> Option<NameFault>
    ensures { result ≡ first_with first (exprs_faults scope.now.h.now (map decl_shape scope.now.vars.now.list.items) (map expr_shape es.now)) }
{
    let mut first = first;
    for e in es {
        first = expr(scope, e, first);
    }
    first
}

/// A call, whose value a scalar takes.
#[tactic(auto, using(crate::proofs::Firsts::firsts))]
fn call(
    scope: &Scope,
    i: Ident,
    name: Ident,
    args: &[Expr],
    first: Option<NameFault>,
) -> Option<NameFault>
    ensures { let vs = map decl_shape scope.now.vars.now.list.items in
        let earlier = map func_shape scope.now.earlier.now in
        let of_name = callee_faults earlier (ident_shape name.entry) (length args.now) in
        let of_args = exprs_faults scope.now.h.now vs (map expr_shape args.now) in
        result ≡ first_with first (scalar_faults vs (ident_shape i.entry) ++ of_name ++ of_args) }
{
    let first = scalar(scope.vars, i, first);
    let first = callee(scope.earlier, name, args.len(), first);
    exprs(scope, args, first)
}

#[cycle(stmt)]
#[tactic(auto, using(rely_tree::proofs::Shapes::shapes, crate::proofs::Firsts::firsts))]
fn stmt(scope: &Scope, s: &Stmt, first: Option<NameFault>) -> Option<NameFault>
    ensures { result ≡ first_with first (stmt_faults scope.now.h.now (map func_shape scope.now.earlier.now) (map decl_shape scope.now.vars.now.list.items) (stmt_shape s.now)) }
{
    match *s {
        Stmt::Set(_, i, value) => {
            let first = scalar(scope.vars, i, first);
            expr(scope, &value, first)
        }
        Stmt::SetElem(_, i, index, value) => {
            let first = array(scope.vars, i, first);
            let first = expr(scope, &index, first);
            expr(scope, &value, first)
        }
        Stmt::If(_, test, held, other) => {
            let first = expr(scope, &test, first);
            let first = block(scope, held, first);
            block(scope, other, first)
        }
        Stmt::While(_, test, _, body) => {
            let first = expr(scope, &test, first);
            block(scope, body, first)
        }
        Stmt::Repeat(_, _, body) => block(scope, body, first),
        Stmt::Return(_, value) => expr(scope, &value, first),
        Stmt::Call(_, i, _, name, args) => call(scope, i, name, args, first),
    }
}

/// The first fault of statements, and of those found before.
#[cycle(stmt)]
#[tactic(auto, using(crate::proofs::Firsts::firsts))]
pub(crate) fn block(scope: &Scope, ss: &[Stmt], first: Option<NameFault>) -> Option<NameFault>
    ensures { result ≡ first_with first (block_faults scope.now.h.now (map func_shape scope.now.earlier.now) (map decl_shape scope.now.vars.now.list.items) (block_shape ss.now)) }
{
    let mut first = first;
    for s in ss {
        first = stmt(scope, s, first);
    }
    first
}
