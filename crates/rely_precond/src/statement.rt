//! The walk through the statements of a text, from the last to the first.
ghost use Rattle.std.specs.Prelude.{◌≡◌, false, length, IfErr, IfOk, IsTrue};
ghost use Rattle.std.specs.List.{All};
ghost use Rattle.rely_kernel.specs.Paths.{use_of};
ghost use Rattle.rely_kernel.specs.Text.{block_of, expr_of, stmt_of};
ghost use Rattle.rely_kernel.specs.Valid.{IsValid};
ghost use Rattle.rely_loops.specs.Grown.{too_many};
ghost use Rattle.rely_precond.specs.Answers.{IsStop};
ghost use Rattle.rely_precond.specs.InRange.{BlockInRange, ExprInRange, StmtInRange, is_plain};
ghost use Rattle.rely_precond.specs.Inside.{is_idle, stands_still, beside};
ghost use Rattle.rely_precond.specs.Places.{Line, line_of, lines_of};
ghost use Rattle.rely_precond.specs.Walk.{Stands, repeats, whiles, walk, walk_all};

use crate::fault::PreFault;
use crate::lists::{are_skipped, changed, with_copies};
use crate::split::{copy_of, split, stand_branches, stand_turned};
use crate::standing::{Listed, stand, stand_again};
use crate::turns::{growth, multiply, settled, turn_while};
use crate::written::{Marked, Text};
use rely_kernel::{Ex, Kernel, StKind};
use rely_num::{Conj, Span};
use rely_predicate::Predicate;
use std::alloc::Global;

fn is_plain(what: &StKind) -> bool
    ensures { result ≡ is_plain (stmt_of what.now) }
{
    !matches!(
        what,
        StKind::If(_, _, _) | StKind::While(_, _, _) | StKind::Repeat(_, _)
    )
}

// A `while` of no turn does nothing.
fn is_idle(what: &StKind) -> bool
    ensures { result ≡ is_idle (stmt_of what.now) }
{
    matches!(what, StKind::While(_, 0, _))
}

// Nothing changes at a `while` of no turn, nor where no conjunct has a variable that is written.
fn stands_still(statement: &Marked, list: &Predicate) -> bool
    ensures { result ≡ stands_still (stmt_of statement.now.what.now) list.now.conjs }
{
    is_idle(statement.what) || are_skipped(statement.written, list.conjs())
}

fn walk_plain(
    alloc: Global,
    k: &Kernel,
    statement: &Marked,
    listed: Listed,
) -> Result<Listed, PreFault>
    requires valid { IsValid k.now }
    requires in_range { StmtInRange k.now (stmt_of statement.now.what.now) }
    requires plain { IsTrue (is_plain (stmt_of statement.now.what.now)) }
    ensures ok { IfOk result (λ l. walk k.now statement.now.at (line_of statement.now.what.now) listed.list.conjs listed.work ≡ Stands l.list.conjs l.work) }
    ensures labels { IfOk result (λ l. l.list.labels ≡ listed.list.labels) }
    ensures refused { IfErr result (λ f. IsStop (walk k.now statement.now.at (line_of statement.now.what.now) listed.list.conjs listed.work) f) }
{
    let labels = listed.list.shape();
    let list = changed(alloc, k, statement, listed.list.into_conjs())?;
    stand(alloc, labels, statement.at, list, listed.work)
}

/// The walk through a statement: of a choice or a loop for the conjuncts that have a variable that it writes, and the
/// others stand beside what becomes of those.
#[cycle(walk)]
fn walk(alloc: Global, k: &Kernel, statement: &Marked, listed: Listed) -> Result<Listed, PreFault>
    requires valid { IsValid k.now }
    requires in_range { StmtInRange k.now (stmt_of statement.now.what.now) }
    ensures ok { IfOk result (λ l. walk k.now statement.now.at (line_of statement.now.what.now) listed.list.conjs listed.work ≡ Stands l.list.conjs l.work) }
    ensures labels { IfOk result (λ l. l.list.labels ≡ listed.list.labels) }
    ensures refused { IfErr result (λ f. IsStop (walk k.now statement.now.at (line_of statement.now.what.now) listed.list.conjs listed.work) f) }
{
    if stands_still(statement, &listed.list) {
        return stand_again(statement.at, listed);
    }
    if is_plain(statement.what) {
        return walk_plain(alloc, k, statement, listed);
    }
    let parts = split(alloc, statement, listed)?;
    walk_inside(alloc, k, statement, parts.others, parts.own)
}

/// The walk through the statements of a block, from the last to the first.
#[cycle(walk)]
pub(crate) fn walk_all(
    alloc: Global,
    k: &Kernel,
    text: Text,
    listed: Listed,
) -> Result<Listed, PreFault>
    requires valid { IsValid k.now }
    requires in_range { BlockInRange k.now (block_of text.body.now) }
    ensures ok { IfOk result (λ l. walk_all k.now (lines_of text.entry.body.now) listed.list.conjs listed.work ≡ Stands l.list.conjs l.work) }
    ensures labels { IfOk result (λ l. l.list.labels ≡ listed.list.labels) }
    ensures refused { IfErr result (λ f. IsStop (walk_all k.now (lines_of text.entry.body.now) listed.list.conjs listed.work) f) }
{
    let mut walked = listed;
    let mut left = text;
    while let Some(last) = left.split_last() {
        walked = walk(alloc, k, &last.statement, walked)?;
        left = last.before;
    }
    Ok(walked)
}

// What becomes of the conjuncts that a choice or a loop writes stands behind the others.
#[cycle(walk)]
fn walk_inside(
    alloc: Global,
    k: &Kernel,
    statement: &Marked,
    others: Vec<Conj>,
    own: Listed,
) -> Result<Listed, PreFault>
    requires valid { IsValid k.now }
    requires in_range { StmtInRange k.now (stmt_of statement.now.what.now) }
    requires not_plain { is_plain (stmt_of statement.now.what.now) ≡ false }
    requires others { All (λ c. length c.counts ≡ own.list.labels) others.items }
    requires few { too_many others.items ≡ false }
    ensures ok { IfOk result (λ l. beside k.now statement.now.at (line_of statement.now.what.now) others.items own.list.conjs own.work ≡ Stands l.list.conjs l.work) }
    ensures labels { IfOk result (λ l. l.list.labels ≡ own.list.labels) }
    ensures refused { IfErr result (λ f. IsStop (beside k.now statement.now.at (line_of statement.now.what.now) others.items own.list.conjs own.work) f) }
{
    let at = statement.at;
    let sets = statement.first;
    match statement.what {
        StKind::If(e, s, t) => {
            let body = s.as_slice();
            let first = Text { body, sets };
            let body = t.as_slice();
            let sets = statement.second;
            let second = Text { body, sets };
            walk_branches(alloc, k, at, e, first, second, others, own)
        }
        StKind::While(e, n, s) => {
            let body = s.as_slice();
            let text = Text { body, sets };
            let behind = with_copies(alloc, Vec::new(alloc), own.list.conjs())?;
            let turned = repeat_while(alloc, k, at, e, *n, text, &behind, own)?;
            stand_turned(alloc, at, others, turned)
        }
        StKind::Repeat(n, s) => {
            let body = s.as_slice();
            let text = Text { body, sets };
            let turned = repeat(alloc, k, at, *n, text, own)?;
            stand_turned(alloc, at, others, turned)
        }
        _ => unreachable!(),
    }
}

#[cycle(walk)]
fn walk_branches(
    alloc: Global,
    k: &Kernel,
    at: Span,
    e: &Ex,
    first: Text,
    second: Text,
    others: Vec<Conj>,
    own: Listed,
) -> Result<Listed, PreFault>
    requires valid { IsValid k.now }
    requires condition { ExprInRange k.now (expr_of e.now) }
    requires first { BlockInRange k.now (block_of first.body.now) }
    requires second { BlockInRange k.now (block_of second.body.now) }
    requires others { All (λ c. length c.counts ≡ own.list.labels) others.items }
    requires few { too_many others.items ≡ false }
    ensures ok { IfOk result (λ l. beside k.now at (Line.If (expr_of e.now) (lines_of first.entry.body.now) (lines_of second.entry.body.now)) others.items own.list.conjs own.work
        ≡ Stands l.list.conjs l.work) }
    ensures labels { IfOk result (λ l. l.list.labels ≡ own.list.labels) }
    ensures refused { IfErr result (λ f. IsStop
        (beside k.now at (Line.If (expr_of e.now) (lines_of first.entry.body.now) (lines_of second.entry.body.now)) others.items own.list.conjs own.work) f) }
{
    let list = copy_of(alloc, &own.list)?;
    let first = walk_all(alloc, k, first, own)?;
    let work = first.work;
    let own = Listed { list, work };
    let second = walk_all(alloc, k, second, own)?;
    stand_branches(alloc, k, at, e, others, first, second)
}

// The turns of `repeat`, as far as none is settled.
#[cycle(walk)]
fn repeat(
    alloc: Global,
    k: &Kernel,
    at: Span,
    n: u32,
    text: Text,
    own: Listed,
) -> Result<Listed, PreFault>
    requires valid { IsValid k.now }
    requires in_range { BlockInRange k.now (block_of text.body.now) }
    ensures ok { IfOk result (λ l. repeats at (λ q w. walk_all k.now (lines_of text.entry.body.now) q w) n own.list.conjs own.work ≡ Stands l.list.conjs l.work) }
    ensures labels { IfOk result (λ l. l.list.labels ≡ own.list.labels) }
    ensures refused { IfErr result (λ f. IsStop (repeats at (λ q w. walk_all k.now (lines_of text.entry.body.now) q w) n own.list.conjs own.work) f) }
{
    let mut before = Predicate::new(alloc, own.list.shape());
    let mut turned = own;
    let mut left = n;
    while left > 0 {
        left -= 1;
        before = turned.list.copy_into(alloc, before)?;
        let through = walk_all(alloc, k, text, turned)?;
        turned = stand_again(at, through)?;
        if left > 0 {
            if let Some(by) = growth(alloc, &before, &turned.list)? {
                return multiply(at, left, by.as_slice(), turned);
            }
        }
    }
    Ok(turned)
}

// The turns of `while`, with copies of the conjuncts that stand behind the loop.
#[cycle(walk)]
fn repeat_while(
    alloc: Global,
    k: &Kernel,
    at: Span,
    e: &Ex,
    n: u32,
    text: Text,
    behind: &[Conj],
    own: Listed,
) -> Result<Listed, PreFault>
    requires valid { IsValid k.now }
    requires condition { ExprInRange k.now (expr_of e.now) }
    requires in_range { BlockInRange k.now (block_of text.body.now) }
    requires behind { All (λ c. length c.counts ≡ own.list.labels) behind.now }
    requires few { too_many behind.now ≡ false }
    ensures ok { IfOk result (λ l. whiles at (use_of k.now (expr_of e.now)) (λ q w. walk_all k.now (lines_of text.entry.body.now) q w) behind.now n own.list.conjs own.work ≡ Stands l.list.conjs l.work) }
    ensures labels { IfOk result (λ l. l.list.labels ≡ own.list.labels) }
    ensures refused { IfErr result (λ f. IsStop (whiles at (use_of k.now (expr_of e.now)) (λ q w. walk_all k.now (lines_of text.entry.body.now) q w) behind.now n own.list.conjs own.work) f) }
{
    let mut before = Predicate::new(alloc, own.list.shape());
    let mut turned = own;
    let mut left = n;
    while left > 0 {
        left -= 1;
        before = turned.list.copy_into(alloc, before)?;
        let through = walk_all(alloc, k, text, turned)?;
        let turn = turn_while(alloc, k, at, e, behind, through)?;
        turned = turn.listed;
        if left > 0 {
            if let Some(by) = settled(growth(alloc, &before, &turned.list)?, turn.is_covered) {
                return multiply(at, left, by.as_slice(), turned);
            }
        }
    }
    Ok(turned)
}
