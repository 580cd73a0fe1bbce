//! Which functions are reached.
ghost use Rattle.std.specs.Prelude.{◌≡◌, ◌++◌, [], map, IfOk, OnOk, if◌then◌else◌};
ghost use Rattle.rely_num.specs.Texts.{is_among};
ghost use Rattle.rely_tree.specs.Shape.{stmt_shape, block_shape, func_shape};
ghost use Rattle.rely_resolve.specs.Linked.{stmt_callees, block_callees, marks};

use crate::names::is_same;
use rely_tree::{Func, Stmt};
use std::alloc::{AllocError, Global};

fn is_among(name: &[u8], names: &[&[u8]]) -> bool
    ensures { result ≡ is_among name.now (map (λ n. n.now) names.now) }
{
    for one in names {
        if is_same(name, one) {
            return true;
        }
    }
    false
}

#[cycle(stmt)]
#[tactic(auto, using(rely_tree::proofs::Shapes::shapes, crate::proofs::Counted::joins))]
fn stmt_callees<'a>(s: &Stmt<'a>, called: &mut Vec<&'a [u8]>) -> Result<(), AllocError>
    ensures { OnOk result (map (λ n. n.now) called.new.items ≡ map (λ n. n.now) called.old.items ++ stmt_callees (stmt_shape s.now)) }
{
    match *s {
        Stmt::Set(_, _, _) | Stmt::SetElem(_, _, _, _) | Stmt::Return(_, _) => Ok(()),
        Stmt::If(_, _, held, other) => {
            callees(held, called)?;
            callees(other, called)?;
            Ok(())
        }
        Stmt::While(_, _, _, body) => callees(body, called),
        Stmt::Repeat(_, _, body) => callees(body, called),
        Stmt::Call(_, _, _, callee, _) => {
            called.push(callee.text)?;
            Ok(())
        }
    }
}

/// The names of the functions that statements call, behind these.
#[cycle(stmt)]
#[tactic(auto, using(crate::proofs::Counted::joins))]
fn callees<'a>(ss: &[Stmt<'a>], called: &mut Vec<&'a [u8]>) -> Result<(), AllocError>
    ensures { OnOk result (map (λ n. n.now) called.new.items ≡ map (λ n. n.now) called.old.items ++ block_callees (block_shape ss.now)) }
{
    for s in ss {
        stmt_callees(s, called)?;
    }
    Ok(())
}

/// The same of a function that is reached.
#[tactic(auto, using(crate::proofs::Counted::joins))]
fn reached_callees<'a>(
    is_reached: bool,
    g: &Func<'a>,
    called: &mut Vec<&'a [u8]>,
) -> Result<(), AllocError>
    ensures { OnOk result (map (λ n. n.now) called.new.items ≡ map (λ n. n.now) called.old.items ++ (if is_reached then block_callees (func_shape g.now).body else [])) }
{
    if is_reached {
        callees(g.body, called)
    } else {
        Ok(())
    }
}

/// Whether a function is one of those that are called, which it then adds to.
fn mark<'a>(g: &Func<'a>, called: &mut Vec<&'a [u8]>) -> Result<bool, AllocError>
    ensures mark { let is_called = is_among g.now.name.text.now (map (λ n. n.now) called.old.items) in
        IfOk result (λ m. m ≡ is_called) }
    ensures called { let before = map (λ n. n.now) called.old.items in
        let body = block_callees (func_shape g.now).body in
        let more = (if is_among g.now.name.text.now before then body else []) in
        OnOk result (map (λ n. n.now) called.new.items ≡ before ++ more) }
{
    let is_reached = is_among(g.name.text, called.as_slice());
    reached_callees(is_reached, g, called)?;
    Ok(is_reached)
}

/// Which of the functions before `f` are reached, the last one first.
pub(crate) fn marks(alloc: Global, f: &Func, before: &[Func]) -> Result<Vec<bool>, AllocError>
    ensures { IfOk result (λ m. m.items ≡ marks (func_shape f.now) (map func_shape before.now)) }
{
    let mut marks = Vec::new(alloc);
    let mut called = Vec::new(alloc);
    callees(f.body, &mut called)?;
    let mut i = before.len();
    while i > 0 {
        i -= 1;
        let is_reached = mark(&before[i], &mut called)?;
        marks.push(is_reached)?;
    }
    Ok(marks)
}
