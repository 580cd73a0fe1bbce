//! What the statements of a text write, found once for a walk that meets them again at every turn.
ghost use Rattle.std.specs.Prelude.{◌≡◌, ◌<◌, ◌^◌, ◌++◌, ◌∷◌, [], length, IfErr, IfOk, IfSome, IsNone, OnOk};
ghost use Rattle.rely_kernel.specs.Paths.{writes, all_writes};
ghost use Rattle.rely_kernel.specs.Text.{stmt_of, block_of};
ghost use Rattle.rely_precond.specs.Written.{all_sets, first_block, second_block, first_sets, second_sets, assigns, set_of};

use crate::fault::PreFault;
use rely_kernel::{St, StKind};
use rely_num::{Span, VarSet};
use std::alloc::Global;

/// The number that stands for the result in a set of variables.
pub(crate) const RESULT: u32 = 63;

/// What a statement writes.
#[derive(Clone, Copy)]
pub(crate) struct Written {
    /// The variables that it assigns, at any depth.
    pub(crate) set: VarSet,
    /// How many statements stand in its first block, at any depth.
    pub(crate) first: usize,
    /// How many stand in its second block.
    pub(crate) second: usize,
}

/// A block with what each statement in it writes, at any depth: those inside a statement come before it.
#[derive(Clone, Copy)]
pub(crate) struct Text<'t> {
    pub(crate) body: &'t [St],
    pub(crate) sets: &'t [Written],
    ghost exact: { sets.now ≡ all_sets (block_of body.now) },
}

/// A statement with what it writes, and with what is written inside it.
#[derive(Clone, Copy)]
pub(crate) struct Marked<'t> {
    pub(crate) at: Span,
    pub(crate) what: &'t StKind,
    pub(crate) written: VarSet,
    pub(crate) first: &'t [Written],
    pub(crate) second: &'t [Written],
    ghost written_is: { written.bits ≡ writes (stmt_of what.now) },
    ghost first_is: { first.now ≡ first_sets (stmt_of what.now) },
    ghost second_is: { second.now ≡ second_sets (stmt_of what.now) },
}

/// The last statement of a block, and those before it.
#[derive(Clone, Copy)]
pub(crate) struct Last<'t> {
    pub(crate) before: Text<'t>,
    pub(crate) statement: Marked<'t>,
}

impl<'t> Text<'t> {
    ghost use Rattle.rely_precond.specs.Lasts.{IsLast};

    /// None where the block is empty.
    pub(crate) fn split_last(self) -> Option<Last<'t>>
        ensures some { IfSome result (IsLast self.entry.body.now) }
        ensures none { IsNone result → length self.entry.body.now ≡ 0 }
    {
        let (statement, body) = self.body.split_last()?;
        let (own, sets) = self.sets.split_last()?;
        let (sets, second) = sets.split_at(sets.len() - own.second);
        let (sets, first) = sets.split_at(sets.len() - own.first);
        Some(Last {
            before: Text { body, sets },
            statement: Marked {
                at: statement.at,
                what: &statement.what,
                written: own.set,
                first,
                second,
            },
        })
    }
}

/// What the statements of a text write.
pub(crate) fn sets_of(alloc: Global, body: &[St]) -> Result<Vec<Written>, PreFault>
    requires { all_writes (block_of body.now) < 2 ^ 64 }
    ensures ok { IfOk result (λ sets. sets.items ≡ all_sets (block_of body.now)) }
    ensures err { IfErr result (λ f. f ≡ PreFault.Memory) }
{
    let mut sets = Vec::new(alloc);
    add_block(&mut sets, body)?;
    Ok(sets)
}

// Adds what the statements of a block write, and answers what they write together.
#[cycle(written)]
fn add_block(sets: &mut Vec<Written>, body: &[St]) -> Result<VarSet, PreFault>
    requires { all_writes (block_of body.now) < 2 ^ 64 }
    ensures set { IfOk result (λ set. set.bits ≡ all_writes (block_of body.now)) }
    ensures sets { OnOk result (sets.new.items ≡ sets.old.items ++ all_sets (block_of body.now)) }
    ensures err { IfErr result (λ f. f ≡ PreFault.Memory) }
{
    let mut set = VarSet::EMPTY;
    for statement in body {
        set = set.union(add_statement(sets, &statement.what)?);
    }
    Ok(set)
}

#[cycle(written)]
fn add_statement(sets: &mut Vec<Written>, what: &StKind) -> Result<VarSet, PreFault>
    requires { writes (stmt_of what.now) < 2 ^ 64 }
    ensures set { IfOk result (λ set. set.bits ≡ writes (stmt_of what.now)) }
    ensures sets { OnOk result (sets.new.items ≡ sets.old.items
        ++ first_sets (stmt_of what.now) ++ second_sets (stmt_of what.now) ++ set_of (stmt_of what.now) ∷ []) }
    ensures err { IfErr result (λ f. f ≡ PreFault.Memory) }
{
    let start = sets.len();
    let first = add_block(sets, first_block(what))?;
    let middle = sets.len();
    let second = add_block(sets, second_block(what))?;
    let set = assigned(what).union(first).union(second);
    sets.push(Written {
        set,
        first: middle - start,
        second: sets.len() - middle,
    })?;
    Ok(set)
}

// What it assigns itself.
fn assigned(what: &StKind) -> VarSet
    requires { writes (stmt_of what.now) < 2 ^ 64 }
    ensures { result.bits ≡ assigns (stmt_of what.now) }
{
    match what {
        StKind::Set(v, _) | StKind::SetElem(v, _, _) | StKind::Call(v, _, _) => {
            VarSet::EMPTY.with(*v)
        }
        StKind::Result(_) => VarSet::EMPTY.with(RESULT),
        StKind::If(_, _, _) | StKind::While(_, _, _) | StKind::Repeat(_, _) => VarSet::EMPTY,
    }
}

fn first_block(what: &StKind) -> &[St]
    ensures { block_of result.now ≡ first_block (stmt_of what.now) }
{
    match what {
        StKind::If(_, s, _) | StKind::While(_, _, s) | StKind::Repeat(_, s) => s.as_slice(),
        _ => &[],
    }
}

fn second_block(what: &StKind) -> &[St]
    ensures { block_of result.now ≡ second_block (stmt_of what.now) }
{
    match what {
        StKind::If(_, _, t) => t.as_slice(),
        _ => &[],
    }
}
