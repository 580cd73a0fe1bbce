ghost use Rattle.std.specs.Prelude.{◌≡◌, ◌==◌, ◌||◌, ◌++◌, [], if◌then◌else◌, IfOk, OnOk};
ghost use Rattle.rely_kernel.specs.Text.{block_of, expr_of, stmt_of};
ghost use Rattle.rely_machine.specs.Table.{choice, entries, entries_of, is_zero, table_of, with_blocks};

use rely_kernel::{Ex, St, StKind};
use std::alloc::{AllocError, Global};

/// A statement that a run meets, as the table of a text has it: in the order of the text, so the entries of its blocks follow.
#[derive(Clone, Copy, Debug)]
pub struct Live<'k> {
    pub what: &'k StKind,
    /// How many entries its first block has.
    pub first: usize,
    /// How many its second block has.
    pub second: usize,
}

/// A block with its table.
#[derive(Clone, Copy, Debug)]
pub struct Text<'k, 't> {
    pub statements: &'k [St],
    pub live: &'t [Live<'k>],
}

/// A statement with the tables of its blocks.
#[derive(Clone, Copy, Debug)]
pub struct Part<'k, 't> {
    pub what: &'k StKind,
    pub first: &'t [Live<'k>],
    pub second: &'t [Live<'k>],
}

/// The table of a block. A statement that takes no step and changes nothing has no entry, and the branch that a number
/// chooses stands in the place of the choice: so a run meets nothing that takes no step, but for what returns a number.
pub fn live_statements<'k>(alloc: Global, body: &'k [St]) -> Result<Vec<Live<'k>>, AllocError>
    ensures { IfOk result (λ live. entries live.items ≡ table_of (block_of body.now)) }
{
    let mut live = Vec::new(alloc);
    put_block(body, &mut live)?;
    Ok(live)
}

#[cycle(table)]
fn put_block<'k>(text: &'k [St], live: &mut Vec<Live<'k>>) -> Result<(), AllocError>
    ensures { OnOk result (entries live.new.items ≡ entries live.old.items ++ table_of (block_of text.now)) }
{
    for s in text {
        put(&s.what, live)?;
    }
    Ok(())
}

#[cycle(table)]
fn put<'k>(what: &'k StKind, live: &mut Vec<Live<'k>>) -> Result<(), AllocError>
    ensures { OnOk result (entries live.new.items ≡ entries live.old.items ++ entries_of (stmt_of what.now)) }
{
    match what {
        StKind::If(e, s, t) => put_choice(what, e, s.as_slice(), t.as_slice(), live),
        StKind::While(e, n, s) => put_loop(what, is_idle_while(e, *n), s.as_slice(), live),
        StKind::Repeat(n, s) => put_loop(what, *n == 0, s.as_slice(), live),
        StKind::Set(_, _) | StKind::SetElem(_, _, _) | StKind::Result(_) | StKind::Call(_, _, _) =>
            put_entry(what, &[], &[], live),
    }
}

// A number chooses a branch.
#[cycle(table)]
fn put_choice<'k>(
    what: &'k StKind,
    e: &Ex,
    s: &'k [St],
    t: &'k [St],
    live: &mut Vec<Live<'k>>,
) -> Result<(), AllocError>
    ensures { OnOk result (entries live.new.items ≡ entries live.old.items ++ choice (expr_of e.now) (table_of (block_of s.now)) (table_of (block_of t.now)) (with_blocks (stmt_of what.now) (table_of (block_of s.now)) (table_of (block_of t.now)))) }
{
    match e {
        Ex::Num(z) => put_block(if *z == 0 { t } else { s }, live),
        Ex::Read(_) | Ex::Elem(_, _) | Ex::Bin(_, _, _) => put_entry(what, s, t, live),
    }
}

#[cycle(table)]
fn put_loop<'k>(
    what: &'k StKind,
    idle: bool,
    s: &'k [St],
    live: &mut Vec<Live<'k>>,
) -> Result<(), AllocError>
    ensures { OnOk result (entries live.new.items ≡ entries live.old.items ++ (if idle then [] else with_blocks (stmt_of what.now) (table_of (block_of s.now)) [])) }
{
    if idle {
        return Ok(());
    }
    put_entry(what, s, &[], live)
}

#[cycle(table)]
fn put_entry<'k>(
    what: &'k StKind,
    s: &'k [St],
    t: &'k [St],
    live: &mut Vec<Live<'k>>,
) -> Result<(), AllocError>
    ensures { OnOk result (entries live.new.items ≡ entries live.old.items ++ with_blocks (stmt_of what.now) (table_of (block_of s.now)) (table_of (block_of t.now))) }
{
    let at = live.len();
    live.push(Live {
        what,
        first: 0,
        second: 0,
    })?;
    put_block(s, live)?;
    let first = live.len() - at - 1;
    put_block(t, live)?;
    let second = live.len() - at - 1 - first;
    live[at] = Live {
        what,
        first,
        second,
    };
    Ok(())
}

// A while chooses between a turn and its end.
fn is_idle_while(e: &Ex, n: u32) -> bool
    ensures { result ≡ (n == 0 || is_zero (expr_of e.now)) }
{
    n == 0 || is_zero(e)
}

fn is_zero(e: &Ex) -> bool
    ensures { result ≡ is_zero (expr_of e.now) }
{
    match e {
        Ex::Num(z) => *z == 0,
        Ex::Read(_) | Ex::Elem(_, _) | Ex::Bin(_, _, _) => false,
    }
}
