ghost use Rattle.std.specs.Prelude.{◌≡◌, ◌∷◌, [], IfOk, OnErr, OnOk};
ghost use Rattle.rely_kernel.specs.Machine.{expr_items, items, stmt_items};
ghost use Rattle.rely_kernel.specs.Text.{Stmt, block_of, expr_of, stmt_of};
ghost use Rattle.rely_kernel.specs.Valid.{ExprFits};
ghost use Rattle.rely_kernel.specs.Running.{AllFine, Fine};
ghost use Rattle.rely_machine.specs.Table.{HasTable, HasTables};
ghost use Rattle.rely_faults.specs.Going.{Exceeds, IsRunning, Runs, here};

use crate::running::Running;
use crate::tally::Tally;
use rand_pcg::Lcg128Xsl64;
use rely_kernel::{Ex, StKind};
use rely_machine::{Held, Part, RunFault, Text, operate};

/// The value of an expression: operands from left to right, an index before its array.
pub fn value_of(
    r: &Running,
    e: &Ex,
    held: &Held,
    tally: &mut Tally,
    words: &mut Lcg128Xsl64,
) -> Result<i64, RunFault>
    requires running { IsRunning r.now held.now }
    requires fits { ExprFits r.now.kernel.now (expr_of e.now) }
    ensures runs { IfOk result (λ z. Runs r.now (expr_items (expr_of e.now)) (λ st. st) (λ st. z ∷ st) (here held.now tally.old words.old) (here held.now tally.new words.new)) }
    ensures exceeds { OnErr result (Exceeds r.now (expr_items (expr_of e.now)) (λ st. st) (here held.now tally.old words.old) words.new) }
{
    match e {
        Ex::Num(z) => Ok(*z),
        Ex::Read(v) => tally.step(r.read_rate(*v), held.read(*v), words),
        Ex::Elem(a, index) => {
            let i = value_of(r, index.get(), held, tally, words)?;
            tally.step(r.read_rate(*a), held.read_at(*a, i), words)
        }
        Ex::Bin(site, left, right) => {
            let x = value_of(r, left.get(), held, tally, words)?;
            let y = value_of(r, right.get(), held, tally, words)?;
            let value = operate(r.operator(*site), x, y);
            tally.step(r.operator_rate(*site), value, words)
        }
    }
}

fn set(
    r: &Running,
    v: u32,
    e: &Ex,
    held: &mut Held,
    tally: &mut Tally,
    words: &mut Lcg128Xsl64,
) -> Result<(), RunFault>
    requires running { IsRunning r.now held.old }
    requires fits { Fine (r.now.kernel.now ∷ []) 0 r.now.kernel.now (Stmt.Set v (expr_of e.now)) }
    ensures runs { OnOk result (Runs r.now (stmt_items (Stmt.Set v (expr_of e.now))) (λ st. st) (λ st. st) (here held.old tally.old words.old) (here held.new tally.new words.new)) }
    ensures exceeds { OnErr result (Exceeds r.now (stmt_items (Stmt.Set v (expr_of e.now))) (λ st. st) (here held.old tally.old words.old) words.new) }
{
    let right = value_of(r, e, held, tally, words)?;
    let z = tally.step(r.write_rate(v), right, words)?;
    held.write(v, z);
    Ok(())
}

// A wrong write puts its number at the index, and like a right one nothing outside.
fn set_element(
    r: &Running,
    a: u32,
    index: &Ex,
    e: &Ex,
    held: &mut Held,
    tally: &mut Tally,
    words: &mut Lcg128Xsl64,
) -> Result<(), RunFault>
    requires running { IsRunning r.now held.old }
    requires fits { Fine (r.now.kernel.now ∷ []) 0 r.now.kernel.now (Stmt.SetElem a (expr_of index.now) (expr_of e.now)) }
    ensures runs { OnOk result (Runs r.now (stmt_items (Stmt.SetElem a (expr_of index.now) (expr_of e.now))) (λ st. st) (λ st. st) (here held.old tally.old words.old) (here held.new tally.new words.new)) }
    ensures exceeds { OnErr result (Exceeds r.now (stmt_items (Stmt.SetElem a (expr_of index.now) (expr_of e.now))) (λ st. st) (here held.old tally.old words.old) words.new) }
{
    let i = value_of(r, index, held, tally, words)?;
    let right = value_of(r, e, held, tally, words)?;
    let z = tally.step(r.write_rate(a), right, words)?;
    held.write_at(a, i, z);
    Ok(())
}

fn give(
    r: &Running,
    e: &Ex,
    held: &mut Held,
    tally: &mut Tally,
    words: &mut Lcg128Xsl64,
) -> Result<(), RunFault>
    requires running { IsRunning r.now held.old }
    requires fits { Fine (r.now.kernel.now ∷ []) 0 r.now.kernel.now (Stmt.Result (expr_of e.now)) }
    ensures runs { OnOk result (Runs r.now (stmt_items (Stmt.Result (expr_of e.now))) (λ st. st) (λ st. st) (here held.old tally.old words.old) (here held.new tally.new words.new)) }
    ensures exceeds { OnErr result (Exceeds r.now (stmt_items (Stmt.Result (expr_of e.now))) (λ st. st) (here held.old tally.old words.old) words.new) }
{
    let z = value_of(r, e, held, tally, words)?;
    held.set_result(z);
    Ok(())
}

/// What a text does to the store. Only the statements of its table are met.
#[cycle(text)]
pub fn block(
    r: &Running,
    text: Text,
    held: &mut Held,
    tally: &mut Tally,
    words: &mut Lcg128Xsl64,
) -> Result<(), RunFault>
    requires running { IsRunning r.now held.old }
    requires fits { AllFine (r.now.kernel.now ∷ []) 0 r.now.kernel.now (block_of text.statements.now) }
    requires table { HasTable text }
    ensures runs { OnOk result (Runs r.now (items (block_of text.entry.statements.now)) (λ st. st) (λ st. st) (here held.old tally.old words.old) (here held.new tally.new words.new)) }
    ensures exceeds { OnErr result (Exceeds r.now (items (block_of text.entry.statements.now)) (λ st. st) (here held.old tally.old words.old) words.new) }
{
    let mut at = 0;
    while at < text.live.len() {
        let entry = text.live[at];
        let second = at + 1 + entry.first;
        let behind = second + entry.second;
        let part = Part {
            what: entry.what,
            first: &text.live[at + 1..second],
            second: &text.live[second..behind],
        };
        statement(r, part, held, tally, words)?;
        at = behind;
    }
    Ok(())
}

// The kernel calls nothing, so no call is met.
#[cycle(text)]
fn statement(
    r: &Running,
    part: Part,
    held: &mut Held,
    tally: &mut Tally,
    words: &mut Lcg128Xsl64,
) -> Result<(), RunFault>
    requires running { IsRunning r.now held.old }
    requires fits { Fine (r.now.kernel.now ∷ []) 0 r.now.kernel.now (stmt_of part.what.now) }
    requires tables { HasTables part }
    ensures runs { OnOk result (Runs r.now (stmt_items (stmt_of part.entry.what.now)) (λ st. st) (λ st. st) (here held.old tally.old words.old) (here held.new tally.new words.new)) }
    ensures exceeds { OnErr result (Exceeds r.now (stmt_items (stmt_of part.entry.what.now)) (λ st. st) (here held.old tally.old words.old) words.new) }
{
    match part.what {
        StKind::Set(v, e) => set(r, *v, e, held, tally, words),
        StKind::SetElem(a, i, e) => set_element(r, *a, i, e, held, tally, words),
        StKind::If(e, s, t) => {
            let s = Text {
                statements: s.as_slice(),
                live: part.first,
            };
            let t = Text {
                statements: t.as_slice(),
                live: part.second,
            };
            choose(r, e, s, t, held, tally, words)
        }
        StKind::While(e, n, s) => {
            let text = Text {
                statements: s.as_slice(),
                live: part.first,
            };
            rounds(r, e, *n, text, held, tally, words)
        }
        StKind::Repeat(n, s) => {
            let text = Text {
                statements: s.as_slice(),
                live: part.first,
            };
            turns(r, *n, text, held, tally, words)
        }
        StKind::Result(e) => give(r, e, held, tally, words),
        StKind::Call(_, _, _) => unreachable!(),
    }
}

#[cycle(text)]
fn choose(
    r: &Running,
    e: &Ex,
    s: Text,
    t: Text,
    held: &mut Held,
    tally: &mut Tally,
    words: &mut Lcg128Xsl64,
) -> Result<(), RunFault>
    requires running { IsRunning r.now held.old }
    requires fits { Fine (r.now.kernel.now ∷ []) 0 r.now.kernel.now (Stmt.If (expr_of e.now) (block_of s.statements.now) (block_of t.statements.now)) }
    requires first { HasTable s }
    requires second { HasTable t }
    ensures runs { OnOk result (Runs r.now (stmt_items (Stmt.If (expr_of e.now) (block_of s.entry.statements.now) (block_of t.entry.statements.now))) (λ st. st) (λ st. st) (here held.old tally.old words.old) (here held.new tally.new words.new)) }
    ensures exceeds { OnErr result (Exceeds r.now (stmt_items (Stmt.If (expr_of e.now) (block_of s.entry.statements.now) (block_of t.entry.statements.now))) (λ st. st) (here held.old tally.old words.old) words.new) }
{
    let z = value_of(r, e, held, tally, words)?;
    if z != 0 {
        block(r, s, held, tally, words)
    } else {
        block(r, t, held, tally, words)
    }
}

#[cycle(text)]
fn turns(
    r: &Running,
    n: u32,
    text: Text,
    held: &mut Held,
    tally: &mut Tally,
    words: &mut Lcg128Xsl64,
) -> Result<(), RunFault>
    requires running { IsRunning r.now held.old }
    requires fits { Fine (r.now.kernel.now ∷ []) 0 r.now.kernel.now (Stmt.Repeat n (block_of text.statements.now)) }
    requires table { HasTable text }
    ensures runs { OnOk result (Runs r.now (stmt_items (Stmt.Repeat n (block_of text.entry.statements.now))) (λ st. st) (λ st. st) (here held.old tally.old words.old) (here held.new tally.new words.new)) }
    ensures exceeds { OnErr result (Exceeds r.now (stmt_items (Stmt.Repeat n (block_of text.entry.statements.now))) (λ st. st) (here held.old tally.old words.old) words.new) }
{
    for _ in 0..n {
        tally.walk()?;
        block(r, text, held, tally, words)?;
    }
    Ok(())
}

// While the condition holds.
#[cycle(text)]
fn rounds(
    r: &Running,
    e: &Ex,
    n: u32,
    text: Text,
    held: &mut Held,
    tally: &mut Tally,
    words: &mut Lcg128Xsl64,
) -> Result<(), RunFault>
    requires running { IsRunning r.now held.old }
    requires fits { Fine (r.now.kernel.now ∷ []) 0 r.now.kernel.now (Stmt.While (expr_of e.now) n (block_of text.statements.now)) }
    requires table { HasTable text }
    ensures runs { OnOk result (Runs r.now (stmt_items (Stmt.While (expr_of e.now) n (block_of text.entry.statements.now))) (λ st. st) (λ st. st) (here held.old tally.old words.old) (here held.new tally.new words.new)) }
    ensures exceeds { OnErr result (Exceeds r.now (stmt_items (Stmt.While (expr_of e.now) n (block_of text.entry.statements.now))) (λ st. st) (here held.old tally.old words.old) words.new) }
{
    for _ in 0..n {
        let z = value_of(r, e, held, tally, words)?;
        if z == 0 {
            return Ok(());
        }
        tally.walk()?;
        block(r, text, held, tally, words)?;
    }
    Ok(())
}
