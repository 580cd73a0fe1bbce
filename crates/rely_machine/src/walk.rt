ghost use Rattle.std.specs.Prelude.{◌≡◌, ◌∷◌, length, IfOk, OnOk, Err};
ghost use Rattle.rely_kernel.specs.Machine.{argument_items, expr_items, functions, items, stmt_items};
ghost use Rattle.rely_kernel.specs.Text.{Stmt, block_of, expr_of, exprs_of, stmt_of};
ghost use Rattle.rely_kernel.specs.Valid.{AllFit, ExprFits};
ghost use Rattle.rely_kernel.specs.Running.{All-fit, AllFine, Fine, pushed};
ghost use Rattle.rely_machine.specs.Going.{Exceeds, IsRunning, Runs};
ghost use Rattle.rely_machine.specs.Table.{HasTable, HasTables};
ghost use Rattle.rely_machine.specs.declared.fault.RunFault.TheVariants as fault;

use crate::RunFault;
use crate::function::Function;
use crate::held::Held;
use crate::live::{Part, Text};
use crate::tally::Tally;
use crate::value::operate;
use rely_kernel::{Ex, StKind};

/// The value of an expression: operands from left to right, an index before its array.
pub fn value_of(r: &Function, e: &Ex, held: &Held, tally: &mut Tally) -> Result<i64, RunFault>
    requires running { IsRunning r.now held.now tally.old }
    requires fits { ExprFits r.now.kernel.now (expr_of e.now) }
    ensures runs { IfOk result (λ z. Runs r.now (expr_items (expr_of e.now)) (λ st. st) (λ st. z ∷ st) held.now tally.old held.now tally.new) }
    ensures exceeds { result ≡ Err fault.Steps → Exceeds r.now (expr_items (expr_of e.now)) (λ st. st) held.now tally.old }
{
    match e {
        Ex::Num(z) => Ok(*z),
        Ex::Read(v) => {
            tally.take(r.at(), r.read_label(*v))?;
            Ok(held.read(*v))
        }
        Ex::Elem(a, index) => {
            let i = value_of(r, index.get(), held, tally)?;
            tally.take(r.at(), r.read_label(*a))?;
            Ok(held.read_at(*a, i))
        }
        Ex::Bin(site, left, right) => {
            let x = value_of(r, left.get(), held, tally)?;
            let y = value_of(r, right.get(), held, tally)?;
            tally.take(r.at(), *site as usize)?;
            Ok(operate(r.operator(*site), x, y))
        }
    }
}

// The values of expressions, in the memory of others.
fn values_of(
    r: &Function,
    es: &[Ex],
    held: &Held,
    tally: &mut Tally,
    values: &mut Vec<i64>,
) -> Result<(), RunFault>
    requires running { IsRunning r.now held.now tally.old }
    requires fits { AllFit r.now.kernel.now (exprs_of es.now) }
    ensures numbers { OnOk result ((length values.new.items ≡ length (exprs_of es.now)) × All-fit values.new.items) }
    ensures runs { OnOk result (Runs r.now (argument_items (exprs_of es.now)) (λ st. st) (pushed values.new.items) held.now tally.old held.now tally.new) }
    ensures exceeds { result ≡ Err fault.Steps → Exceeds r.now (argument_items (exprs_of es.now)) (λ st. st) held.now tally.old }
{
    values.clear();
    for e in es {
        values.push(value_of(r, e, held, tally)?)?;
    }
    Ok(())
}

fn set(r: &Function, v: u32, e: &Ex, held: &mut Held, tally: &mut Tally) -> Result<(), RunFault>
    requires running { IsRunning r.now held.old tally.old }
    requires fits { Fine (functions r.now.linked.now) r.now.at r.now.kernel.now (Stmt.Set v (expr_of e.now)) }
    ensures runs { OnOk result (Runs r.now (stmt_items (Stmt.Set v (expr_of e.now))) (λ st. st) (λ st. st) held.old tally.old held.new tally.new) }
    ensures exceeds { result ≡ Err fault.Steps → Exceeds r.now (stmt_items (Stmt.Set v (expr_of e.now))) (λ st. st) held.old tally.old }
{
    let z = value_of(r, e, held, tally)?;
    tally.take(r.at(), r.write_label(v))?;
    held.write(v, z);
    Ok(())
}

fn set_element(
    r: &Function,
    a: u32,
    index: &Ex,
    e: &Ex,
    held: &mut Held,
    tally: &mut Tally,
) -> Result<(), RunFault>
    requires running { IsRunning r.now held.old tally.old }
    requires fits { Fine (functions r.now.linked.now) r.now.at r.now.kernel.now (Stmt.SetElem a (expr_of index.now) (expr_of e.now)) }
    ensures runs { OnOk result (Runs r.now (stmt_items (Stmt.SetElem a (expr_of index.now) (expr_of e.now))) (λ st. st) (λ st. st) held.old tally.old held.new tally.new) }
    ensures exceeds { result ≡ Err fault.Steps → Exceeds r.now (stmt_items (Stmt.SetElem a (expr_of index.now) (expr_of e.now))) (λ st. st) held.old tally.old }
{
    let i = value_of(r, index, held, tally)?;
    let z = value_of(r, e, held, tally)?;
    tally.take(r.at(), r.write_label(a))?;
    held.write_at(a, i, z);
    Ok(())
}

fn give(r: &Function, e: &Ex, held: &mut Held, tally: &mut Tally) -> Result<(), RunFault>
    requires running { IsRunning r.now held.old tally.old }
    requires fits { Fine (functions r.now.linked.now) r.now.at r.now.kernel.now (Stmt.Result (expr_of e.now)) }
    ensures runs { OnOk result (Runs r.now (stmt_items (Stmt.Result (expr_of e.now))) (λ st. st) (λ st. st) held.old tally.old held.new tally.new) }
    ensures exceeds { result ≡ Err fault.Steps → Exceeds r.now (stmt_items (Stmt.Result (expr_of e.now))) (λ st. st) held.old tally.old }
{
    let z = value_of(r, e, held, tally)?;
    held.set_result(z);
    Ok(())
}

/// What a text does to the store. Only the statements of its table are met.
#[cycle(text)]
pub fn block(r: &Function, text: Text, held: &mut Held, tally: &mut Tally) -> Result<(), RunFault>
    requires running { IsRunning r.now held.old tally.old }
    requires fits { AllFine (functions r.now.linked.now) r.now.at r.now.kernel.now (block_of text.statements.now) }
    requires table { HasTable text }
    ensures runs { OnOk result (Runs r.now (items (block_of text.entry.statements.now)) (λ st. st) (λ st. st) held.old tally.old held.new tally.new) }
    ensures exceeds { result ≡ Err fault.Steps → Exceeds r.now (items (block_of text.entry.statements.now)) (λ st. st) held.old tally.old }
{
    let mut at = 0;
    while at < text.live.len() {
        let entry = text.live[at];
        let second = at + 1 + entry.first;
        let behind = second + entry.second;
        let part = Part {
            what: entry.what,
            first: &text.live[at + 1..second],
            second: &text.live[second..behind],
        };
        statement(r, part, held, tally)?;
        at = behind;
    }
    Ok(())
}

#[cycle(text)]
fn statement(r: &Function, part: Part, held: &mut Held, tally: &mut Tally) -> Result<(), RunFault>
    requires running { IsRunning r.now held.old tally.old }
    requires fits { Fine (functions r.now.linked.now) r.now.at r.now.kernel.now (stmt_of part.what.now) }
    requires tables { HasTables part }
    ensures runs { OnOk result (Runs r.now (stmt_items (stmt_of part.entry.what.now)) (λ st. st) (λ st. st) held.old tally.old held.new tally.new) }
    ensures exceeds { result ≡ Err fault.Steps → Exceeds r.now (stmt_items (stmt_of part.entry.what.now)) (λ st. st) held.old tally.old }
{
    match part.what {
        StKind::Set(v, e) => set(r, *v, e, held, tally),
        StKind::SetElem(a, i, e) => set_element(r, *a, i, e, held, tally),
        StKind::If(e, s, t) => {
            let s = Text {
                statements: s.as_slice(),
                live: part.first,
            };
            let t = Text {
                statements: t.as_slice(),
                live: part.second,
            };
            choose(r, e, s, t, held, tally)
        }
        StKind::While(e, n, s) => {
            let text = Text {
                statements: s.as_slice(),
                live: part.first,
            };
            rounds(r, e, *n, text, held, tally)
        }
        StKind::Repeat(n, s) => {
            let text = Text {
                statements: s.as_slice(),
                live: part.first,
            };
            turns(r, *n, text, held, tally)
        }
        StKind::Result(e) => give(r, e, held, tally),
        StKind::Call(v, place, es) => call(r, *v, *place, es.as_slice(), held, tally),
    }
}

#[cycle(text)]
fn choose(
    r: &Function,
    e: &Ex,
    s: Text,
    t: Text,
    held: &mut Held,
    tally: &mut Tally,
) -> Result<(), RunFault>
    requires running { IsRunning r.now held.old tally.old }
    requires fits { Fine (functions r.now.linked.now) r.now.at r.now.kernel.now (Stmt.If (expr_of e.now) (block_of s.statements.now) (block_of t.statements.now)) }
    requires first { HasTable s }
    requires second { HasTable t }
    ensures runs { OnOk result (Runs r.now (stmt_items (Stmt.If (expr_of e.now) (block_of s.entry.statements.now) (block_of t.entry.statements.now))) (λ st. st) (λ st. st) held.old tally.old held.new tally.new) }
    ensures exceeds { result ≡ Err fault.Steps → Exceeds r.now (stmt_items (Stmt.If (expr_of e.now) (block_of s.entry.statements.now) (block_of t.entry.statements.now))) (λ st. st) held.old tally.old }
{
    let z = value_of(r, e, held, tally)?;
    if z != 0 {
        block(r, s, held, tally)
    } else {
        block(r, t, held, tally)
    }
}

#[cycle(text)]
fn turns(
    r: &Function,
    n: u32,
    text: Text,
    held: &mut Held,
    tally: &mut Tally,
) -> Result<(), RunFault>
    requires running { IsRunning r.now held.old tally.old }
    requires fits { Fine (functions r.now.linked.now) r.now.at r.now.kernel.now (Stmt.Repeat n (block_of text.statements.now)) }
    requires table { HasTable text }
    ensures runs { OnOk result (Runs r.now (stmt_items (Stmt.Repeat n (block_of text.entry.statements.now))) (λ st. st) (λ st. st) held.old tally.old held.new tally.new) }
    ensures exceeds { result ≡ Err fault.Steps → Exceeds r.now (stmt_items (Stmt.Repeat n (block_of text.entry.statements.now))) (λ st. st) held.old tally.old }
{
    if text.live.is_empty() {
        return tally.walk(u64::from(n));
    }
    for _ in 0..n {
        tally.walk(1)?;
        block(r, text, held, tally)?;
    }
    Ok(())
}

// While the condition holds.
#[cycle(text)]
fn rounds(
    r: &Function,
    e: &Ex,
    n: u32,
    text: Text,
    held: &mut Held,
    tally: &mut Tally,
) -> Result<(), RunFault>
    requires running { IsRunning r.now held.old tally.old }
    requires fits { Fine (functions r.now.linked.now) r.now.at r.now.kernel.now (Stmt.While (expr_of e.now) n (block_of text.statements.now)) }
    requires table { HasTable text }
    ensures runs { OnOk result (Runs r.now (stmt_items (Stmt.While (expr_of e.now) n (block_of text.entry.statements.now))) (λ st. st) (λ st. st) held.old tally.old held.new tally.new) }
    ensures exceeds { result ≡ Err fault.Steps → Exceeds r.now (stmt_items (Stmt.While (expr_of e.now) n (block_of text.entry.statements.now))) (λ st. st) held.old tally.old }
{
    for _ in 0..n {
        let z = value_of(r, e, held, tally)?;
        if z == 0 {
            return Ok(());
        }
        tally.walk(1)?;
        block(r, text, held, tally)?;
    }
    Ok(())
}

#[cycle(text)]
fn call(
    r: &Function,
    v: u32,
    place: u32,
    es: &[Ex],
    held: &mut Held,
    tally: &mut Tally,
) -> Result<(), RunFault>
    requires running { IsRunning r.now held.old tally.old }
    requires fits { Fine (functions r.now.linked.now) r.now.at r.now.kernel.now (Stmt.Call v place (exprs_of es.now)) }
    ensures runs { OnOk result (Runs r.now (stmt_items (Stmt.Call v place (exprs_of es.now))) (λ st. st) (λ st. st) held.old tally.old held.new tally.new) }
    ensures exceeds { result ≡ Err fault.Steps → Exceeds r.now (stmt_items (Stmt.Call v place (exprs_of es.now))) (λ st. st) held.old tally.old }
{
    let callee = r.callee(place);
    let mut spare = tally.spare(callee.at())?;
    let frame = spare.as_mut();
    values_of(r, es, held, tally, &mut frame.arguments)?;
    frame.held.start(callee.vars(), frame.arguments.as_slice())?;
    tally.enter(callee.at(), callee.numbers())?;
    block(&callee, callee.body(), &mut frame.held, tally)?;
    tally.take(r.at(), r.write_label(v))?;
    held.write(v, frame.held.result());
    tally.keep(callee.at(), spare);
    Ok(())
}
