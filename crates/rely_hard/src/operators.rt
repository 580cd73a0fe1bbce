ghost use Rattle.std.specs.Prelude.{◌≡◌, ◌≤◌, ◌⊎◌, [], length, option_map, IfOk, IfErr, Ok, Err};
ghost use Rattle.std.specs.List.{list_any};
ghost use Rattle.serde_json.specs.View.{view, items_view};
ghost use Rattle.rely_num.specs.Ops.{is_op};
ghost use Rattle.rely_hard.specs.Meaning.{op_at, operator_at, operators_at, each_after};
ghost use Rattle.rely_hard.specs.Valid.{AreOnce};

use crate::fields::{list_at, object_at, text_at};
use crate::kinds::kinds_at;
use crate::place::Place;
use crate::{HardFault, HardWhy, Key, OpSpec};
use rely_num::{List, Op};
use serde_json::Value;
use std::alloc::Global;

fn has_operator(operators: &[OpSpec], op: Op) -> bool
    ensures { result ≡ list_any (λ o. is_op op o.op) operators.now }
{
    operators.iter().any(|operator| op == operator.op)
}

#[tactic(auto, unfolding(crate::specs::Meaning::op_at))]
fn op_at(v: Option<&Value>, place: Place, before: &[OpSpec]) -> Result<Op, HardFault>
    ensures { result ≡ op_at before.now place (option_map (λ v. view v.now) v.entry) }
{
    let text = text_at(v, place)?;
    let Some(op) = Op::of_text(text.as_bytes()) else {
        return Err(place.refused(HardWhy::Range));
    };
    if has_operator(before, op) {
        Err(place.refused(HardWhy::Repeated))
    } else {
        Ok(op)
    }
}

#[tactic(auto, unfolding(crate::specs::Meaning::operator_at))]
fn operator_at(alloc: Global, v: &Value, before: &[OpSpec]) -> Result<OpSpec, HardFault>
    requires { length before.now ≤ 14 }
    ensures ok { IfOk result (λ o. operator_at before.now (view v.now) ≡ Ok o) }
    ensures err { IfErr result (λ e. (e ≡ HardFault.Memory) ⊎ (operator_at before.now (view v.now) ≡ Err e)) }
{
    let outer = before.len() as u32 + 1;
    object_at(v, Place::new(Key::Operators, outer, 0))?;
    let op = op_at(v.get("op"), Place::new(Key::Op, outer, 0), before)?;
    let kinds = kinds_at(alloc, v.get("kinds"), outer)?;
    Ok(OpSpec { op, kinds })
}

#[tactic(auto, using(crate::proofs::Kept::one_operator_more))]
fn operators_of(alloc: Global, vs: &[Value]) -> Result<Vec<OpSpec>, HardFault>
    ensures ok { IfOk result (λ os. each_after operator_at [] (items_view vs.now) ≡ Ok os.items) }
    ensures err { IfErr result (λ e. (e ≡ HardFault.Memory) ⊎ (each_after operator_at [] (items_view vs.now) ≡ Err e)) }
{
    let mut operators = Vec::new(alloc);
    for v in vs {
        let operator = operator_at(alloc, v, operators.as_slice())?;
        operators.push(operator)?;
    }
    Ok(operators)
}

#[tactic(auto, unfolding(crate::specs::Meaning::operators_at))]
pub fn operators_at(alloc: Global, v: Option<&Value>) -> Result<List<OpSpec>, HardFault>
    ensures ok { IfOk result (λ os. operators_at (option_map (λ v. view v.now) v.entry) ≡ Ok os) }
    ensures err { IfErr result (λ e. (e ≡ HardFault.Memory) ⊎ (operators_at (option_map (λ v. view v.now) v.entry) ≡ Err e)) }
{
    let vs = list_at(v, Place::new(Key::Operators, 0, 0))?;
    let operators = operators_of(alloc, vs)?;
    Ok(List::from_vec(operators))
}
