ghost use Rattle.std.specs.Prelude.{◌≡◌, ◌≤◌, ◌⊎◌, ◌++◌, [], map, length, option_map, IfOk, IfErr, Ok, Err};
ghost use Rattle.serde_json.specs.Find.{get_member};
ghost use Rattle.serde_json.specs.View.{view, members_view};
ghost use Rattle.rely_num.specs.Texts.{is_among};
ghost use Rattle.rely_kernel.specs.Machine.{zeros, parameters, locals};
ghost use Rattle.rely_kernel.specs.Valid.{IsValid};
ghost use Rattle.rely_inputs.specs.Samples.{parameter_at, sample_at, each_after, has_other};

use crate::cell::cell_at;
use crate::place::Place;
use crate::{InputFault, InputWhy};
use rely_kernel::{Kernel, Store, Var};
use rely_num::List;
use serde_json::{Map, Value};
use std::alloc::Global;

fn first_local(k: &Kernel) -> usize
    ensures { result ≡ length (parameters k.now) }
{
    k.vars.as_slice().iter().filter(|var| var.param).count()
}

fn parameters(k: &Kernel) -> &[Var]
    requires { IsValid k.now }
    ensures { result.now ≡ parameters k.now }
{
    &k.vars.as_slice()[..first_local(k)]
}

fn locals(k: &Kernel) -> &[Var]
    requires { IsValid k.now }
    ensures { result.now ≡ locals k.now }
{
    &k.vars.as_slice()[first_local(k)..]
}

// A name is a text of bytes, so each key is compared with it.
fn member_of<'v>(members: &'v Map<String, Value>, name: &[u8]) -> Option<&'v Value>
    ensures { option_map (λ v. view v.now) result ≡ get_member name.now (members_view members.now.entries) }
{
    for (key, value) in members.iter() {
        if key.as_bytes() == name {
            return Some(value);
        }
    }
    None
}

fn has_name(vars: &[Var], name: &[u8]) -> bool
    ensures { result ≡ is_among name.now (map (λ v. v.name) vars.now) }
{
    vars.iter().any(|var| name == var.name.as_slice())
}

fn has_other(members: &Map<String, Value>, parameters: &[Var]) -> bool
    ensures { result ≡ has_other (map (λ v. v.name) parameters.now) (members_view members.now.entries) }
{
    for (key, _) in members.iter() {
        if !has_name(parameters, key.as_bytes()) {
            return true;
        }
    }
    false
}

#[tactic(auto, using(crate::proofs::Lists::lists), unfolding(crate::specs::Samples::parameter_at))]
fn cells_of(
    alloc: Global,
    members: &Map<String, Value>,
    parameters: &[Var],
    sample: u32,
) -> Result<Vec<List<i64>>, InputFault>
    requires { length parameters.now ≤ 63 }
    ensures ok { IfOk result (λ cells. each_after (parameter_at sample (members_view members.now.entries)) [] parameters.now ≡ Ok cells.items) }
    ensures err { IfErr result (λ e. (e ≡ InputFault.Memory) ⊎ (each_after (parameter_at sample (members_view members.now.entries)) [] parameters.now ≡ Err e)) }
{
    let mut cells = Vec::new(alloc);
    for var in parameters {
        let place = Place::new(sample, cells.len() as u32 + 1);
        let value = member_of(members, var.name.as_slice());
        let cell = cell_at(alloc, value, var.length, place)?;
        cells.push(cell)?;
    }
    Ok(cells)
}

fn zeros_of(alloc: Global, var: &Var) -> Result<List<i64>, InputFault>
    ensures ok { IfOk result (λ zs. zs ≡ zeros var.now) }
    ensures err { IfErr result (λ e. e ≡ InputFault.Memory) }
{
    let size = var.length.unwrap_or(1) as usize;
    let numbers = vec![in alloc; 0i64; size]?;
    Ok(List::from_vec(numbers))
}

fn with_zeros(
    alloc: Global,
    before: Vec<List<i64>>,
    locals: &[Var],
) -> Result<Vec<List<i64>>, InputFault>
    ensures ok { IfOk result (λ cells. cells.items ≡ before.items ++ map zeros locals.now) }
    ensures err { IfErr result (λ e. e ≡ InputFault.Memory) }
{
    let mut cells = before;
    for var in locals {
        let numbers = zeros_of(alloc, var)?;
        cells.push(numbers)?;
    }
    Ok(cells)
}

/// The store that a sample names: its parameters hold the members of their names, and all else is 0.
#[tactic(auto, unfolding(crate::specs::Samples::sample_at))]
pub fn sample_at(alloc: Global, k: &Kernel, v: &Value, sample: u32) -> Result<Store, InputFault>
    requires { IsValid k.now }
    ensures ok { IfOk result (λ s. sample_at k.now sample (view v.now) ≡ Ok s) }
    ensures err { IfErr result (λ e. (e ≡ InputFault.Memory) ⊎ (sample_at k.now sample (view v.now) ≡ Err e)) }
{
    let place = Place::new(sample, 0);
    let Some(members) = v.as_object() else {
        return Err(place.refused(InputWhy::Shape));
    };
    let parameters = parameters(k);
    let cells = cells_of(alloc, members, parameters, sample)?;
    if has_other(members, parameters) {
        return Err(place.refused(InputWhy::Extra));
    }
    let cells = with_zeros(alloc, cells, locals(k))?;
    Ok(Store {
        cells: List::from_vec(cells),
        result: 0,
    })
}
