ghost use Rattle.std.specs.Prelude.{◌≡◌, ◌≤◌, ◌⊎◌, [], map, length, IfOk, IfErr, MatchResult, Ok, Err, Some, None};
ghost use Rattle.std.specs.List.{All};
ghost use Rattle.serde_json.specs.View.{view};
ghost use Rattle.rely_kernel.specs.Bound.{IsStart};
ghost use Rattle.rely_kernel.specs.Valid.{IsValid};
ghost use Rattle.rely_inputs.specs.Samples.{reading, list_of_samples, numbered_sample, samples_from, samples_of, each_after, fault, place};

use crate::place::Place;
use crate::sample::sample_at;
use crate::{InputFault, InputWhy};
use rely_kernel::{Kernel, Store};
use rely_num::List;
use serde_json::Value;
use std::alloc::Global;

/// The most samples of a file.
const SAMPLES_MOST: usize = 64;

#[tactic(auto, using(crate::proofs::Utf8::utf8))]
fn value_of(alloc: Global, text: &[u8]) -> Result<Value, InputFault>
    ensures ok { IfOk result (λ v. reading text.now ≡ Some (view v)) }
    ensures err { IfErr result (λ e. (e ≡ InputFault.Memory) ⊎ ((reading text.now ≡ None) × (e ≡ fault InputWhy.Json (place 0 0)))) }
{
    match Value::from_slice(alloc, text) {
        Ok(v) => Ok(v),
        Err(e) => {
            if e.is_memory() {
                Err(InputFault::Memory)
            } else {
                Err(Place::new(0, 0).refused(InputWhy::Json))
            }
        }
    }
}

#[tactic(auto, using(crate::proofs::Lists::lists), unfolding(crate::specs::Samples::list_of_samples))]
fn list_of_samples(v: &Value) -> Result<&[Value], InputFault>
    ensures value { MatchResult result
        (λ vs. list_of_samples (view v.now) ≡ Ok (map view vs.now))
        (λ e. list_of_samples (view v.now) ≡ Err e) }
    ensures few { IfOk result (λ vs. length vs.now ≤ 64) }
{
    let place = Place::new(0, 0);
    let Some(list) = v.get("samples") else {
        return Err(place.refused(InputWhy::Shape));
    };
    let Some(vs) = list.as_array() else {
        return Err(place.refused(InputWhy::Shape));
    };
    if vs.is_empty() || vs.len() > SAMPLES_MOST {
        Err(place.refused(InputWhy::Count))
    } else {
        Ok(vs.as_slice())
    }
}

#[tactic(auto, using(crate::proofs::Lists::lists))]
fn stores_of(alloc: Global, k: &Kernel, vs: &[Value]) -> Result<Vec<Store>, InputFault>
    requires valid { IsValid k.now }
    requires few { length vs.now ≤ 64 }
    ensures ok { IfOk result (λ ss. each_after (numbered_sample k.now) [] (map view vs.now) ≡ Ok ss.items) }
    ensures err { IfErr result (λ e. (e ≡ InputFault.Memory) ⊎ (each_after (numbered_sample k.now) [] (map view vs.now) ≡ Err e)) }
{
    let mut stores = Vec::new(alloc);
    for v in vs {
        let store = sample_at(alloc, k, v, stores.len() as u32 + 1)?;
        stores.push(store)?;
    }
    Ok(stores)
}

#[tactic(auto, unfolding(crate::specs::Samples::samples_from))]
fn samples_from(alloc: Global, k: &Kernel, v: &Value) -> Result<List<Store>, InputFault>
    requires { IsValid k.now }
    ensures ok { IfOk result (λ ss. samples_from k.now (view v.now) ≡ Ok ss) }
    ensures err { IfErr result (λ e. (e ≡ InputFault.Memory) ⊎ (samples_from k.now (view v.now) ≡ Err e)) }
{
    let vs = list_of_samples(v)?;
    let stores = stores_of(alloc, k, vs)?;
    Ok(List::from_vec(stores))
}

/// The stores that a file of JSON names for a kernel, one for each of its 1 to 64 samples.
///
/// Keys beside `samples` are passed over, and of a key that an object has twice the last stands.
pub fn read(alloc: Global, k: &Kernel, text: &[u8]) -> Result<List<Store>, InputFault>
    requires { IsValid k.now }
    ensures ok { IfOk result (λ ss. samples_of k.now text.now ≡ Ok ss) }
    ensures err { IfErr result (λ e. (e ≡ InputFault.Memory) ⊎ (samples_of k.now text.now ≡ Err e)) }
    ensures starts { IfOk result (λ ss. All (IsStart k.now) ss) }
    ensures count { IfOk result (λ ss. (1 ≤ length ss) × (length ss ≤ 64)) }
{
    let v = value_of(alloc, text)?;
    samples_from(alloc, k, &v)
}
