ghost use Rattle.std.specs.Prelude.{◌≡◌, ◌≤◌, ◌<◌, ◌^◌, ◌⊎◌, [], map, length, option_map, IfOk, IfErr, MatchResult, Ok, Err};
ghost use Rattle.serde_json.specs.View.{view, items_view};
ghost use Rattle.rely_num.specs.Texts.{is_among};
ghost use Rattle.rely_hard.specs.Meaning.{name_at, kind_at, kinds_at, each_after, has_exact_kind};

use crate::fields::{atto_at, energy_at, few_at, named_at, object_at};
use crate::place::Place;
use crate::{HardFault, HardWhy, Key, KindSpec};
use rely_num::List;
use serde_json::Value;
use std::alloc::Global;

/// The name of what is always right.
pub const EXACT: &[u8] = b"exact";

/// The probability of what is always right, in attos.
pub const ONE: u64 = 1_000_000_000_000_000_000;

fn has_kind(kinds: &[KindSpec], name: &[u8]) -> bool
    ensures { result ≡ is_among name.now (map (λ k. k.name) kinds.now) }
{
    kinds.iter().any(|kind| name == kind.name.as_slice())
}

#[tactic(auto, unfolding(crate::specs::Meaning::name_at))]
fn name_at<'a>(
    v: Option<&'a Value>,
    place: Place,
    before: &[KindSpec],
) -> Result<&'a [u8], HardFault>
    ensures { MatchResult result
        (λ name. name_at (map (λ x. x.name) before.now) place (option_map (λ v. view v.now) v.entry) ≡ Ok name.now)
        (λ e. name_at (map (λ x. x.name) before.now) place (option_map (λ v. view v.now) v.entry) ≡ Err e) }
{
    let name = named_at(v, place)?;
    if has_kind(before, name) {
        Err(place.refused(HardWhy::Repeated))
    } else {
        Ok(name)
    }
}

fn has_exact_kind(kinds: &[KindSpec]) -> bool
    ensures { result ≡ has_exact_kind kinds.now }
{
    kinds.iter().any(|kind| kind.name.as_slice() == EXACT && kind.right.get() == ONE)
}

#[tactic(auto, unfolding(crate::specs::Meaning::kind_at))]
fn kind_at(alloc: Global, v: &Value, outer: u32, before: &[KindSpec]) -> Result<KindSpec, HardFault>
    requires { length before.now ≤ 32 }
    ensures ok { IfOk result (λ k. kind_at outer before.now (view v.now) ≡ Ok k) }
    ensures err { IfErr result (λ e. (e ≡ HardFault.Memory) ⊎ (kind_at outer before.now (view v.now) ≡ Err e)) }
{
    let inner = before.len() as u32 + 1;
    object_at(v, Place::new(Key::Kinds, outer, inner))?;
    let name = name_at(v.get("name"), Place::new(Key::Name, outer, inner), before)?;
    let right = atto_at(v.get("right"), Place::new(Key::Right, outer, inner))?;
    let energy = energy_at(v.get("energy"), Place::new(Key::Energy, outer, inner))?;
    let name = List::from_vec(name.to_vec(alloc)?);
    Ok(KindSpec {
        name,
        right,
        energy,
    })
}

#[tactic(auto, using(crate::proofs::Lists::one_more))]
fn kinds_of(alloc: Global, vs: &[Value], outer: u32) -> Result<Vec<KindSpec>, HardFault>
    requires { length vs.now ≤ 32 }
    ensures ok { IfOk result (λ ks. each_after (kind_at outer) [] (items_view vs.now) ≡ Ok ks.items) }
    ensures err { IfErr result (λ e. (e ≡ HardFault.Memory) ⊎ (each_after (kind_at outer) [] (items_view vs.now) ≡ Err e)) }
{
    let mut kinds = Vec::new(alloc);
    for v in vs {
        let kind = kind_at(alloc, v, outer, kinds.as_slice())?;
        kinds.push(kind)?;
    }
    Ok(kinds)
}

/// The kinds of the operator of number `outer`.
#[tactic(auto, unfolding(crate::specs::Meaning::kinds_at))]
pub fn kinds_at(alloc: Global, v: Option<&Value>, outer: u32) -> Result<List<KindSpec>, HardFault>
    ensures ok { IfOk result (λ ks. kinds_at outer (option_map (λ v. view v.now) v.entry) ≡ Ok ks) }
    ensures err { IfErr result (λ e. (e ≡ HardFault.Memory) ⊎ (kinds_at outer (option_map (λ v. view v.now) v.entry) ≡ Err e)) }
{
    let place = Place::new(Key::Kinds, outer, 0);
    let vs = few_at(v, place)?;
    let kinds = kinds_of(alloc, vs, outer)?;
    if has_exact_kind(kinds.as_slice()) {
        Ok(List::from_vec(kinds))
    } else {
        Err(place.refused(HardWhy::NoExact))
    }
}
