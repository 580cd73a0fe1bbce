ghost use Rattle.std.specs.Prelude.{◌≡◌, ◌≤◌, ◌⊎◌, [], map, length, option_map, IfOk, IfErr, MatchResult, Ok, Err};
ghost use Rattle.serde_json.specs.View.{view, items_view};
ghost use Rattle.rely_num.specs.Texts.{is_among};
ghost use Rattle.rely_hard.specs.Meaning.{name_at, memory_at, memories_at, each_after, has_exact_memory};

use crate::fields::{atto_at, energy_at, few_at, named_at, object_at};
use crate::kinds::{EXACT, ONE};
use crate::place::Place;
use crate::{HardFault, HardWhy, Key, MemSpec};
use rely_num::List;
use serde_json::Value;
use std::alloc::Global;

fn has_memory(memories: &[MemSpec], name: &[u8]) -> bool
    ensures { result ≡ is_among name.now (map (λ m. m.name) memories.now) }
{
    memories.iter().any(|memory| name == memory.name.as_slice())
}

#[tactic(auto, unfolding(crate::specs::Meaning::name_at))]
fn name_at<'a>(
    v: Option<&'a Value>,
    place: Place,
    before: &[MemSpec],
) -> Result<&'a [u8], HardFault>
    ensures { MatchResult result
        (λ name. name_at (map (λ x. x.name) before.now) place (option_map (λ v. view v.now) v.entry) ≡ Ok name.now)
        (λ e. name_at (map (λ x. x.name) before.now) place (option_map (λ v. view v.now) v.entry) ≡ Err e) }
{
    let name = named_at(v, place)?;
    if has_memory(before, name) {
        Err(place.refused(HardWhy::Repeated))
    } else {
        Ok(name)
    }
}

fn has_exact_memory(memories: &[MemSpec]) -> bool
    ensures { result ≡ has_exact_memory memories.now }
{
    memories.iter().any(|memory| memory.name.as_slice() == EXACT
        && memory.read.get() == ONE
        && memory.write.get() == ONE)
}

#[tactic(auto, unfolding(crate::specs::Meaning::memory_at))]
fn memory_at(alloc: Global, v: &Value, before: &[MemSpec]) -> Result<MemSpec, HardFault>
    requires { length before.now ≤ 32 }
    ensures ok { IfOk result (λ m. memory_at before.now (view v.now) ≡ Ok m) }
    ensures err { IfErr result (λ e. (e ≡ HardFault.Memory) ⊎ (memory_at before.now (view v.now) ≡ Err e)) }
{
    let outer = before.len() as u32 + 1;
    object_at(v, Place::new(Key::Memories, outer, 0))?;
    let name = name_at(v.get("name"), Place::new(Key::Name, outer, 0), before)?;
    let read = atto_at(v.get("read"), Place::new(Key::Read, outer, 0))?;
    let write = atto_at(v.get("write"), Place::new(Key::Write, outer, 0))?;
    let read_energy = energy_at(v.get("read_energy"), Place::new(Key::ReadEnergy, outer, 0))?;
    let write_energy = energy_at(
        v.get("write_energy"),
        Place::new(Key::WriteEnergy, outer, 0),
    )?;
    let hold = energy_at(v.get("hold"), Place::new(Key::Hold, outer, 0))?;
    let name = List::from_vec(name.to_vec(alloc)?);
    Ok(MemSpec {
        name,
        read,
        write,
        read_energy,
        write_energy,
        hold,
    })
}

#[tactic(auto, using(crate::proofs::Lists::one_more))]
fn memories_of(alloc: Global, vs: &[Value]) -> Result<Vec<MemSpec>, HardFault>
    requires { length vs.now ≤ 32 }
    ensures ok { IfOk result (λ ms. each_after memory_at [] (items_view vs.now) ≡ Ok ms.items) }
    ensures err { IfErr result (λ e. (e ≡ HardFault.Memory) ⊎ (each_after memory_at [] (items_view vs.now) ≡ Err e)) }
{
    let mut memories = Vec::new(alloc);
    for v in vs {
        let memory = memory_at(alloc, v, memories.as_slice())?;
        memories.push(memory)?;
    }
    Ok(memories)
}

#[tactic(auto, unfolding(crate::specs::Meaning::memories_at))]
pub fn memories_at(alloc: Global, v: Option<&Value>) -> Result<List<MemSpec>, HardFault>
    ensures ok { IfOk result (λ ms. memories_at (option_map (λ v. view v.now) v.entry) ≡ Ok ms) }
    ensures err { IfErr result (λ e. (e ≡ HardFault.Memory) ⊎ (memories_at (option_map (λ v. view v.now) v.entry) ≡ Err e)) }
{
    let place = Place::new(Key::Memories, 0, 0);
    let vs = few_at(v, place)?;
    let memories = memories_of(alloc, vs)?;
    if has_exact_memory(memories.as_slice()) {
        Ok(List::from_vec(memories))
    } else {
        Err(place.refused(HardWhy::NoExact))
    }
}
