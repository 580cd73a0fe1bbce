ghost use Rattle.std.specs.Prelude.{◌≡◌, ◌⊎◌, IfOk, IfErr, Ok, Err, Some, None};
ghost use Rattle.serde_json.specs.View.{view};
ghost use Rattle.rely_hard.specs.Meaning.{reading, hardware_from, hardware_of, fault, place};
ghost use Rattle.rely_hard.specs.Valid.{IsHardware};

use crate::fields::{base_at, object_at};
use crate::memories::memories_at;
use crate::operators::operators_at;
use crate::place::Place;
use crate::{HardFault, HardWhy, Hardware, Key};
use serde_json::Value;
use std::alloc::Global;

#[tactic(auto, unfolding(crate::specs::Meaning::hardware_from))]
fn hardware_from(alloc: Global, v: &Value) -> Result<Hardware, HardFault>
    ensures ok { IfOk result (λ h. hardware_from (view v.now) ≡ Ok h) }
    ensures err { IfErr result (λ e. (e ≡ HardFault.Memory) ⊎ (hardware_from (view v.now) ≡ Err e)) }
{
    object_at(v, Place::new(Key::Root, 0, 0))?;
    let base = base_at(v.get("base"), Place::new(Key::Base, 0, 0))?;
    let operators = operators_at(alloc, v.get("operators"))?;
    let memories = memories_at(alloc, v.get("memories"))?;
    Ok(Hardware {
        base,
        operators,
        memories,
    })
}

#[tactic(auto, using(crate::proofs::Utf8::utf8))]
fn value_of(alloc: Global, text: &[u8]) -> Result<Value, HardFault>
    ensures ok { IfOk result (λ v. reading text.now ≡ Some (view v)) }
    ensures err { IfErr result (λ e. (e ≡ HardFault.Memory) ⊎ ((reading text.now ≡ None) × (e ≡ fault HardWhy.Json (place Key.Root 0 0)))) }
{
    match Value::from_slice(alloc, text) {
        Ok(v) => Ok(v),
        Err(e) => {
            if e.is_memory() {
                Err(HardFault::Memory)
            } else {
                Err(Place::new(Key::Root, 0, 0).refused(HardWhy::Json))
            }
        }
    }
}

/// The hardware that a file of JSON names.
///
/// Keys that the format doesn't have are passed over, and of a key that an object has twice the last stands.
pub fn read(alloc: Global, text: &[u8]) -> Result<Hardware, HardFault>
    ensures ok { IfOk result (λ h. hardware_of text.now ≡ Ok h) }
    ensures err { IfErr result (λ e. (e ≡ HardFault.Memory) ⊎ (hardware_of text.now ≡ Err e)) }
    ensures valid { IfOk result IsHardware }
{
    let v = value_of(alloc, text)?;
    hardware_from(alloc, &v)
}
