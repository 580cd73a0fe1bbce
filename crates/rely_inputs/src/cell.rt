ghost use Rattle.std.specs.Prelude.{◌≡◌, ◌⊎◌, [], map, option_map, IfOk, IfErr, MatchResult, Ok, Err};
ghost use Rattle.serde_json.specs.View.{view};
ghost use Rattle.rely_inputs.specs.Samples.{number_at, list_at, cell_at, each_after};

use crate::place::Place;
use crate::{InputFault, InputWhy};
use rely_num::List;
use serde_json::Value;
use std::alloc::Global;

#[tactic(auto, unfolding(crate::specs::Samples::number_at))]
fn number_at(v: &Value, place: Place) -> Result<i64, InputFault>
    ensures { result ≡ number_at place (view v.now) }
{
    match v.as_i64() {
        None => Err(place.refused(InputWhy::Number)),
        Some(number) => Ok(number),
    }
}

#[tactic(auto, using(crate::proofs::Lists::lists), unfolding(crate::specs::Samples::list_at))]
fn list_at(v: &Value, length: u32, place: Place) -> Result<&[Value], InputFault>
    ensures { MatchResult result
        (λ vs. list_at place length (view v.now) ≡ Ok (map view vs.now))
        (λ e. list_at place length (view v.now) ≡ Err e) }
{
    let Some(vs) = v.as_array() else {
        return Err(place.refused(InputWhy::Length));
    };
    if vs.len() != length as usize {
        Err(place.refused(InputWhy::Length))
    } else {
        Ok(vs.as_slice())
    }
}

#[tactic(auto, using(crate::proofs::Lists::lists))]
fn numbers_of(alloc: Global, vs: &[Value], place: Place) -> Result<Vec<i64>, InputFault>
    ensures ok { IfOk result (λ zs. each_after (λ _ d. number_at place d) [] (map view vs.now) ≡ Ok zs.items) }
    ensures err { IfErr result (λ e. (e ≡ InputFault.Memory) ⊎ (each_after (λ _ d. number_at place d) [] (map view vs.now) ≡ Err e)) }
{
    let mut numbers = Vec::new(alloc);
    for v in vs {
        let number = number_at(v, place)?;
        numbers.push(number)?;
    }
    Ok(numbers)
}

/// What a parameter holds: one number, or for an array as many as its length.
#[tactic(auto, unfolding(crate::specs::Samples::cell_at))]
pub fn cell_at(
    alloc: Global,
    v: Option<&Value>,
    length: Option<u32>,
    place: Place,
) -> Result<List<i64>, InputFault>
    ensures ok { IfOk result (λ zs. cell_at place length (option_map (λ v. view v.now) v.entry) ≡ Ok zs) }
    ensures err { IfErr result (λ e. (e ≡ InputFault.Memory) ⊎ (cell_at place length (option_map (λ v. view v.now) v.entry) ≡ Err e)) }
{
    let Some(v) = v else {
        return Err(place.refused(InputWhy::Missing));
    };
    match length {
        None => {
            let number = number_at(v, place)?;
            Ok(List::from_vec([number].to_vec(alloc)?))
        }
        Some(length) => {
            let vs = list_at(v, length, place)?;
            let numbers = numbers_of(alloc, vs, place)?;
            Ok(List::from_vec(numbers))
        }
    }
}
