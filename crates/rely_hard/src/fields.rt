ghost use Rattle.std.specs.Prelude.{◌≡◌, ◌≤◌, List, length, option_map, IfOk, MatchResult, Ok, Err};
ghost use Rattle.serde_json.specs.View.{view, items_view};
ghost use Rattle.rely_num.specs.Texts.{Bytes};
ghost use Rattle.rely_hard.specs.Meaning.{text_at, atto_at, base_at, energy_at, named_at, list_at, few_at, object_at};

use crate::place::Place;
use crate::{HardFault, HardWhy};
use rely_num::{Atto, is_name};
use serde_json::Value;

/// The least base, a half.
const BASE_LEAST: u64 = 500_000_000_000_000_000;

/// The greatest base, one less a billionth.
const BASE_MOST: u64 = 999_999_999_000_000_000;

/// The greatest energy.
const ENERGY_MOST: u64 = 1_000_000;

/// The most bytes of a name.
const NAME_MOST: usize = 32;

/// The most members of a list of kinds or memories.
const LIST_MOST: usize = 32;

#[tactic(auto, unfolding(crate::specs::Meaning::text_at))]
pub fn text_at(v: Option<&Value>, place: Place) -> Result<&str, HardFault>
    ensures { MatchResult result
        (λ text. text_at place (option_map (λ v. view v.now) v.entry) ≡ Ok text.now)
        (λ e. text_at place (option_map (λ v. view v.now) v.entry) ≡ Err e) }
{
    let Some(v) = v else {
        return Err(place.refused(HardWhy::Missing));
    };
    match v.as_str() {
        None => Err(place.refused(HardWhy::Kind)),
        Some(text) => Ok(text),
    }
}

#[tactic(auto, unfolding(crate::specs::Meaning::atto_at))]
pub fn atto_at(v: Option<&Value>, place: Place) -> Result<Atto, HardFault>
    ensures { result ≡ atto_at place (option_map (λ v. view v.now) v.entry) }
{
    let text = text_at(v, place)?;
    match Atto::read(text.as_bytes()) {
        Err(_) => Err(place.refused(HardWhy::Range)),
        Ok(atto) => Ok(atto),
    }
}

#[tactic(auto, unfolding(crate::specs::Meaning::base_at))]
pub fn base_at(v: Option<&Value>, place: Place) -> Result<Atto, HardFault>
    ensures { result ≡ base_at place (option_map (λ v. view v.now) v.entry) }
{
    let base = atto_at(v, place)?;
    if base.get() < BASE_LEAST || BASE_MOST < base.get() {
        Err(place.refused(HardWhy::Range))
    } else {
        Ok(base)
    }
}

#[tactic(auto, unfolding(crate::specs::Meaning::energy_at))]
pub fn energy_at(v: Option<&Value>, place: Place) -> Result<u32, HardFault>
    ensures { result ≡ energy_at place (option_map (λ v. view v.now) v.entry) }
{
    let Some(v) = v else {
        return Err(place.refused(HardWhy::Missing));
    };
    match v.as_u64() {
        None => Err(place.refused(HardWhy::Kind)),
        Some(n) if n > ENERGY_MOST => Err(place.refused(HardWhy::Range)),
        Some(n) => Ok(n as u32),
    }
}

#[tactic(auto, unfolding(crate::specs::Meaning::named_at))]
pub fn named_at(v: Option<&Value>, place: Place) -> Result<&[u8], HardFault>
    ensures { MatchResult result
        (λ text. named_at place (option_map (λ v. view v.now) v.entry) ≡ Ok text.now)
        (λ e. named_at place (option_map (λ v. view v.now) v.entry) ≡ Err e) }
{
    let text = text_at(v, place)?.as_bytes();
    if !is_name(text) || text.len() > NAME_MOST {
        Err(place.refused(HardWhy::Range))
    } else {
        Ok(text)
    }
}

#[tactic(auto, unfolding(crate::specs::Meaning::list_at))]
pub fn list_at(v: Option<&Value>, place: Place) -> Result<&[Value], HardFault>
    ensures { MatchResult result
        (λ vs. list_at place (option_map (λ v. view v.now) v.entry) ≡ Ok (items_view vs.now))
        (λ e. list_at place (option_map (λ v. view v.now) v.entry) ≡ Err e) }
{
    let Some(v) = v else {
        return Err(place.refused(HardWhy::Missing));
    };
    match v.as_array() {
        None => Err(place.refused(HardWhy::Kind)),
        Some(vs) => Ok(vs.as_slice()),
    }
}

#[tactic(auto, using(crate::proofs::Lists::count_of_view), unfolding(crate::specs::Meaning::few_at))]
pub fn few_at(v: Option<&Value>, place: Place) -> Result<&[Value], HardFault>
    ensures value { MatchResult result
        (λ vs. few_at place (option_map (λ v. view v.now) v.entry) ≡ Ok (items_view vs.now))
        (λ e. few_at place (option_map (λ v. view v.now) v.entry) ≡ Err e) }
    ensures few { IfOk result (λ vs. length vs.now ≤ 32) }
{
    let vs = list_at(v, place)?;
    if vs.len() > LIST_MOST {
        Err(place.refused(HardWhy::Many))
    } else {
        Ok(vs)
    }
}

#[tactic(auto, unfolding(crate::specs::Meaning::object_at))]
pub fn object_at(v: &Value, place: Place) -> Result<(), HardFault>
    ensures { result ≡ object_at place (view v.now) }
{
    if v.as_object().is_none() {
        Err(place.refused(HardWhy::Kind))
    } else {
        Ok(())
    }
}
