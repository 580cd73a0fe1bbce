//! What is kept of the vectors of a pool, so that a leaf costs one sum over the decisions, and no pass over the rows.
ghost use Rattle.std.specs.Prelude.{◌≡◌, ◌<◌, ◌≤◌, ◌*◌, ◌^◌, pos, neg_ℤ, ◌-ℤ◌, ◌≤ℤ◌, length, option_copied};
ghost use Rattle.chisel_table.specs.Choices.{IsChoice, energy};
ghost use Rattle.chisel_table.specs.Closings.{IsBest, vector_closes};
ghost use Rattle.chisel_table.specs.declared.lagrangian.TheConstants.{ENERGY_WEIGHT};
ghost use Rattle.chisel_table.specs.Lagrangian.{IsVector, excess, least_sum, value, weight};
ghost use Rattle.chisel_table.specs.Partials.{IsPartial};
ghost use Rattle.chisel_table.specs.Sums.{least_to};
ghost use Rattle.chisel_table.specs.Tables.{decision_count, option_count};
ghost use Rattle.chisel_table.specs.Valid.{IsTable};
ghost use Rattle.chisel_cert.specs.Node.{vectors_of};
ghost use Rattle.chisel_check.specs.Prices.{scale_of, ArePenalties, AreLeast, IsKept, AreKept};
ghost use Rattle.chisel_check.specs.Walk.{IsPool};

use chisel_cert::Cert;
use chisel_table::{
    CloseRule, ENERGY_WEIGHT, MAX_DECISIONS, MAX_OPTIONS, Partial, Table, allowance,
    decision_count, energy_at, first_precedes, option_count, options_energy, write_penalties,
};

/// The most vectors of a pool.
pub(crate) const MAX_VECTORS: usize = 16;

/// The places of a grid of penalties: one for each option of each decision.
const PLACES: usize = 4096;

/// A vector with the penalty of each option.
#[derive(Clone, Copy)]
pub(crate) struct Penalties<'a> {
    pub(crate) vector: &'a [u64],
    pub(crate) grid: [u128; PLACES],
}

/// The same with each decision's least price and least penalty, and the budgets times the multipliers.
#[derive(Clone, Copy)]
pub(crate) struct Prices<'a> {
    pub(crate) penalties: Penalties<'a>,
    pub(crate) least_prices: [u128; MAX_DECISIONS],
    pub(crate) least_penalties: [u128; MAX_DECISIONS],
    pub(crate) allowance: i128,
}

/// A certificate, and what is kept of the vectors of its pool.
#[derive(Clone, Copy)]
pub(crate) struct Priced<'a> {
    pub(crate) cert: &'a Cert<'a>,
    pub(crate) prices: &'a [Prices<'a>; MAX_VECTORS],
}

/// The price of an option, or its penalty alone.
fn weight(
    t: &Table,
    priced: bool,
    penalties: &Penalties<'_>,
    decision: usize,
    option: usize,
) -> u128
    requires table { IsTable t.now }
    requires penalties { ArePenalties t.now penalties.now }
    requires decision { decision < decision_count t.now }
    requires option { option < option_count t.now decision }
    ensures value { result ≡ weight t.now (scale_of priced) penalties.now.vector.now decision option }
    ensures bound { result ≤ 2 ^ 114 }
{
    let penalty = penalties.grid[MAX_OPTIONS * decision + option];
    if priced {
        ENERGY_WEIGHT as u128 * energy_at(t, decision, option) as u128 + penalty
    } else {
        penalty
    }
}

fn least_weight(t: &Table, priced: bool, penalties: &Penalties<'_>, decision: usize) -> u128
    requires table { IsTable t.now }
    requires penalties { ArePenalties t.now penalties.now }
    requires decision { decision < decision_count t.now }
    ensures value { let weights = weight t.now (scale_of priced) penalties.now.vector.now decision in
        result ≡ least_to (option_count t.now decision) weights }
    ensures bound { result ≤ 2 ^ 114 }
{
    let mut least = weight(t, priced, penalties, decision, 0);
    for option in 1..option_count(t, decision) {
        least = least.min(weight(t, priced, penalties, decision, option));
    }
    least
}

fn least_weights(t: &Table, priced: bool, penalties: &Penalties<'_>) -> [u128; MAX_DECISIONS]
    requires table { IsTable t.now }
    requires penalties { ArePenalties t.now penalties.now }
    ensures { AreLeast t.now (scale_of priced) penalties.now.vector.now result }
{
    let mut weights = [0; MAX_DECISIONS];
    for d in 0..decision_count(t) {
        weights[d] = least_weight(t, priced, penalties, d);
    }
    weights
}

/// The sum over all decisions of the weight of the fixed option, or else of the least.
fn weights_left(
    t: &Table,
    priced: bool,
    penalties: &Penalties<'_>,
    least: &[u128; MAX_DECISIONS],
    p: &Partial,
) -> u128
    requires table { IsTable t.now }
    requires penalties { ArePenalties t.now penalties.now }
    requires least { AreLeast t.now (scale_of priced) penalties.now.vector.now least.now }
    requires partial { IsPartial t.now p.now }
    ensures value { result ≡ least_sum t.now (weight t.now (scale_of priced) penalties.now.vector.now) p.now }
    ensures bound { result ≤ 2 ^ 122 }
{
    let mut sum = 0;
    for d in 0..decision_count(t) {
        if p.is_unfixed(d) {
            sum += least[d];
        } else {
            sum += weight(t, priced, penalties, d, usize::from(p.slots[d]));
        }
    }
    sum
}

fn penalties_of<'a>(t: &Table, l: &'a [u64]) -> Penalties<'a>
    requires table { IsTable t.now }
    requires vector { IsVector t.now l.now }
    ensures vector { result.vector.now ≡ l.now }
    ensures penalties { ArePenalties t.now result }
{
    let mut grid = [0; PLACES];
    write_penalties(t, l, &mut grid);
    Penalties { vector: l, grid }
}

/// What is kept of a vector.
fn kept<'a>(t: &Table, l: &'a [u64]) -> Prices<'a>
    requires table { IsTable t.now }
    requires vector { IsVector t.now l.now }
    ensures vector { result.penalties.vector.now ≡ l.now }
    ensures kept { IsKept t.now result }
{
    let penalties = penalties_of(t, l);
    Prices {
        penalties,
        least_prices: least_weights(t, true, &penalties),
        least_penalties: least_weights(t, false, &penalties),
        allowance: allowance(t, l),
    }
}

/// What is kept of each vector of a pool.
pub(crate) fn kept_pool<'a>(t: &Table, pool: &'a [&'a [u64]]) -> [Prices<'a>; MAX_VECTORS]
    requires table { IsTable t.now }
    requires pool { IsPool t.now (vectors_of pool.now) }
    requires few { length pool.now ≤ MAX_VECTORS }
    ensures { AreKept t.now (vectors_of pool.now) (length pool.now) result }
{
    let penalties = Penalties {
        vector: &[],
        grid: [0; PLACES],
    };
    let mut all = [Prices {
        penalties,
        least_prices: [0; MAX_DECISIONS],
        least_penalties: [0; MAX_DECISIONS],
        allowance: 0,
    }; MAX_VECTORS];
    for (k, vector) in pool.iter().enumerate() {
        all[k] = kept(t, vector);
    }
    all
}

fn difference(weights: u128, other: i128) -> i128
    requires weights { weights ≤ 2 ^ 123 }
    requires low { neg_ℤ (pos (2 ^ 122)) ≤ℤ other }
    requires high { other ≤ℤ pos (2 ^ 122) }
    ensures { result ≡ pos weights -ℤ other }
{
    weights as i128 - other
}

/// The Lagrangian bound of a part.
fn kept_value(t: &Table, kept: &Prices<'_>, p: &Partial) -> i128
    requires table { IsTable t.now }
    requires kept { IsKept t.now kept.now }
    requires partial { IsPartial t.now p.now }
    ensures { result ≡ value t.now kept.now.penalties.vector.now p.now }
{
    let fixed = ENERGY_WEIGHT as u128 * t.fixed as u128;
    let weights = weights_left(t, true, &kept.penalties, &kept.least_prices, p);
    difference(fixed + weights, kept.allowance)
}

/// What each completion of a part spends above the budgets at least.
fn kept_excess(t: &Table, kept: &Prices<'_>, p: &Partial) -> i128
    requires table { IsTable t.now }
    requires kept { IsKept t.now kept.now }
    requires partial { IsPartial t.now p.now }
    ensures { result ≡ excess t.now kept.now.penalties.vector.now p.now }
{
    let weights = weights_left(t, false, &kept.penalties, &kept.least_penalties, p);
    difference(weights, kept.allowance)
}

/// The energy of the choice with these options, times `ENERGY_WEIGHT`.
fn weighted_energy(t: &Table, options: &[u8]) -> i128
    requires table { IsTable t.now }
    requires choice { IsChoice t.now options.now }
    ensures { result ≡ pos (ENERGY_WEIGHT * energy t.now options.now) }
{
    ENERGY_WEIGHT as i128 * options_energy(t, options) as i128
}

/// Whether a rule closes a part with a vector, beside the choice.
pub(crate) fn kept_closes(
    t: &Table,
    kept: &Prices<'_>,
    p: &Partial,
    choice: Option<&[u8]>,
    rule: CloseRule,
) -> bool
    requires table { IsTable t.now }
    requires kept { IsKept t.now kept.now }
    requires partial { IsPartial t.now p.now }
    requires choice { IsBest t.now (option_copied choice) }
    ensures { result ≡ vector_closes t.now (option_copied choice.entry) p.now rule kept.now.penalties.vector.now }
{
    match (rule, choice) {
        (CloseRule::I, _) => kept_excess(t, kept, p) > 0,
        (CloseRule::D, Some(options)) => kept_value(t, kept, p) > weighted_energy(t, options),
        (CloseRule::T, Some(options)) => {
            let tie = weighted_energy(t, options) - ENERGY_WEIGHT as i128;
            kept_value(t, kept, p) > tie && !first_precedes(t, p, options)
        }
        _ => false,
    }
}

/// Whether a rule closes a part with a vector of its own, beside the choice. What is kept of the vector fills 74 KB of the
/// stack, which no frame of the recursion over the nodes may hold.
#[inline(never)]
pub(crate) fn own_closes(
    t: &Table,
    l: &[u64],
    p: &Partial,
    choice: Option<&[u8]>,
    rule: CloseRule,
) -> bool
    requires table { IsTable t.now }
    requires vector { IsVector t.now l.now }
    requires partial { IsPartial t.now p.now }
    requires choice { IsBest t.now (option_copied choice) }
    ensures { result ≡ vector_closes t.now (option_copied choice.entry) p.now rule l.now }
{
    kept_closes(t, &kept(t, l), p, choice, rule)
}
