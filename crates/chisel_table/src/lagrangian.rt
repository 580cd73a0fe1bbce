//! The Lagrangian relaxation of a table, by which bounds on all completions of a partial choice are had at once.
//! A vector has a multiplier for each row. With it the rows become prices of the options, and each decision takes its
//! cheapest option by itself. Whatever the multipliers are, no completion that meets every row is cheaper.
ghost use Rattle.std.specs.Prelude.{◌≡◌, ◌<◌, ◌≤◌, ◌^◌, pos, neg_ℤ, ◌*ℤ◌, ◌≤ℤ◌};
ghost use Rattle.chisel_table.specs.declared.lagrangian.TheConstants.{ENERGY_WEIGHT, MAX_MULTIPLIER};
ghost use Rattle.chisel_table.specs.Lagrangian.{IsVector, allowance, excess, least_at, least_sum, penalty, price, row_excess, value, weight};
ghost use Rattle.chisel_table.specs.Partials.{IsPartial};
ghost use Rattle.chisel_table.specs.Tables.{decision_count, option_count, row_count, spent_at};
ghost use Rattle.chisel_table.specs.Valid.{IsTable};

use crate::partial::{Partial, UNFIXED};
use crate::table::{
    Table, budget_at, decision_count, energy_at, option_count, row_count, spent_at,
};

/// What a unit of energy weighs beside a unit of debit under a multiplier of one.
pub const ENERGY_WEIGHT: u64 = 65_536;

/// The greatest multiplier.
pub const MAX_MULTIPLIER: u64 = 1_099_511_627_776;

/// The Lagrangian bound: the energy of each completion that meets every row, times `ENERGY_WEIGHT`, is at least this.
pub fn value(t: &Table, l: &[u64], p: &Partial) -> i128
    requires table { IsTable t.now }
    requires vector { IsVector t.now l.now }
    requires partial { IsPartial t.now p.now }
    ensures { result ≡ value t.now l.now p.now }
{
    let fixed = u128::from(ENERGY_WEIGHT) * u128::from(t.fixed);
    (fixed + least_weights(t, ENERGY_WEIGHT, l, p)) as i128 - allowance(t, l)
}

/// What each completion spends above the budgets at least, each row times its multiplier.
pub fn excess(t: &Table, l: &[u64], p: &Partial) -> i128
    requires table { IsTable t.now }
    requires vector { IsVector t.now l.now }
    requires partial { IsPartial t.now p.now }
    ensures { result ≡ excess t.now l.now p.now }
{
    least_weights(t, 0, l, p) as i128 - allowance(t, l)
}

/// What each completion spends above the budget of a row at least.
pub fn row_excess(t: &Table, row: u32, p: &Partial) -> i128
    requires table { IsTable t.now }
    requires row { row < row_count t.now }
    requires partial { IsPartial t.now p.now }
    ensures { result ≡ row_excess t.now row p.now }
{
    let i = row as usize;
    let mut sum: u128 = 0;
    for d in 0..decision_count(t) {
        sum += u128::from(least_spent(t, i, p, d));
    }
    sum as i128 - budget_at(t, i)
}

/// The price of an option: its energy, times `ENERGY_WEIGHT`, and its penalty.
pub fn price(t: &Table, l: &[u64], decision: usize, option: usize) -> u128
    requires table { IsTable t.now }
    requires vector { IsVector t.now l.now }
    requires decision { decision < decision_count t.now }
    requires option { option < option_count t.now decision }
    ensures value { result ≡ price t.now l.now decision option }
    ensures bound { result ≤ 2 ^ 114 }
{
    weight(t, ENERGY_WEIGHT, l, decision, option)
}

/// The penalty of an option: what it spends in each row, times the row's multiplier.
pub fn penalty(t: &Table, l: &[u64], decision: usize, option: usize) -> u128
    requires table { IsTable t.now }
    requires vector { IsVector t.now l.now }
    requires decision { decision < decision_count t.now }
    requires option { option < option_count t.now decision }
    ensures value { result ≡ penalty t.now l.now decision option }
    ensures bound { result ≤ 2 ^ 113 }
{
    let mut sum = 0;
    for i in 0..row_count(t) {
        sum += u128::from(l[i]) * u128::from(spent_at(t, i, decision, option));
    }
    sum
}

// An option's energy, times `scale`, and its penalty: its price where the scale is `ENERGY_WEIGHT`.
fn weight(t: &Table, scale: u64, l: &[u64], decision: usize, option: usize) -> u128
    requires table { IsTable t.now }
    requires scale { scale ≤ ENERGY_WEIGHT }
    requires vector { IsVector t.now l.now }
    requires decision { decision < decision_count t.now }
    requires option { option < option_count t.now decision }
    ensures value { result ≡ weight t.now scale l.now decision option }
    ensures bound { result ≤ 2 ^ 114 }
{
    let energy = u128::from(scale) * u128::from(energy_at(t, decision, option));
    energy + penalty(t, l, decision, option)
}

// The least weight of the options of a decision that are left.
fn least_weight(t: &Table, scale: u64, l: &[u64], p: &Partial, decision: usize) -> u128
    requires table { IsTable t.now }
    requires scale { scale ≤ ENERGY_WEIGHT }
    requires vector { IsVector t.now l.now }
    requires partial { IsPartial t.now p.now }
    requires decision { decision < decision_count t.now }
    ensures value { result ≡ least_at t.now (weight t.now scale l.now) p.now decision }
    ensures bound { result ≤ 2 ^ 114 }
{
    if p.slots[decision] != UNFIXED {
        return weight(t, scale, l, decision, usize::from(p.slots[decision]));
    }
    let mut least = weight(t, scale, l, decision, 0);
    for option in 1..option_count(t, decision) {
        let other = weight(t, scale, l, decision, option);
        if other < least {
            least = other;
        }
    }
    least
}

// The sum of the least weights over all decisions.
fn least_weights(t: &Table, scale: u64, l: &[u64], p: &Partial) -> u128
    requires table { IsTable t.now }
    requires scale { scale ≤ ENERGY_WEIGHT }
    requires vector { IsVector t.now l.now }
    requires partial { IsPartial t.now p.now }
    ensures value { result ≡ least_sum t.now (weight t.now scale l.now) p.now }
    ensures bound { result ≤ 2 ^ 122 }
{
    let mut sum = 0;
    for d in 0..decision_count(t) {
        sum += least_weight(t, scale, l, p, d);
    }
    sum
}

// The least debit in a row of the options of a decision that are left.
fn least_spent(t: &Table, row: usize, p: &Partial, decision: usize) -> u64
    requires table { IsTable t.now }
    requires row { row < row_count t.now }
    requires partial { IsPartial t.now p.now }
    requires decision { decision < decision_count t.now }
    ensures value { result ≡ least_at t.now (spent_at t.now row) p.now decision }
    ensures bound { result ≤ 2 ^ 62 }
{
    if p.slots[decision] != UNFIXED {
        return spent_at(t, row, decision, usize::from(p.slots[decision]));
    }
    let mut least = spent_at(t, row, decision, 0);
    for option in 1..option_count(t, decision) {
        least = least.min(spent_at(t, row, decision, option));
    }
    least
}

/// The budgets, each times the multiplier of its row.
pub fn allowance(t: &Table, l: &[u64]) -> i128
    requires table { IsTable t.now }
    requires vector { IsVector t.now l.now }
    ensures value { result ≡ allowance t.now l.now }
    ensures least { neg_ℤ (pos (2 ^ 122)) ≤ℤ result }
    ensures greatest { result ≤ℤ pos (2 ^ 122) }
{
    let mut sum = 0;
    for i in 0..row_count(t) {
        sum += charge(l[i], budget_at(t, i));
    }
    sum
}

// A budget, times a multiplier.
fn charge(multiplier: u64, budget: i128) -> i128
    requires multiplier { multiplier ≤ MAX_MULTIPLIER }
    requires low { neg_ℤ (pos (2 ^ 71)) ≤ℤ budget }
    requires high { budget ≤ℤ pos (2 ^ 24) }
    ensures value { result ≡ pos multiplier *ℤ budget }
    ensures least { neg_ℤ (pos (2 ^ 111)) ≤ℤ result }
    ensures greatest { result ≤ℤ pos (2 ^ 111) }
{
    multiplier as i128 * budget
}
