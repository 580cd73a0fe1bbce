//! What each option adds to the bounds of a partial choice when it is fixed, computed once for a table and a pool.
ghost use Rattle.std.specs.Prelude.{ℕ, ◌≡◌, ◌+◌, ◌*◌, ◌<◌, ◌≤◌, ◌^◌, ◌++◌, true, length, slice_index, IfOk};
ghost use Rattle.chisel_table.specs.declared.table.TheConstants.{MAX_OPTIONS};
ghost use Rattle.chisel_table.specs.declared.lagrangian.TheConstants.{ENERGY_WEIGHT};
ghost use Rattle.chisel_table.specs.Grid.{Holds};
ghost use Rattle.chisel_table.specs.Lagrangian.{IsVector, excess, penalty, value};
ghost use Rattle.chisel_table.specs.Sums.{sum_to};
ghost use Rattle.chisel_table.specs.Partials.{IsPartial, is_unfixed, nothing_fixed, with_option};
ghost use Rattle.chisel_table.specs.Tables.{decision_count, option_count};
ghost use Rattle.chisel_table.specs.Valid.{IsTable};
ghost use Rattle.chisel_bound.specs.declared.bounds.TheConstants.{MAX_VECTORS};
ghost use Rattle.chisel_bound.specs.Ascent.{IsPenaltyGrid};
ghost use Rattle.chisel_bound.specs.Pool.{IsPool};
ghost use Rattle.chisel_bound.specs.Weights.{least_on};
ghost use Rattle.chisel_bound.specs.Written.{WritesOptions, WritesVector};

use crate::bounds::{Bounds, Kept, MAX_VECTORS};
use crate::columns::columns;
use crate::pool::Pool;
use crate::weights::{least_option, weight};
use chisel_table::{
    ENERGY_WEIGHT, MAX_OPTIONS, Partial, Table, allowance, decision_count, energies_of,
    write_penalties,
};
use rely_num::List;
use std::alloc::{AllocError, Global};

/// What each option of a table adds to the bounds with each vector of a pool, and to the excess of each row.
#[derive(Drop)]
pub struct Differences<'a> {
    pub table: &'a Table,
    pub pool: &'a Pool,
    /// For each decision, each of its options and each vector, at fixed distances.
    pub added: Vec<Bounds>,
    /// For each decision and each of its options the debits above the least of the decision, row by row.
    pub columns: Vec<List<u64>>,
}

impl<'a> Differences<'a> {
    ghost use Rattle.chisel_bound.specs.Kept.{AreDifferences, IsKept, all_bounds, kept_behind};

    /// The differences of a table and a pool. Want of memory is the only error.
    pub fn new(
        alloc: Global,
        table: &'a Table,
        pool: &'a Pool,
    ) -> Result<Differences<'a>, AllocError>
        requires table { IsTable table.now }
        requires pool { IsPool table.now pool.now.vectors }
        requires few { length pool.now.vectors ≤ MAX_VECTORS }
        ensures table { IfOk result (λ d. d.table ≡ table.entry) }
        ensures pool { IfOk result (λ d. d.pool ≡ pool.entry) }
        ensures differences { IfOk result AreDifferences }
    {
        let places = MAX_OPTIONS * decision_count(table);
        let mut grid = vec![in alloc; 0u128; places]?;
        let none = Bounds {
            value: 0,
            excess: 0,
        };
        let mut added = vec![in alloc; none; MAX_VECTORS * places]?;
        for j in 0..pool.vectors.len() {
            write_penalties(table, pool.vectors.as_slice()[j].as_slice(), &mut grid);
            write_vector(table, &grid, j, &mut added);
        }
        let columns = columns(alloc, table)?;
        Ok(Differences {
            table,
            pool,
            added,
            columns,
        })
    }

    /// The partial choice that fixes nothing, whose bounds are appended to the list.
    pub fn start(&self, bounds: &mut Vec<Bounds>) -> Result<Kept, AllocError>
        requires { AreDifferences self.now }
        ensures start { IfOk result (λ k. k ≡ kept_behind bounds.old.items (nothing_fixed self.now.table.now)) }
        ensures bounds { IfOk result (λ k. bounds.new.items ≡ bounds.old.items ++ all_bounds self.now k.partial) }
    {
        let partial = Partial::nothing_fixed(self.table);
        let from = bounds.len();
        let places = MAX_OPTIONS * decision_count(self.table);
        let mut grid = vec![in *bounds.allocator(); 0u128; places]?;
        for vector in self.pool.vectors.as_slice() {
            write_penalties(self.table, vector.as_slice(), &mut grid);
            let value = first_value(self.table, vector.as_slice(), &grid);
            let excess = first_excess(self.table, vector.as_slice(), &grid);
            bounds.push(Bounds { value, excess })?;
        }
        Ok(Kept { partial, from })
    }

    /// The partial choice with an option of an unfixed decision fixed, whose bounds are appended to the list.
    pub fn fix(
        &self,
        bounds: &mut Vec<Bounds>,
        taken: &Kept,
        decision: usize,
        option: u8,
    ) -> Result<Kept, AllocError>
        requires differences { AreDifferences self.now }
        requires kept { IsKept self.now.table.now self.now.pool.now.vectors bounds.old.items taken.now }
        requires partial { IsPartial self.now.table.now taken.now.partial }
        requires decision { decision < decision_count self.now.table.now }
        requires unfixed { is_unfixed taken.now.partial decision ≡ true }
        requires option { option < option_count self.now.table.now decision }
        ensures child { IfOk result
            (λ k. k ≡ kept_behind bounds.old.items (with_option taken.now.partial decision option)) }
        ensures bounds { IfOk result (λ k. bounds.new.items ≡ bounds.old.items ++ all_bounds self.now k.partial) }
    {
        let from = bounds.len();
        let place = MAX_OPTIONS * decision + option as usize;
        for j in 0..self.pool.vectors.len() {
            let old = bounds[taken.from + j];
            let more = self.added[MAX_VECTORS * place + j];
            bounds.push(Bounds {
                value: old.value + more.value,
                excess: old.excess + more.excess,
            })?;
        }
        Ok(Kept {
            partial: taken.partial.with_option(decision, option),
            from,
        })
    }
}

// The value with a vector where nothing is fixed, from the penalties with that vector.
fn first_value(t: &Table, l: &[u64], grid: &[u128]) -> i128
    requires table { IsTable t.now }
    requires vector { IsVector t.now l.now }
    requires grid { Holds t.now (penalty t.now l.now) grid.now }
    ensures { result ≡ value t.now l.now (nothing_fixed t.now) }
{
    let fixed = ENERGY_WEIGHT as u128 * t.fixed as u128;
    (fixed + least_weights(t, ENERGY_WEIGHT, grid)) as i128 - allowance(t, l)
}

// The excess with a vector where nothing is fixed.
fn first_excess(t: &Table, l: &[u64], grid: &[u128]) -> i128
    requires table { IsTable t.now }
    requires vector { IsVector t.now l.now }
    requires grid { Holds t.now (penalty t.now l.now) grid.now }
    ensures { result ≡ excess t.now l.now (nothing_fixed t.now) }
{
    least_weights(t, 0, grid) as i128 - allowance(t, l)
}

// The sum of the least weights of all decisions, from the penalties of a grid.
fn least_weights(t: &Table, scale: u64, grid: &[u128]) -> u128
    requires table { IsTable t.now }
    requires scale { scale ≤ ENERGY_WEIGHT }
    requires grid { IsPenaltyGrid t.now grid.now }
    ensures value { result ≡ sum_to (decision_count t.now) (least_on t.now scale grid.now) }
    ensures bound { result ≤ 2 ^ 122 }
{
    let mut sum = 0;
    for d in 0..decision_count(t) {
        let from = MAX_OPTIONS * d;
        let energies = energies_of(t, d);
        let penalties = &grid[from..from + energies.len()];
        let least = least_option(scale, energies, penalties);
        sum += weight(scale, energies, penalties, least);
    }
    sum
}

// Writes what each option adds with vector j, from the penalties with that vector.
fn write_vector(t: &Table, grid: &[u128], j: usize, added: &mut [Bounds])
    requires table { IsTable t.now }
    requires grid { IsPenaltyGrid t.now grid.now }
    requires vector { j < MAX_VECTORS }
    requires size { length added.old ≡ MAX_VECTORS * (MAX_OPTIONS * decision_count t.now) }
    ensures { WritesVector t.now grid.now j (decision_count t.now) added.old added.new }
{
    for d in 0..decision_count(t) {
        let from = MAX_OPTIONS * d;
        let energies = energies_of(t, d);
        let penalties = &grid[from..from + energies.len()];
        write_options(energies, penalties, MAX_VECTORS * from + j, added);
    }
}

// Writes what the options of one decision add, each at so many places behind the one before.
fn write_options(energies: &[u64], penalties: &[u128], from: usize, added: &mut [Bounds])
    requires some { 0 < length energies.now }
    requires each { length energies.now ≤ length penalties.now }
    requires below { (o : ℕ) → o < length energies.now → slice_index penalties.now o ≤ 2 ^ 113 }
    requires room { from + MAX_VECTORS * length energies.now < length added.old + MAX_VECTORS }
    ensures { WritesOptions energies.now penalties.now from (length energies.now) added.old added.new }
{
    let cheapest = least_option(ENERGY_WEIGHT, energies, penalties);
    let lightest = least_option(0, energies, penalties);
    let least_price = weight(ENERGY_WEIGHT, energies, penalties, cheapest);
    let least_penalty = penalties[lightest];
    for o in 0..energies.len() {
        let price = weight(ENERGY_WEIGHT, energies, penalties, o);
        added[from + MAX_VECTORS * o] = Bounds {
            value: (price - least_price) as i128,
            excess: (penalties[o] - least_penalty) as i128,
        };
    }
}
