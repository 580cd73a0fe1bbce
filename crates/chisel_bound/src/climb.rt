//! The ascent of multipliers: a subgradient method (Held, Wolfe and Crowder 1974) from the vector of zeros.
//! Each round prices the options, takes the cheapest of each decision, and moves the multiplier of each row by a step:
//! up where these options spend more than the row's budget, and down where they spend less.
ghost use Rattle.std.specs.Prelude.{◌≡◌, ◌*◌, ◌<◌, ◌≤◌, ◌^◌, [], ◌∷◌, ◌++◌, length, slice_index, IfOk, OnOk, pos, ◌-ℤ◌};
ghost use Rattle.chisel_table.specs.declared.lagrangian.TheConstants.{ENERGY_WEIGHT, MAX_MULTIPLIER};
ghost use Rattle.chisel_table.specs.declared.table.TheConstants.{MAX_OPTIONS};
ghost use Rattle.chisel_table.specs.Choices.{spent};
ghost use Rattle.chisel_table.specs.Lagrangian.{IsVector};
ghost use Rattle.chisel_table.specs.Tables.{decision_count, row_count, budget_at};
ghost use Rattle.chisel_table.specs.Valid.{IsTable};
ghost use Rattle.chisel_bound.specs.Ascent.{AreCheapest, AreFirstSteps, AreOptions, IsPenaltyGrid, ascended, divisor, moved, next_vector, span, spread, step_for, vector_after};
ghost use Rattle.chisel_bound.specs.Pool.{BeginsWithZeros, IsPool};

use crate::pool::Pool;
use crate::weights::least_option;
use chisel_table::{
    ENERGY_WEIGHT, MAX_DECISIONS, MAX_MULTIPLIER, MAX_OPTIONS, Table, budget_at, decision_count,
    energies_of, row_count, spent_at, write_penalties,
};
use rely_num::List;
use std::alloc::{AllocError, Global};
use std::ops::Range;

/// The vectors after 0, 8, 16, 32 and 64 rounds of the ascent. Want of memory is the only error.
pub fn ascent(alloc: Global, t: &Table) -> Result<Pool, AllocError>
    requires { IsTable t.now }
    ensures vectors { IfOk result (λ pool. pool.vectors ≡ ascended t.now) }
    ensures valid { IfOk result (λ pool. IsPool t.now pool.vectors) }
    ensures zeros { IfOk result (λ pool. BeginsWithZeros pool.vectors) }
{
    let steps = first_steps(alloc, t)?;
    let mut grid = vec![in alloc; 0u128; MAX_OPTIONS * decision_count(t)]?;
    let mut l = vec![in alloc; 0u64; row_count(t)]?;
    let mut vectors = Vec::new(alloc);
    push_copy(&mut vectors, &l)?;
    climb(t, &steps, &mut grid, &mut l, 0..8);
    push_copy(&mut vectors, &l)?;
    climb(t, &steps, &mut grid, &mut l, 8..16);
    push_copy(&mut vectors, &l)?;
    climb(t, &steps, &mut grid, &mut l, 16..32);
    push_copy(&mut vectors, &l)?;
    climb(t, &steps, &mut grid, &mut l, 32..64);
    push_copy(&mut vectors, &l)?;
    Ok(Pool {
        vectors: List::from_vec(vectors),
    })
}

fn push_copy(vectors: &mut Vec<List<u64>>, l: &[u64]) -> Result<(), AllocError>
    ensures { OnOk result (vectors.new.items ≡ vectors.old.items ++ l.now ∷ []) }
{
    let copy = Vec::from_slice(*vectors.allocator(), l)?;
    vectors.push(List::from_vec(copy))?;
    Ok(())
}

// The rounds of the ascent after `rounds.start` and up to `rounds.end`.
fn climb(t: &Table, steps: &[u64], grid: &mut [u128], l: &mut [u64], rounds: Range<u32>)
    requires table { IsTable t.now }
    requires steps { AreFirstSteps t.now steps.now }
    requires size { length grid.old ≡ MAX_OPTIONS * decision_count t.now }
    requires order { rounds.start ≤ rounds.end }
    requires start { l.old ≡ vector_after t.now rounds.start }
    ensures { l.new ≡ vector_after t.now rounds.end }
{
    for done in rounds.start..rounds.end {
        round(t, steps, done + 1, grid, l);
    }
}

// One round of the ascent.
fn round(t: &Table, steps: &[u64], number: u32, grid: &mut [u128], l: &mut [u64])
    requires table { IsTable t.now }
    requires steps { AreFirstSteps t.now steps.now }
    requires number { 0 < number }
    requires size { length grid.old ≡ MAX_OPTIONS * decision_count t.now }
    requires vector { IsVector t.now l.old }
    ensures { l.new ≡ next_vector t.now number l.old }
{
    write_penalties(t, l, grid);
    let options = cheapest_options(t, grid);
    for i in 0..row_count(t) {
        let step = (steps[i] / number as u64).max(1);
        l[i] = moved(l[i], step, gap(t, i, &options));
    }
}

// For each decision its first option of the least price, from the options' penalties.
fn cheapest_options(t: &Table, grid: &[u128]) -> [u8; MAX_DECISIONS]
    requires table { IsTable t.now }
    requires grid { IsPenaltyGrid t.now grid.now }
    ensures { AreCheapest t.now grid.now result }
{
    let mut options = [0; MAX_DECISIONS];
    for d in 0..decision_count(t) {
        let energies = energies_of(t, d);
        let from = MAX_OPTIONS * d;
        let penalties = &grid[from..from + energies.len()];
        options[d] = least_option(ENERGY_WEIGHT, energies, penalties) as u8;
    }
    options
}

// What these options spend in a row above its budget.
fn gap(t: &Table, row: usize, options: &[u8]) -> i128
    requires table { IsTable t.now }
    requires row { row < row_count t.now }
    requires size { decision_count t.now ≤ length options.now }
    requires options { AreOptions t.now options.now }
    ensures { result ≡ pos (spent t.now row options.now) -ℤ budget_at t.now row }
{
    let mut sum: u128 = 0;
    for d in 0..decision_count(t) {
        sum += spent_at(t, row, d, options[d] as usize) as u128;
    }
    sum as i128 - budget_at(t, row)
}

// A multiplier moved by a step: up where the gap is positive, and down where it is negative.
fn moved(multiplier: u64, step: u64, gap: i128) -> u64
    requires multiplier { multiplier ≤ MAX_MULTIPLIER }
    requires step { step ≤ MAX_MULTIPLIER }
    ensures { result ≡ moved multiplier step gap }
{
    if gap > 0 {
        (multiplier + step).min(MAX_MULTIPLIER)
    } else if gap < 0 {
        multiplier.saturating_sub(step)
    } else {
        multiplier
    }
}

// The step of each row in the first round.
fn first_steps(alloc: Global, t: &Table) -> Result<Vec<u64>, AllocError>
    requires { IsTable t.now }
    ensures { IfOk result (λ v. AreFirstSteps t.now v.items) }
{
    let energies = ENERGY_WEIGHT as u128 * span(t);
    let mut steps = Vec::with_capacity(alloc, row_count(t))?;
    for i in 0..row_count(t) {
        steps.push(step_for(energies, budget_at(t, i)))?;
    }
    Ok(steps)
}

fn step_for(energies: u128, budget: i128) -> u64
    ensures { result ≡ step_for energies budget }
{
    let quotient = energies / divisor(budget);
    if quotient < MAX_MULTIPLIER as u128 {
        quotient as u64
    } else {
        MAX_MULTIPLIER
    }
}

fn divisor(budget: i128) -> u128
    ensures value { result ≡ divisor budget }
    ensures above { 0 < result }
{
    if budget > 1 { budget as u128 } else { 1 }
}

// How far the energies of each decision's options lie apart, over all decisions.
fn span(t: &Table) -> u128
    requires { IsTable t.now }
    ensures value { result ≡ span t.now }
    ensures bound { result ≤ 2 ^ 72 }
{
    let mut sum = 0;
    for d in 0..decision_count(t) {
        sum += spread(energies_of(t, d)) as u128;
    }
    sum
}

/// How far the energies of one decision's options lie apart.
pub fn spread(energies: &[u64]) -> u64
    requires { 0 < length energies.now }
    ensures { result ≡ spread (length energies.now) (slice_index energies.now) }
{
    let mut least = energies[0];
    let mut greatest = energies[0];
    for o in 1..energies.len() {
        least = least.min(energies[o]);
        greatest = greatest.max(energies[o]);
    }
    greatest - least
}
