//! Branching rules: on which unfixed decision a search divides a part.
ghost use Rattle.std.specs.Prelude.{◌≡◌, ◌*◌, ◌<◌, ◌≤◌, ◌^◌, length, slice_index, IfOk};
ghost use Rattle.chisel_table.specs.declared.table.TheConstants.{MAX_OPTIONS};
ghost use Rattle.chisel_table.specs.Sums.{list_to, sum_to};
ghost use Rattle.chisel_table.specs.Tables.{decision_count};
ghost use Rattle.chisel_table.specs.Valid.{IsTable};
ghost use Rattle.chisel_search.specs.Rules.{CanBranch, IsUnfixed};
ghost use Rattle.chisel_strategy.specs.Branching.{heaviness, larger, largest, size};

use chisel_bound::spread;
use chisel_options::Branch;
use chisel_table::{Partial, Table, debits_of, decision_count, energies_of, row_count};
use std::alloc::{AllocError, Global};

/// The size of each decision of a table under a branching rule. Want of memory is the only error.
pub fn sizes(alloc: Global, t: &Table, branch: Branch) -> Result<Vec<u128>, AllocError>
    requires { IsTable t.now }
    ensures { IfOk result (λ sizes. sizes.items ≡ list_to (decision_count t.now) (size t.now branch)) }
{
    let mut sizes = Vec::with_capacity(alloc, decision_count(t))?;
    for d in 0..decision_count(t) {
        sizes.push(size(t, branch, d))?;
    }
    Ok(sizes)
}

fn size(t: &Table, branch: Branch, decision: usize) -> u128
    requires table { IsTable t.now }
    requires decision { decision < decision_count t.now }
    ensures { result ≡ size t.now branch decision }
{
    match branch {
        Branch::First => 0,
        Branch::Spread => spread(energies_of(t, decision)) as u128,
        Branch::Heavy => heaviness(t, decision),
    }
}

// What the options of a decision spend, over all rows.
fn heaviness(t: &Table, decision: usize) -> u128
    requires table { IsTable t.now }
    requires decision { decision < decision_count t.now }
    ensures { result ≡ heaviness t.now decision }
{
    let mut sum: u128 = 0;
    for i in 0..row_count(t) {
        sum += total(debits_of(t, i, decision));
    }
    sum
}

fn total(debits: &[u64]) -> u128
    requires { length debits.now ≤ MAX_OPTIONS }
    ensures value { result ≡ sum_to (length debits.now) (slice_index debits.now) }
    ensures bound { result ≤ length debits.now * 2 ^ 64 }
{
    let mut sum: u128 = 0;
    for o in 0..debits.len() {
        sum += debits[o] as u128;
    }
    sum
}

/// The first of the largest unfixed decisions, where each has its size in a list, and 0 behind the list's end.
pub fn largest(sizes: &[u128], t: &Table, p: &Partial) -> u32
    requires { CanBranch t.now p.now }
    ensures unfixed { IsUnfixed t.now p.now result }
    ensures largest { result ≡ largest t.now (slice_index sizes.now) p.now }
{
    let mut found = None;
    for d in 0..decision_count(t) {
        if p.is_unfixed(d) {
            found = Some(larger(sizes, found, d));
        }
    }
    found.unwrap_or(0) as u32
}

fn larger(sizes: &[u128], found: Option<usize>, decision: usize) -> usize
    ensures { result ≡ larger (slice_index sizes.now) found decision }
{
    match found {
        Some(k) if size_at(sizes, k) >= size_at(sizes, decision) => k,
        _ => decision,
    }
}

fn size_at(sizes: &[u128], decision: usize) -> u128
    ensures { result ≡ slice_index sizes.now decision }
{
    if decision < sizes.len() {
        sizes[decision]
    } else {
        0
    }
}
