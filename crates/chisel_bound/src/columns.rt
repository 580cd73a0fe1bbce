//! What each option spends above the least of its decision, row by row, so that a search adds columns and not tables.
ghost use Rattle.std.specs.Prelude.{◌≡◌, ◌+◌, ◌*◌, ◌<◌, ◌≤◌, IfOk, OnOk, length, slice_index};
ghost use Rattle.chisel_table.specs.declared.table.TheConstants.{MAX_OPTIONS};
ghost use Rattle.chisel_table.specs.Sums.{least_to};
ghost use Rattle.chisel_table.specs.Tables.{decision_count, option_count};
ghost use Rattle.chisel_table.specs.Valid.{IsTable};
ghost use Rattle.chisel_bound.specs.Columns.{AreColumns, AreColumnsTo, column};

use chisel_table::{MAX_OPTIONS, Table, debits_of, decision_count, option_count, row_count};
use rely_num::List;
use std::alloc::{AllocError, Global};

/// A column for each option of each decision, and an empty one for each that a decision has fewer than the most.
pub(crate) fn columns(alloc: Global, t: &Table) -> Result<Vec<List<u64>>, AllocError>
    requires { IsTable t.now }
    ensures { IfOk result (λ columns. AreColumns t.now columns.items) }
{
    let mut columns = Vec::new(alloc);
    for d in 0..decision_count(t) {
        push_columns(alloc, t, d, &mut columns)?;
    }
    Ok(columns)
}

fn push_columns(
    alloc: Global,
    t: &Table,
    decision: usize,
    columns: &mut Vec<List<u64>>,
) -> Result<(), AllocError>
    requires table { IsTable t.now }
    requires decision { decision < decision_count t.now }
    requires columns { AreColumnsTo t.now (MAX_OPTIONS * decision) columns.old.items }
    ensures { OnOk result (AreColumnsTo t.now (MAX_OPTIONS * (decision + 1)) columns.new.items) }
{
    for option in 0..MAX_OPTIONS {
        let column = if option < option_count(t, decision) {
            column(alloc, t, decision, option)?
        } else {
            Vec::new(alloc)
        };
        columns.push(List::from_vec(column))?;
    }
    Ok(())
}

fn column(alloc: Global, t: &Table, decision: usize, option: usize) -> Result<Vec<u64>, AllocError>
    requires table { IsTable t.now }
    requires decision { decision < decision_count t.now }
    requires option { option < option_count t.now decision }
    ensures { IfOk result (λ v. v.items ≡ column t.now decision option) }
{
    let mut column = Vec::with_capacity(alloc, row_count(t))?;
    for i in 0..row_count(t) {
        let debits = debits_of(t, i, decision);
        column.push(debits[option] - least(debits))?;
    }
    Ok(column)
}

fn least(debits: &[u64]) -> u64
    requires { 0 < length debits.now }
    ensures { result ≡ least_to (length debits.now) (slice_index debits.now) }
{
    let mut least = debits[0];
    for o in 1..debits.len() {
        least = least.min(debits[o]);
    }
    least
}
