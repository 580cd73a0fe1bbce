//! A number for each option of each decision: what the options spend under a vector, in one pass over the rows.
ghost use Rattle.std.specs.Prelude.{ℕ, ◌≡◌, ◌+◌, ◌*◌, ◌<◌, ◌≤◌, ◌^◌, length};
ghost use Rattle.chisel_table.specs.declared.table.TheConstants.{MAX_OPTIONS};
ghost use Rattle.chisel_table.specs.Grid.{Adds, HasRoom, Holds, penalty_to};
ghost use Rattle.chisel_table.specs.Lagrangian.{IsVector, penalty};
ghost use Rattle.chisel_table.specs.Tables.{decision_count, row_count};
ghost use Rattle.chisel_table.specs.Valid.{IsTable};

use crate::table::{MAX_OPTIONS, Table, debits_of, decision_count, row_count};

/// Writes the penalty of each option: what it spends in each row, times the row's multiplier.
///
/// Rows stand in memory one behind the other, so they are gone through once, and not once for each option.
pub fn write_penalties(t: &Table, l: &[u64], grid: &mut [u128])
    requires table { IsTable t.now }
    requires vector { IsVector t.now l.now }
    requires size { MAX_OPTIONS * decision_count t.now ≤ length grid.old }
    ensures { Holds t.now (penalty t.now l.now) grid.new }
{
    grid.fill(0);
    for i in 0..row_count(t) {
        if l[i] > 0 {
            add_row(t, l, i, grid);
        }
    }
}

// Adds what each option spends in the next row.
fn add_row(t: &Table, l: &[u64], row: usize, grid: &mut [u128])
    requires table { IsTable t.now }
    requires vector { IsVector t.now l.now }
    requires row { row < row_count t.now }
    requires grid { Holds t.now (penalty_to t.now l.now row) grid.old }
    ensures { Holds t.now (penalty_to t.now l.now (row + 1)) grid.new }
{
    let multiplier = l[row];
    for d in 0..decision_count(t) {
        let spent = debits_of(t, row, d);
        add_multiples(grid, MAX_OPTIONS * d, multiplier, spent);
    }
}

// Adds multiples of what options spend to their places, which begin at `from`.
fn add_multiples(grid: &mut [u128], from: usize, multiplier: u64, spent: &[u64])
    requires { HasRoom grid.old from multiplier spent.now (2 ^ 128) }
    ensures { Adds grid.old from multiplier spent.now grid.new }
{
    for o in 0..spent.len() {
        grid[from + o] += multiplier as u128 * spent[o] as u128;
    }
}
