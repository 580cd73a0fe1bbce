//! Tables that are made from a shape, for measuring.
ghost use Rattle.std.specs.Prelude.{◌≡◌, ◌<◌, ◌≤◌, ◌^◌, IfOk};
ghost use Rattle.chisel_table.specs.Valid.{IsTable};
ghost use Rattle.chisel_bench.specs.Made.{AreNumbers, IsBlock, IsShape};

use chisel_table::{Row, Table};
use rely_num::List;
use std::alloc::{AllocError, Global};

/// The seed of the energies. A row of this seed spends what the energies save.
pub(crate) const ENERGY_SEED: u32 = 5;

/// How large a table is, and how tight.
#[derive(Clone, Copy)]
pub(crate) struct Shape {
    pub(crate) decisions: usize,
    pub(crate) options: usize,
    pub(crate) rows: usize,
    /// The seed of the first row; the next rows have the next seeds.
    pub(crate) seed: u32,
    /// The budget of each row.
    pub(crate) budget: u32,
}

// How far the numbers of a decision's options lie apart.
fn unit(seed: u32, decision: usize) -> u64
    requires { decision < 256 }
    ensures { result ≤ 194 }
{
    let turn = seed as u64 * 31 + decision as u64 * 17;
    (turn % 97 + 1) * 2
}

fn number(shape: &Shape, unit: u64, option: usize, rises: bool) -> u64
    requires shape { IsShape shape.now }
    requires unit { unit ≤ 194 }
    requires option { option < shape.now.options }
    ensures { result ≤ 2 ^ 20 }
{
    if rises {
        option as u64 * unit
    } else {
        (shape.options - 1 - option) as u64 * unit
    }
}

// A number for each option, rising or falling.
fn numbers(alloc: Global, shape: &Shape, unit: u64, rises: bool) -> Result<List<u64>, AllocError>
    requires shape { IsShape shape.now }
    requires unit { unit ≤ 194 }
    ensures { IfOk result (AreNumbers shape.now.options) }
{
    let mut numbers = Vec::new(alloc);
    for option in 0..shape.options {
        numbers.push(number(shape, unit, option, rises))?;
    }
    Ok(List::from_vec(numbers))
}

// A number for each option of each decision.
fn block(
    alloc: Global,
    shape: &Shape,
    seed: u32,
    rises: bool,
) -> Result<List<List<u64>>, AllocError>
    requires { IsShape shape.now }
    ensures { IfOk result (IsBlock shape.now.options shape.now.decisions) }
{
    let mut block = Vec::new(alloc);
    for d in 0..shape.decisions {
        block.push(numbers(alloc, shape, unit(seed, d), rises)?)?;
    }
    Ok(List::from_vec(block))
}

/// The table of a shape: the less energy an option has, the more it spends.
pub(crate) fn table(alloc: Global, shape: &Shape) -> Result<Table, AllocError>
    requires { IsShape shape.now }
    ensures { IfOk result IsTable }
{
    let energies = block(alloc, shape, ENERGY_SEED, false)?;
    let mut rows = Vec::new(alloc);
    for i in 0..shape.rows {
        let spent = block(alloc, shape, shape.seed + i as u32, true)?;
        let budget = shape.budget as i128;
        rows.push(Row { budget, spent })?;
    }
    Ok(Table {
        fixed: 0,
        energies,
        rows: List::from_vec(rows),
    })
}
