//! The first rule that closes a partial choice, from the table alone.
ghost use Rattle.std.specs.Prelude.{◌≡◌, option_copied};
ghost use Rattle.chisel_table.specs.Closings.{IsBest, first_close, row_closes};
ghost use Rattle.chisel_table.specs.Partials.{IsPartial};
ghost use Rattle.chisel_table.specs.Sums.{first_to};
ghost use Rattle.chisel_table.specs.Tables.{row_count};
ghost use Rattle.chisel_table.specs.Valid.{IsTable};
ghost use Rattle.chisel_bound.specs.Pool.{IsPool, first_with, options_of};

use crate::pool::Pool;
use chisel_table::{
    Choice, Close, CloseRule, Partial, Table, row_closes, row_count, vector_closes,
};

/// The first rule that closes the partial choice, in the order c, i, d, t, with its least number.
///
/// None exactly where no row and no vector of the pool closes it. It takes no memory.
pub fn closes(t: &Table, pool: &Pool, p: &Partial, best: Option<&Choice>) -> Option<Close>
    requires table { IsTable t.now }
    requires pool { IsPool t.now pool.now.vectors }
    requires partial { IsPartial t.now p.now }
    requires best { IsBest t.now (options_of best) }
    ensures { result ≡ first_close t.now pool.now.vectors (options_of best.entry) p.now }
{
    match best {
        Some(choice) => options_close(t, pool, p, Some(choice.options.as_slice())),
        None => options_close(t, pool, p, None),
    }
}

/// The same with the options of the best choice.
pub fn options_close(t: &Table, pool: &Pool, p: &Partial, best: Option<&[u8]>) -> Option<Close>
    requires table { IsTable t.now }
    requires pool { IsPool t.now pool.now.vectors }
    requires partial { IsPartial t.now p.now }
    requires best { IsBest t.now (option_copied best) }
    ensures { result ≡ first_close t.now pool.now.vectors (option_copied best.entry) p.now }
{
    if let Some(index) = first_row(t, p) {
        let rule = CloseRule::C;
        return Some(Close { rule, index });
    }
    if let Some(index) = first_vector(t, pool, p, best, CloseRule::I) {
        let rule = CloseRule::I;
        return Some(Close { rule, index });
    }
    if let Some(index) = first_vector(t, pool, p, best, CloseRule::D) {
        let rule = CloseRule::D;
        return Some(Close { rule, index });
    }
    let rule = CloseRule::T;
    let index = first_vector(t, pool, p, best, rule)?;
    Some(Close { rule, index })
}

// The first row that closes the partial choice.
fn first_row(t: &Table, p: &Partial) -> Option<u32>
    requires table { IsTable t.now }
    requires partial { IsPartial t.now p.now }
    ensures { result ≡ first_to (row_count t.now) (row_closes t.now p.now) }
{
    for i in 0..row_count(t) as u32 {
        if row_closes(t, i, p) {
            return Some(i);
        }
    }
    None
}

// The first vector of the pool with which a rule closes the partial choice.
fn first_vector(
    t: &Table,
    pool: &Pool,
    p: &Partial,
    best: Option<&[u8]>,
    rule: CloseRule,
) -> Option<u32>
    requires table { IsTable t.now }
    requires pool { IsPool t.now pool.now.vectors }
    requires partial { IsPartial t.now p.now }
    requires best { IsBest t.now (option_copied best) }
    ensures { result ≡ first_with t.now pool.now.vectors (option_copied best.entry) p.now rule }
{
    let vectors = pool.vectors.as_slice();
    for j in 0..vectors.len() {
        if vector_closes(t, vectors[j].as_slice(), p, best, rule) {
            return Some(j as u32);
        }
    }
    None
}
