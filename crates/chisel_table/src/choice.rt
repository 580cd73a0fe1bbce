//! The energy of a choice, its rows, and the order of choices.
//! Beneath each call over a `Choice` stands one over a slice of its options, for choices that stand elsewhere.
ghost use Rattle.std.specs.Prelude.{◌≡◌, ◌<◌, ◌≤◌, ◌^◌, IsTrue, ◌↔◌};
ghost use Rattle.chisel_table.specs.Choices.{IsChoice, Meets, before, energy, spent};
ghost use Rattle.chisel_table.specs.Tables.{row_count};
ghost use Rattle.chisel_table.specs.Valid.{IsTable};

use crate::table::{
    Table, budget_at, decision_count, energy_at, option_count, row_count, spent_at,
};
use rely_num::List;

/// One option for each decision, by its number.
#[derive(Debug, Drop)]
pub struct Choice {
    pub options: List<u8>,
}

/// The energy of a choice.
pub fn energy(t: &Table, c: &Choice) -> u64
    requires table { IsTable t.now }
    requires choice { IsChoice t.now c.now.options }
    ensures { result ≡ energy t.now c.now.options }
{
    options_energy(t, c.options.as_slice())
}

/// Whether a choice meets every row.
pub fn meets(t: &Table, c: &Choice) -> bool
    requires table { IsTable t.now }
    requires choice { IsChoice t.now c.now.options }
    ensures { IsTrue result ↔ Meets t.now c.now.options }
{
    options_meet(t, c.options.as_slice())
}

/// Whether a choice comes before another: by its energy, and then by its options in order of decision.
pub fn before(t: &Table, a: &Choice, b: &Choice) -> bool
    requires table { IsTable t.now }
    requires first { IsChoice t.now a.now.options }
    requires second { IsChoice t.now b.now.options }
    ensures { result ≡ before t.now a.now.options b.now.options }
{
    let first = energy(t, a);
    let second = energy(t, b);
    if first != second {
        return first < second;
    }
    let xs = a.options.as_slice();
    let ys = b.options.as_slice();
    for d in 0..decision_count(t) {
        if xs[d] != ys[d] {
            return xs[d] < ys[d];
        }
    }
    false
}

/// Whether these are the options of a choice: one for each decision, by a number that it has.
pub fn is_choice(t: &Table, options: &[u8]) -> bool
    ensures { IsTrue result ↔ IsChoice t.now options.now }
{
    if options.len() != decision_count(t) {
        return false;
    }
    for d in 0..options.len() {
        if usize::from(options[d]) >= option_count(t, d) {
            return false;
        }
    }
    true
}

/// The energy of the choice with these options.
pub fn options_energy(t: &Table, options: &[u8]) -> u64
    requires table { IsTable t.now }
    requires choice { IsChoice t.now options.now }
    ensures { result ≡ energy t.now options.now }
{
    let mut sum = t.fixed;
    for d in 0..decision_count(t) {
        sum += energy_at(t, d, usize::from(options[d]));
    }
    sum
}

/// What the choice with these options spends in a row.
pub fn options_spent(t: &Table, row: usize, options: &[u8]) -> u128
    requires table { IsTable t.now }
    requires row { row < row_count t.now }
    requires choice { IsChoice t.now options.now }
    ensures value { result ≡ spent t.now row options.now }
    ensures bound { result ≤ 2 ^ 70 }
{
    let mut sum = 0;
    for d in 0..decision_count(t) {
        sum += u128::from(spent_at(t, row, d, usize::from(options[d])));
    }
    sum
}

/// Whether the choice with these options meets every row.
pub fn options_meet(t: &Table, options: &[u8]) -> bool
    requires table { IsTable t.now }
    requires choice { IsChoice t.now options.now }
    ensures { IsTrue result ↔ Meets t.now options.now }
{
    for i in 0..row_count(t) {
        if options_spent(t, i, options) as i128 > budget_at(t, i) {
            return false;
        }
    }
    true
}
