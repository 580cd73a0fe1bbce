//! The first rule that closes a partial choice, from the bounds and the row sums that a search keeps.
ghost use Rattle.std.specs.Prelude.{◌≡◌, ◌*◌, ◌<◌, ◌^◌, ◌-ℤ◌, length, pos};
ghost use Rattle.chisel_table.specs.declared.lagrangian.TheConstants.{ENERGY_WEIGHT};
ghost use Rattle.chisel_table.specs.Sums.{first_to};
ghost use Rattle.chisel_bound.specs.BoundsAt.{has_excess, is_above};
ghost use Rattle.chisel_bound.specs.Rows.{is_exceeded};

use crate::bounds::Bounds;
use crate::differences::Differences;
use crate::rows::RowSums;
use chisel_table::{Close, CloseRule, ENERGY_WEIGHT, first_precedes};
use rely_num::List;

/// The options of the best choice so far, with its energy.
#[derive(Debug, Drop)]
pub struct Best {
    pub options: List<u8>,
    pub energy: u64,
}

impl Best {
    // The energy in the weight of bounds.
    fn weighted_energy(&self) -> i128
        ensures { result ≡ pos (ENERGY_WEIGHT * self.now.energy) }
    {
        ENERGY_WEIGHT as i128 * self.energy as i128
    }

    // The same of an energy less by one, which is below zero where there is no energy.
    fn tied_energy(&self) -> i128
        ensures { result ≡ pos (ENERGY_WEIGHT * self.now.energy) -ℤ pos ENERGY_WEIGHT }
    {
        self.weighted_energy() - ENERGY_WEIGHT as i128
    }
}

impl Differences<'_> {
    ghost use Rattle.chisel_bound.specs.Kept.{AreDifferences, AreRowSums, IsBestWithEnergy, all_bounds, best_options, first_rule};

    /// The first rule that closes the partial choice of the row sums, with these bounds of it.
    pub fn closes(&self, bounds: &[Bounds], rows: &RowSums, best: Option<&Best>) -> Option<Close>
        requires differences { AreDifferences self.now }
        requires rows { AreRowSums self.now.table.now rows.now }
        requires bounds { bounds.now ≡ all_bounds self.now rows.now.partial }
        requires best { IsBestWithEnergy self.now.table.now best }
        ensures { result ≡ first_rule self.now (best_options best.entry) rows.now.partial }
    {
        if let Some(index) = first_row_above(&rows.excesses) {
            let rule = CloseRule::C;
            return Some(Close { rule, index });
        }
        if let Some(index) = first_excess_above(bounds) {
            let rule = CloseRule::I;
            return Some(Close { rule, index });
        }
        let Some(best) = best else {
            return None;
        };
        if let Some(index) = first_value_above(bounds, best.weighted_energy()) {
            let rule = CloseRule::D;
            return Some(Close { rule, index });
        }
        let Some(index) = first_value_above(bounds, best.tied_energy()) else {
            return None;
        };
        if first_precedes(self.table, &rows.partial, best.options.as_slice()) {
            return None;
        }
        let rule = CloseRule::T;
        Some(Close { rule, index })
    }
}

// The first row whose excess is positive.
fn first_row_above(excesses: &[i128]) -> Option<u32>
    requires { length excesses.now < 2 ^ 32 }
    ensures { result ≡ first_to (length excesses.now) (is_exceeded excesses.now) }
{
    for i in 0..excesses.len() {
        if excesses[i] > 0 {
            return Some(i as u32);
        }
    }
    None
}

// The first vector whose excess is positive.
fn first_excess_above(bounds: &[Bounds]) -> Option<u32>
    requires { length bounds.now < 2 ^ 32 }
    ensures { result ≡ first_to (length bounds.now) (has_excess bounds.now) }
{
    for j in 0..bounds.len() {
        if bounds[j].excess > 0 {
            return Some(j as u32);
        }
    }
    None
}

// The first vector whose value is above a limit.
fn first_value_above(bounds: &[Bounds], limit: i128) -> Option<u32>
    requires { length bounds.now < 2 ^ 32 }
    ensures { result ≡ first_to (length bounds.now) (is_above limit bounds.now) }
{
    for j in 0..bounds.len() {
        if bounds[j].value > limit {
            return Some(j as u32);
        }
    }
    None
}
