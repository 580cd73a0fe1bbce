//! The excesses of all rows at one partial choice, moved from the one to the next by the decisions that differ.
ghost use Rattle.std.specs.Prelude.{◌≡◌, ◌<◌, IfOk, length, true, false};
ghost use Rattle.chisel_table.specs.declared.partial.TheConstants.{UNFIXED};
ghost use Rattle.chisel_table.specs.Partials.{IsPartial, is_unfixed, nothing_fixed, with_option};
ghost use Rattle.chisel_table.specs.Tables.{decision_count, option_count};
ghost use Rattle.chisel_table.specs.Valid.{IsTable};
ghost use Rattle.chisel_bound.specs.Rows.{AddsColumn, CanAdd, CanTake, IsSlot, TakesColumn};

use crate::differences::Differences;
use chisel_table::{MAX_OPTIONS, Partial, Table, UNFIXED, decision_count, row_count, row_excess};
use std::alloc::{AllocError, Global};

/// A partial choice, and what each completion spends above the budget of each row at least.
#[derive(Drop)]
pub struct RowSums {
    pub partial: Partial,
    pub excesses: Vec<i128>,
}

impl RowSums {
    ghost use Rattle.chisel_bound.specs.Kept.{AreDifferences, AreRowSums};

    /// Those of the partial choice that fixes nothing.
    pub fn start(alloc: Global, t: &Table) -> Result<RowSums, AllocError>
        requires { IsTable t.now }
        ensures partial { IfOk result (λ r. r.partial ≡ nothing_fixed t.now) }
        ensures sums { IfOk result (AreRowSums t.now) }
    {
        let partial = Partial::nothing_fixed(t);
        let mut excesses = Vec::with_capacity(alloc, row_count(t))?;
        for i in 0..row_count(t) as u32 {
            excesses.push(row_excess(t, i, &partial))?;
        }
        Ok(RowSums { partial, excesses })
    }

    /// Moves them to another partial choice.
    pub fn move_to(&mut self, differences: &Differences, p: &Partial)
        requires differences { AreDifferences differences.now }
        requires sums { AreRowSums differences.now.table.now self.old }
        requires partial { IsPartial differences.now.table.now p.now }
        ensures partial { self.new.partial ≡ p.now }
        ensures sums { AreRowSums differences.now.table.now self.new }
    {
        for d in 0..decision_count(differences.table) {
            if self.partial.slots[d] != p.slots[d] {
                self.put(differences, d, p.slots[d]);
            }
        }
        self.partial = *p;
    }

    // Puts an option, or that there is none, in the place of what is fixed of a decision.
    fn put(&mut self, differences: &Differences, decision: usize, slot: u8)
        requires differences { AreDifferences differences.now }
        requires sums { AreRowSums differences.now.table.now self.old }
        requires decision { decision < decision_count differences.now.table.now }
        requires slot { IsSlot differences.now.table.now decision slot }
        ensures partial { self.new.partial ≡ with_option self.old.partial decision slot }
        ensures sums { AreRowSums differences.now.table.now self.new }
    {
        if self.partial.slots[decision] != UNFIXED {
            self.clear(differences, decision);
        }
        if slot != UNFIXED {
            self.fix(differences, decision, slot);
        }
    }

    // Unfixes a decision.
    fn clear(&mut self, differences: &Differences, decision: usize)
        requires differences { AreDifferences differences.now }
        requires sums { AreRowSums differences.now.table.now self.old }
        requires decision { decision < decision_count differences.now.table.now }
        requires fixed { is_unfixed self.old.partial decision ≡ false }
        ensures partial { self.new.partial ≡ with_option self.old.partial decision UNFIXED }
        ensures sums { AreRowSums differences.now.table.now self.new }
    {
        let place = MAX_OPTIONS * decision + self.partial.slots[decision] as usize;
        take(&mut self.excesses, differences.columns[place].as_slice());
        self.partial.slots[decision] = UNFIXED;
    }

    // Fixes an option of a decision that is unfixed.
    fn fix(&mut self, differences: &Differences, decision: usize, option: u8)
        requires differences { AreDifferences differences.now }
        requires sums { AreRowSums differences.now.table.now self.old }
        requires decision { decision < decision_count differences.now.table.now }
        requires unfixed { is_unfixed self.old.partial decision ≡ true }
        requires option { option < option_count differences.now.table.now decision }
        ensures partial { self.new.partial ≡ with_option self.old.partial decision option }
        ensures sums { AreRowSums differences.now.table.now self.new }
    {
        let place = MAX_OPTIONS * decision + option as usize;
        add(&mut self.excesses, differences.columns[place].as_slice());
        self.partial.slots[decision] = option;
    }
}

// Adds a column to the excesses.
fn add(excesses: &mut [i128], column: &[u64])
    requires size { length excesses.old ≡ length column.now }
    requires fits { CanAdd excesses.old column.now }
    ensures { AddsColumn excesses.old column.now excesses.new }
{
    for i in 0..column.len() {
        excesses[i] += column[i] as i128;
    }
}

// Takes a column away from the excesses.
fn take(excesses: &mut [i128], column: &[u64])
    requires size { length excesses.old ≡ length column.now }
    requires fits { CanTake excesses.old column.now }
    ensures { TakesColumn excesses.old column.now excesses.new }
{
    for i in 0..column.len() {
        excesses[i] -= column[i] as i128;
    }
}
