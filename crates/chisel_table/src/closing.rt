//! The rules that close a partial choice: with a row, and with a vector of multipliers.
//! No pool stands here, so that a search and a checker may keep their vectors each in its own way.
ghost use Rattle.std.specs.Prelude.{◌≡◌, ◌<◌, ◌*◌, option_copied, pos, slice_index};
ghost use Rattle.chisel_table.specs.declared.lagrangian.TheConstants.{ENERGY_WEIGHT};
ghost use Rattle.chisel_table.specs.declared.table.TheConstants.{MAX_DECISIONS};
ghost use Rattle.chisel_table.specs.Choices.{IsChoice, energy, precedes};
ghost use Rattle.chisel_table.specs.Closings.{IsBest, row_closes, vector_closes};
ghost use Rattle.chisel_table.specs.Lagrangian.{IsVector};
ghost use Rattle.chisel_table.specs.Partials.{IsPartial, first_option};
ghost use Rattle.chisel_table.specs.Tables.{row_count};
ghost use Rattle.chisel_table.specs.Valid.{IsTable};

use crate::choice::options_energy;
use crate::lagrangian::{ENERGY_WEIGHT, excess, row_excess, value};
use crate::partial::Partial;
use crate::table::{Table, decision_count};

/// Why no completion of a partial choice is worth looking at. The letters are those of certificates.
#[derive(Clone, Copy, Debug, PartialEq, Eq)]
pub enum CloseRule {
    /// A row can't be met.
    C,
    /// Under the multipliers, the rows can't be met together.
    I,
    /// Each completion that meets every row has more energy than the best choice.
    D,
    /// Each has at least its energy, and none with its energy has options before it.
    T,
}

/// A rule that closes, with the number of its row, or of its vector in a pool.
#[derive(Clone, Copy, Debug, PartialEq, Eq)]
pub struct Close {
    pub rule: CloseRule,
    pub index: u32,
}

/// Whether a row closes the partial choice: no completion meets it.
pub fn row_closes(t: &Table, row: u32, p: &Partial) -> bool
    requires table { IsTable t.now }
    requires row { row < row_count t.now }
    requires partial { IsPartial t.now p.now }
    ensures { result ≡ row_closes t.now p.now row }
{
    row_excess(t, row, p) > 0
}

/// Whether a rule closes the partial choice with a vector, beside the best choice so far.
///
/// Rule `C` has no vector, and never holds here. Rules `D` and `T` never hold without a best choice.
pub fn vector_closes(
    t: &Table,
    l: &[u64],
    p: &Partial,
    best: Option<&[u8]>,
    rule: CloseRule,
) -> bool
    requires table { IsTable t.now }
    requires vector { IsVector t.now l.now }
    requires partial { IsPartial t.now p.now }
    requires best { IsBest t.now (option_copied best) }
    ensures { result ≡ vector_closes t.now (option_copied best.entry) p.now rule l.now }
{
    match rule {
        CloseRule::C => false,
        CloseRule::I => excess(t, l, p) > 0,
        CloseRule::D => match best {
            None => false,
            Some(options) => value(t, l, p) > weighted_energy(t, options),
        },
        CloseRule::T => match best {
            None => false,
            Some(options) => {
                let tie = weighted_energy(t, options) - ENERGY_WEIGHT as i128;
                value(t, l, p) > tie && !first_precedes(t, p, options)
            }
        },
    }
}

// The energy of the choice with these options, times `ENERGY_WEIGHT`.
fn weighted_energy(t: &Table, options: &[u8]) -> i128
    requires table { IsTable t.now }
    requires choice { IsChoice t.now options.now }
    ensures { result ≡ pos (ENERGY_WEIGHT * energy t.now options.now) }
{
    ENERGY_WEIGHT as i128 * options_energy(t, options) as i128
}

/// Whether option 0 of each unfixed decision, with the fixed options, precedes the choice.
pub fn first_precedes(t: &Table, p: &Partial, options: &[u8]) -> bool
    requires table { IsTable t.now }
    requires partial { IsPartial t.now p.now }
    requires choice { IsChoice t.now options.now }
    ensures { result ≡ precedes t.now (first_option p.now) (slice_index options.now) }
{
    for d in 0..decision_count(t) {
        let first = first_option(p, d);
        if first != options[d] {
            return first < options[d];
        }
    }
    false
}

// The fixed option of a decision, and the first where none is fixed.
fn first_option(p: &Partial, decision: usize) -> u8
    requires { decision < MAX_DECISIONS }
    ensures { result ≡ first_option p.now decision }
{
    if p.is_unfixed(decision) {
        0
    } else {
        p.slots[decision]
    }
}
