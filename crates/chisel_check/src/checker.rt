//! The judgement of a certificate.
ghost use Rattle.std.specs.Prelude.{◌≡◌, ◌<◌, ◌↔◌, Err, IsTrue, IfErr, OnOk, length, option_copied};
ghost use Rattle.chisel_table.specs.Closings.{IsBest};
ghost use Rattle.chisel_table.specs.Tables.{row_count};
ghost use Rattle.chisel_table.specs.Valid.{IsTable};
ghost use Rattle.chisel_cert.specs.Node.{certificate_of};
ghost use Rattle.chisel_cert.specs.Ranges.{IsWithin};
ghost use Rattle.chisel_cert.specs.Valid.{IsClaimed, energy_of, restated_row, IsValidFor};
ghost use Rattle.chisel_check.specs.Failures.{IsSized, IsHeaded, AreTold, FailsFirst, IsFirstFailure, IsValidTree, tree_walk};
ghost use Rattle.chisel_table.specs.Least.{IsLeast};

use crate::node::{Answer, CheckWhy, Failure, check_node};
use crate::prices::{Priced, kept_pool};
use chisel_cert::{Cert, Restated};
use chisel_table::{
    Partial, Table, budget_at, decision_count, is_choice, options_energy, options_meet,
    options_spent, row_count,
};

const SIZE_LINE: u32 = 2;

const CHOICE_LINE: u32 = 3;

const ENERGY_LINE: u32 = 4;
/// The line of the first row that is told again, or else of the number of vectors.
const FIRST_ROW_LINE: u32 = 5;
/// The line of the root, where no rows and vectors stand before it.
const FIRST_ROOT_LINE: u32 = 7;

fn is_sized(t: &Table, c: &Cert<'_>) -> bool
    ensures { IsTrue result ↔ IsSized t.now (certificate_of c.now) }
{
    c.decisions as usize == decision_count(t) && c.rows as usize == row_count(t)
}

/// Whether the choice, where there is one, is one of the table that meets every row.
fn is_claimed(t: &Table, choice: Option<&[u8]>) -> bool
    requires { IsTable t.now }
    ensures { IsTrue result ↔ IsClaimed t.now (option_copied choice.entry) }
{
    match choice {
        Some(options) => is_choice(t, options) && options_meet(t, options),
        None => true,
    }
}

/// The energy of the choice, where there is one.
fn energy_of(t: &Table, choice: Option<&[u8]>) -> Option<u64>
    requires table { IsTable t.now }
    requires choice { IsBest t.now (option_copied choice) }
    ensures { result ≡ energy_of t.now (option_copied choice.entry) }
{
    match choice {
        Some(options) => Some(options_energy(t, options)),
        None => None,
    }
}

/// Whether a row is told again as it is.
fn is_told(t: &Table, choice: Option<&[u8]>, row: usize, told: &Restated) -> bool
    requires table { IsTable t.now }
    requires choice { IsBest t.now (option_copied choice) }
    requires row { row < row_count t.now }
    ensures { IsTrue result ↔ (told.now ≡ restated_row t.now (option_copied choice.entry) row) }
{
    if told.budget != budget_at(t, row) {
        return false;
    }
    match (choice, told.spent) {
        (Some(options), Some(spent)) => u128::from(spent) == options_spent(t, row, options),
        (None, None) => true,
        _ => false,
    }
}

/// The sizes, the choice and the energy.
fn check_head(t: &Table, c: &Cert<'_>) -> Result<(), Failure>
    requires { IsTable t.now }
    ensures ok { OnOk result (IsHeaded t.now (certificate_of c.now)) }
    ensures err { IfErr result (λ e. FailsFirst t.now (certificate_of c.now) e.line e.why) }
{
    if !is_sized(t, c) {
        let (line, why) = (SIZE_LINE, CheckWhy::Size);
        return Err(Failure { line, why });
    }
    if !is_claimed(t, c.choice) {
        let (line, why) = (CHOICE_LINE, CheckWhy::Choice);
        return Err(Failure { line, why });
    }
    if c.energy != energy_of(t, c.choice) {
        let (line, why) = (ENERGY_LINE, CheckWhy::Energy);
        return Err(Failure { line, why });
    }
    Ok(())
}

/// The rows that are told again, if any are.
fn check_rows(t: &Table, c: &Cert<'_>) -> Result<(), Failure>
    requires table { IsTable t.now }
    requires within { IsWithin (certificate_of c.now) }
    requires head { IsHeaded t.now (certificate_of c.now) }
    ensures ok { OnOk result (AreTold t.now (certificate_of c.now) (length c.now.restated.now)) }
    ensures err { IfErr result (λ e. FailsFirst t.now (certificate_of c.now) e.line e.why) }
{
    for (row, told) in c.restated.iter().enumerate() {
        if !is_told(t, c.choice, row, told) {
            let (line, why) = (FIRST_ROW_LINE + row as u32, CheckWhy::Row);
            return Err(Failure { line, why });
        }
    }
    Ok(())
}

/// The nodes, from the root on.
fn check_tree(t: &Table, c: &Cert<'_>) -> Result<(), Failure>
    requires table { IsTable t.now }
    requires within { IsWithin (certificate_of c.now) }
    requires head { IsHeaded t.now (certificate_of c.now) }
    ensures ok { OnOk result (IsValidTree t.now c.now) }
    ensures err { IfErr result (λ e. tree_walk t.now c.now ≡ Err e) }
{
    let line = c.restated.len() as u32 + c.pool.len() as u32 + FIRST_ROOT_LINE;
    let prices = &kept_pool(t, c.pool);
    let cert = Priced { cert: c, prices };
    let mut p = Partial::nothing_fixed(t);
    match check_node(t, &cert, &c.root, &mut p, line) {
        Ok(_) => Ok(()),
        Err(failure) => Err(failure),
    }
}

/// The first failure of a certificate, by its parts in order.
fn first_failure(t: &Table, c: &Cert<'_>) -> Result<(), Failure>
    requires table { IsTable t.now }
    requires within { IsWithin (certificate_of c.now) }
    ensures ok { OnOk result (IsValidFor t.now (certificate_of c.now)) }
    ensures err { IfErr result (λ e. FailsFirst t.now (certificate_of c.now) e.line e.why) }
{
    check_head(t, c)?;
    check_rows(t, c)?;
    check_tree(t, c)?;
    Ok(())
}

/// Whether a certificate is valid for a table, whoever made it.
///
/// A `No` has the first line that fails. It takes no memory; the recursion goes as deep as the tree.
pub fn check(t: &Table, c: &Cert<'_>) -> Answer
    requires table { IsTable t.now }
    requires within { IsWithin (certificate_of c.now) }
    ensures yes { (result ≡ Answer.Yes) ↔ IsValidFor t.now (certificate_of c.now) }
    ensures no { IsFirstFailure t.now (certificate_of c.now) result }
    ensures least { result ≡ Answer.Yes → IsLeast t.now (option_copied c.now.choice) }
{
    match first_failure(t, c) {
        Ok(()) => Answer::Yes,
        Err(Failure { line, why }) => Answer::No { line, why },
    }
}
