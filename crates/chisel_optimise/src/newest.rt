ghost use Rattle.std.specs.Prelude.{◌≡◌, ◌<◌, IfOk, option_copied};
ghost use Rattle.chisel_cert.specs.Node.{certificate_of};
ghost use Rattle.chisel_cert.specs.Text.{text_of};
ghost use Rattle.chisel_cert.specs.Valid.{IsClaimed, restated_row};
ghost use Rattle.chisel_optimise.specs.Migrated.{migrated};
ghost use Rattle.chisel_search.specs.Printed.{restated_rows};
ghost use Rattle.chisel_table.specs.Tables.{row_count};
ghost use Rattle.chisel_table.specs.Valid.{IsTable};

use bumpalo::Bump;
use bumpalo::collections::into_bump_slice;
use chisel_cert::{Cert, Restated, write};
use chisel_table::{Table, budget_at, options_spent, row_count};
use std::alloc::{AllocError, Global};

/// The version that is printed.
const VERSION: u8 = 2;

/// A row told again: its budget, and what the choice spends of it.
#[tactic(auto, using(crate::proofs::Spending::spent_small))]
fn restated_row(t: &Table, row: usize, choice: Option<&[u8]>) -> Restated
    requires table { IsTable t.now }
    requires row { row < row_count t.now }
    requires claimed { IsClaimed t.now (option_copied choice) }
    ensures { result ≡ restated_row t.now (option_copied choice.entry) row }
{
    let budget = budget_at(t, row);
    let spent = match choice {
        Some(options) => Some(options_spent(t, row, options) as u32),
        None => None,
    };
    Restated { budget, spent }
}

/// All rows of a table, told again in order.
#[tactic(auto, using(crate::proofs::Rows::rows_none, crate::proofs::Rows::rows_more))]
fn restated_rows<'a>(
    arena: &'a Bump,
    t: &Table,
    choice: Option<&[u8]>,
) -> Result<&'a [Restated], AllocError>
    requires table { IsTable t.now }
    requires claimed { IsClaimed t.now (option_copied choice) }
    ensures { IfOk result (λ rows. rows.now ≡ restated_rows t.now (option_copied choice.entry)) }
{
    let mut rows = Vec::new(arena);
    for i in 0..row_count(t) {
        rows.push(restated_row(t, i, choice))?;
    }
    Ok(into_bump_slice(rows))
}

/// The text of a certificate in the version that is printed: the same choice, pool and tree, and the rows of the table told
/// again.
///
/// # Errors
///
/// Memory was refused.
pub fn migrate(alloc: Global, t: &Table, c: &Cert<'_>) -> Result<Vec<u8>, AllocError>
    requires table { IsTable t.now }
    requires claimed { IsClaimed t.now (certificate_of c.now).choice }
    ensures { IfOk result (λ v. v.items ≡ text_of (migrated t.now (certificate_of c.now))) }
{
    let arena = Bump::new(alloc);
    let restated = restated_rows(&arena, t, c.choice)?;
    let version = VERSION;
    let cert = Cert {
        version,
        restated,
        ..*c
    };
    write(alloc, &cert)
}
