ghost use Rattle.std.specs.Prelude.{◌≡◌, ◌++◌, ◌<◌, ◌^◌, IfOk, OnOk, length, map};
ghost use Rattle.std.specs.List.{AllByRecursion};
ghost use Rattle.rely_kernel.specs.Valid.{IsValid};
ghost use Rattle.rely_predicate.specs.Predicates.{IsPredicate};
ghost use Rattle.chisel_debit.specs.Debits.{budget};
ghost use Rattle.chisel_problem.specs.Problem.{ArePredicates, row_within, rows_of, rows_within};

use crate::places::{closed, opened};
use crate::spending::Debits;
use chisel_debit::budgets_of;
use chisel_table::Row;
use rely_kernel::Claim;
use rely_num::{Atto, Conj, List};
use rely_predicate::Predicate;
use std::alloc::{AllocError, Global};

/// The rows of a kernel's claims, one for each conjunct. Each predicate is read.
#[tactic(auto, using(crate::proofs::Predicates::read_all))]
pub(crate) fn rows(
    alloc: Global,
    debits: &Debits,
    preds: &[Predicate],
) -> Result<Vec<Row>, AllocError>
    requires valid { IsValid debits.now.k.now }
    requires predicates { ArePredicates debits.now.k.now preds.now }
    ensures rows { IfOk result
        (λ rows. rows.items ≡ rows_of debits.now.h.now debits.now.k.now preds.now) }
    ensures read { IfOk result (λ _. AllByRecursion IsPredicate preds.now) }
{
    let budgets = budgets(alloc, debits)?;
    let mut rows = Vec::new(alloc);
    for (i, budget) in budgets.as_slice().iter().enumerate() {
        add_rows(&mut rows, debits, *budget, preds[i].conjs())?;
    }
    Ok(rows)
}

// The budgets of the claims are all found by one walk.
#[tactic(auto, using(crate::proofs::Lists::mapped_twice))]
fn budgets(alloc: Global, debits: &Debits) -> Result<List<u32>, AllocError>
    ensures { IfOk result (λ budgets. budgets
        ≡ map (λ claim. budget debits.now.h.now.base claim.bound) debits.now.k.now.claims) }
{
    let bounds = bounds(alloc, debits.k.claims.as_slice())?;
    budgets_of(alloc, debits.h.base, &bounds)
}

fn bounds(alloc: Global, claims: &[Claim]) -> Result<Vec<Atto>, AllocError>
    ensures { IfOk result (λ bounds. bounds.items ≡ map (λ claim. claim.bound) claims.now) }
{
    claims.iter().map(|claim| claim.bound).collect(alloc)
}

fn add_rows(
    rows: &mut Vec<Row>,
    debits: &Debits,
    budget: u32,
    conjs: &[Conj],
) -> Result<(), AllocError>
    requires valid { IsValid debits.now.k.now }
    requires small { AllByRecursion (λ c. AllByRecursion (λ n. n < 2 ^ 36) c.counts) conjs.now }
    ensures { OnOk result (rows.new.items
        ≡ rows.old.items ++ rows_within debits.now.h.now debits.now.k.now budget conjs.now) }
{
    let alloc = *rows.allocator();
    for conj in conjs {
        rows.push(row(alloc, debits, budget, conj.counts.as_slice())?)?;
    }
    Ok(())
}

#[tactic(auto, using(crate::proofs::SpendingLaws::spending_stays))]
fn row(alloc: Global, debits: &Debits, budget: u32, counts: &[u64]) -> Result<Row, AllocError>
    requires valid { IsValid debits.now.k.now }
    requires small { AllByRecursion (λ n. n < 2 ^ 36) counts.now }
    ensures { IfOk result
        (λ row. row ≡ row_within debits.now.h.now debits.now.k.now budget counts.now) }
{
    let places = debits.spending(alloc, counts)?;
    let spent = closed(&places) + debits.calls_spend(counts);
    Ok(Row {
        budget: budget as i128 - spent as i128,
        spent: opened(alloc, &places)?,
    })
}
