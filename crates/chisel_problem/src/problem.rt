ghost use Rattle.std.specs.Prelude.{◌≡◌, ◌↔◌, Err, IfOk};
ghost use Rattle.chisel_debit.specs.Hardware.{debit_list};
ghost use Rattle.chisel_table.specs.Valid.{IsTable};
ghost use Rattle.chisel_problem.specs.Problem.{ArePredicates, AreReady, AreSamples, table_of};
ghost use Rattle.chisel_problem.specs.Promises.{ChoicesAreKernels, EnergyIsCost, MeetingKeepsBounds, RowsAreBudgets};
ghost use Rattle.chisel_problem.specs.Refusals.{HasManyDecisions, HasManyOptions, NothingIsOpen};
ghost use Rattle.chisel_problem.specs.declared.fault.ProblemFault.TheVariants.{NoOpen, Decisions, Options};

use crate::energies::{closed_energy, energies, inner_energy};
use crate::fault::ProblemFault;
use crate::places::opened;
use crate::refusals::check;
use crate::rows::rows;
use crate::spending::Debits;
use crate::uses::Whose;
use chisel_debit::DebitList;
use chisel_table::Table;
use rely_hard::Hardware;
use rely_kernel::Linked;
use rely_machine::Outcome;
use rely_num::List;
use rely_predicate::Predicate;
use std::alloc::Global;

/// The table of a linked function: what each choice of its open kinds and memories costs over the runs,
/// and what it spends of the budgets of its claims. There is one predicate for each claim, and the debits
/// are those of the hardware.
///
/// `NoOpen`, `Decisions` and `Options` come in this order, before anything takes memory.
pub fn build(
    alloc: Global,
    k: &Linked,
    preds: &[Predicate],
    d: &DebitList,
    h: &Hardware,
    runs: &[Outcome],
) -> Result<Table, ProblemFault>
    requires ready { AreReady h.now k.now }
    requires predicates { ArePredicates k.now.kernel preds.now }
    requires debits { d.now ≡ debit_list h.now }
    requires samples { AreSamples k.now runs.now }
    ensures exact { IfOk result (λ t. t ≡ table_of h.now k.now preds.now runs.now) }
    ensures valid { IfOk result IsTable }
    ensures choices { IfOk result (ChoicesAreKernels h.now k.now.kernel) }
    ensures energy { IfOk result (EnergyIsCost h.now k.now runs.now) }
    ensures rows { IfOk result (RowsAreBudgets h.now k.now.kernel preds.now) }
    ensures bounds { IfOk result (MeetingKeepsBounds h.now k.now preds.now) }
    ensures no_open { (result ≡ Err NoOpen) ↔ NothingIsOpen k.now.kernel }
    ensures decisions { (result ≡ Err Decisions) ↔ HasManyDecisions k.now.kernel }
    ensures options { (result ≡ Err Options) ↔ HasManyOptions h.now k.now.kernel }
{
    check(&k.kernel, h)?;
    let places = energies(alloc, h, &k.kernel, runs, Whose::Main)?;
    let inner = inner_energy(alloc, h, k.inner.as_slice(), runs)?;
    let debits = Debits::new(alloc, h, &k.kernel, d)?;
    Ok(Table {
        fixed: closed_energy(&places).saturating_add(inner),
        energies: opened(alloc, &places)?,
        rows: List::from_vec(rows(alloc, &debits, preds)?),
    })
}
