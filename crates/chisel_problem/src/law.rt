//! A law and no work: what the least choice of a table is for its kernel.
ghost use Rattle.chisel_problem.specs.Least.{BudgetsKeepClaims, LeastOfTable};

/// The least choice of a kernel's table is the least choice of the kernel: its setting keeps the
/// budgets, and none that keeps them costs less over the samples. Where the table has none, no setting
/// of a choice keeps the budgets. Under a setting that keeps them every claim's bound holds, if the
/// claims' conjuncts name needs alone.
pub fn least_of_table()
    ensures least { LeastOfTable }
    ensures bounds { BudgetsKeepClaims }
{}
