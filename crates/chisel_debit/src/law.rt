//! Laws and no work: what debits and budgets are, for the layers above to cite.
ghost use Rattle.chisel_debit.specs.Budgets.{BudgetsKeepBounds};
ghost use Rattle.chisel_debit.specs.Debits.{DebitIsLeast, DebitCovers, BudgetIsGreatest, BudgetKeeps};

/// A debit is the least number that is counted whose power of the base, rounded up, is at most the reliability.
/// So the reliability is at least the exact power of the base.
pub fn debit_is_least()
    ensures least { DebitIsLeast }
    ensures covers { DebitCovers }
{}

/// A budget is the greatest number that is counted whose power of the base, rounded down, is at least the bound.
/// So the exact power of the base is at least the bound.
pub fn budget_is_greatest()
    ensures greatest { BudgetIsGreatest }
    ensures keeps { BudgetKeeps }
{}

/// Where the debits of all labels together stay within the budget of a bound, the exact product of the labels'
/// reliabilities is at least the bound.
pub fn budgets_keep_bounds()
    ensures { BudgetsKeepBounds }
{}
