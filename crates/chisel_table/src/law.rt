//! Laws and no work: what the definitions say together, for the layers above to cite.
ghost use Rattle.chisel_table.specs.Fixing.{FixingGrowsBounds, FixingDivides, NothingFixedIsAll};
ghost use Rattle.chisel_table.specs.Least.{ChoicesAreOrdered, LeastIsUnique};
ghost use Rattle.chisel_table.specs.Soundness.{RelaxationIsBound, RulesAreSound, VectorsAreSound, FirstCloses, NothingCloses, ClosesWithBetter};

/// Of two choices exactly one is before the other, so that the least choice is one.
pub fn choices_are_ordered()
    ensures ordered { ChoicesAreOrdered }
    ensures unique { LeastIsUnique }
{}

/// Weak duality: whatever the multipliers are, the relaxation bounds each completion that meets every row.
pub fn relaxation_is_bound()
    ensures { RelaxationIsBound }
{}

/// What a rule closes has no completion that meets every row and is before the best choice.
/// Where there is no best choice, it has no completion that meets every row.
pub fn rules_are_sound()
    ensures pooled { RulesAreSound }
    ensures own { VectorsAreSound }
{}

/// The first closing rule holds, and where there is none no rule holds.
pub fn first_closes()
    ensures holds { FirstCloses }
    ensures none { NothingCloses }
{}

/// What closes with a best choice closes with every better one, though perhaps by another rule.
pub fn better_closes()
    ensures { ClosesWithBetter }
{}

/// Fixing a decision changes each bound by that decision's difference alone.
pub fn fixing_grows_bounds()
    ensures { FixingGrowsBounds }
{}

/// Fixing a decision divides the completions by their option of it, from all choices on.
pub fn fixing_divides()
    ensures all { NothingFixedIsAll }
    ensures divided { FixingDivides }
{}
