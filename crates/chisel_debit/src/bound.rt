ghost use Rattle.std.specs.Prelude.{◌≡◌, ◌<◌, ◌≤◌};
ghost use Rattle.chisel_debit.specs.Debits.{budget, low};
ghost use Rattle.chisel_debit.specs.declared.reliability.TheConstants.{MAX_DEBIT};

use crate::reliability::MAX_DEBIT;
use crate::walk::{Walk, walk_to};
use rely_num::{Atto, mul_lo};

/// The budget of a bound: the greatest power of the base, rounded down, that is at least it. It takes no memory.
pub fn budget(base: Atto, bound: Atto) -> u32
    ensures exact { result ≡ budget base bound }
    ensures counted { result ≤ MAX_DEBIT }
{
    walk_to::<BudgetWalk>(base, bound)
}

/// The walk that answers budgets, with its powers rounded down.
#[derive(Clone, Copy)]
pub(crate) struct BudgetWalk {
    base: Atto,
    power: Atto,
    steps: u32,
    ghost reached: { power ≡ low base steps },
    ghost counted: { steps ≤ MAX_DEBIT },
}

impl Walk for BudgetWalk {
    ghost base_of = { λ walk. walk.base };

    ghost answer_of = { budget };

    ghost is_ahead = { λ walk bound. 0 < walk.steps → bound ≤ low walk.base walk.steps };

    fn new(base: Atto) -> BudgetWalk {
        BudgetWalk {
            base,
            power: Atto::ONE,
            steps: 0,
        }
    }

    // A bound of nothing is never passed, and where a power doesn't fall, no later one does.
    fn answer(&mut self, bound: u64) -> u32 {
        if bound == 0 {
            return MAX_DEBIT;
        }
        for steps in self.steps..MAX_DEBIT {
            let next = mul_lo(self.power, self.base);
            if next.get() < bound {
                return steps;
            }
            if next == self.power {
                return MAX_DEBIT;
            }
            *self = BudgetWalk {
                base: self.base,
                power: next,
                steps: steps + 1,
            };
        }
        MAX_DEBIT
    }
}
