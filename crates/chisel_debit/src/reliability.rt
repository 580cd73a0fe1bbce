ghost use Rattle.std.specs.Prelude.{◌≡◌, ◌<◌, ◌≤◌, ℕ};
ghost use Rattle.chisel_debit.specs.Debits.{debit, up};
ghost use Rattle.chisel_debit.specs.declared.reliability.TheConstants.{MAX_DEBIT};

use crate::walk::{Walk, walk_to};
use rely_num::{Atto, mul_hi};

/// The greatest debit that is counted, and the greatest budget.
pub const MAX_DEBIT: u32 = 16_777_216;

/// The debit of a reliability below every power of the base that is counted. No budget has room for it.
pub const BEYOND: u32 = 33_554_432;

/// The debit of a reliability: the least power of the base, rounded up, that is at most it. It takes no memory.
pub fn debit(base: Atto, right: Atto) -> u32
    ensures { result ≡ debit base right }
{
    walk_to::<DebitWalk>(base, right)
}

/// The walk that answers debits, with its powers rounded up.
#[derive(Clone, Copy)]
pub(crate) struct DebitWalk {
    base: Atto,
    power: Atto,
    steps: u32,
    ghost reached: { power ≡ up base steps },
    ghost counted: { steps ≤ MAX_DEBIT },
}

impl Walk for DebitWalk {
    ghost base_of = { λ walk. walk.base };

    ghost answer_of = { debit };

    ghost is_ahead = { λ walk right. (k : ℕ) → k < walk.steps → right < up walk.base k };

    fn new(base: Atto) -> DebitWalk {
        DebitWalk {
            base,
            power: Atto::ONE,
            steps: 0,
        }
    }

    // Where a power doesn't fall, no later one does.
    fn answer(&mut self, right: u64) -> u32 {
        while right < self.power.get() {
            let next = mul_hi(self.power, self.base);
            if self.steps == MAX_DEBIT || next == self.power {
                return BEYOND;
            }
            *self = DebitWalk {
                base: self.base,
                power: next,
                steps: self.steps + 1,
            };
        }
        self.steps
    }
}
