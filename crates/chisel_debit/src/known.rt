ghost use Rattle.std.specs.Prelude.{◌≡◌, IfOk, map};
ghost use Rattle.chisel_debit.specs.Debits.{budget, debit};

use crate::bound::BudgetWalk;
use crate::reliability::DebitWalk;
use crate::walk::{Walk, walk_to};
use rely_num::{Atto, List};
use std::alloc::{AllocError, Global};
use std::marker::PhantomData;

/// Numbers in rising order, with what a walk answers of each, all from one walk.
#[derive(Drop)]
pub(crate) struct Known<W: Walk> {
    base: Atto,
    numbers: Vec<u64>,
    answers: Vec<u32>,
    by: PhantomData<W>,
    ghost walked: { answers.items ≡ map (W.answer_of base) numbers.items },
}

impl<W: Walk> Known<W> {
    /// What is answered of so many numbers, in attos.
    pub(crate) fn new(
        alloc: Global,
        base: Atto,
        mut numbers: Vec<u64>,
    ) -> Result<Known<W>, AllocError>
        ensures { IfOk result (λ known. known.base ≡ base) }
    {
        numbers.sort_unstable();
        let mut answers = vec![in alloc; 0; numbers.len()]?;
        let mut walk = W::new(base);
        for i in (0..numbers.len()).rev() {
            answers[i] = walk.answer(numbers[i]);
        }
        Ok(Known {
            base,
            numbers,
            answers,
            by: PhantomData,
        })
    }

    /// What is answered of a number: looked up where it is known, and else walked to.
    pub(crate) fn answer(&self, number: Atto) -> u32
        ensures { result ≡ W.answer_of self.now.base number }
    {
        match self.numbers.binary_search(&number.get()) {
            Ok(i) => self.answers[i],
            Err(_) => walk_to::<W>(self.base, number),
        }
    }
}

/// The debits of reliabilities, in their order, all by one walk over the powers of the base.
pub fn debits_of(alloc: Global, base: Atto, rights: &[Atto]) -> Result<List<u32>, AllocError>
    ensures { IfOk result (λ debits. debits ≡ map (debit base) rights.now) }
{
    answers_of::<DebitWalk>(alloc, base, rights)
}

/// The budgets of bounds, in their order, all by one walk over the powers of the base.
pub fn budgets_of(alloc: Global, base: Atto, bounds: &[Atto]) -> Result<List<u32>, AllocError>
    ensures { IfOk result (λ budgets. budgets ≡ map (budget base) bounds.now) }
{
    answers_of::<BudgetWalk>(alloc, base, bounds)
}

fn answers_of<W: Walk>(alloc: Global, base: Atto, numbers: &[Atto]) -> Result<List<u32>, AllocError>
    ensures { IfOk result (λ answers. answers ≡ map (W.answer_of base) numbers.now) }
{
    let attos = numbers.iter().map(|number| number.get()).collect(alloc)?;
    let known: Known<W> = Known::new(alloc, base, attos)?;
    let answers = numbers
        .iter()
        .map(|number| known.answer(*number))
        .collect(alloc)?;
    Ok(List::from_vec(answers))
}
