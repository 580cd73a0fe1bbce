ghost use Rattle.std.specs.Prelude.{◌≡◌, slice_index};
ghost use Rattle.rely_machine.specs.EnergySums.{capped};
ghost use Rattle.chisel_problem.specs.Uses.{holds, holds_of, uses, uses_of};

use rely_machine::Outcome;

/// Whose labels are meant.
#[derive(Clone, Copy)]
pub(crate) enum Whose {
    /// The function that runs.
    Main,
    /// A function that it reaches, by its number.
    Inner(usize),
}

/// How often all runs use a label together.
pub(crate) fn uses(runs: &[Outcome], whose: Whose, label: usize) -> u64
    ensures { result ≡ capped (uses runs.now whose label) }
{
    let mut total = 0_u64;
    for run in runs {
        total = total.saturating_add(number_at(uses_of(run, whose), label));
    }
    total
}

/// How often all runs hold the variables together.
pub(crate) fn holds(runs: &[Outcome], whose: Whose) -> u64
    ensures { result ≡ capped (holds runs.now whose) }
{
    let mut total = 0_u64;
    for run in runs {
        total = total.saturating_add(holds_of(run, whose));
    }
    total
}

fn uses_of(run: &Outcome, whose: Whose) -> &[u64]
    ensures { result.now ≡ uses_of whose run.now }
{
    match whose {
        Whose::Main => run.uses.as_slice(),
        Whose::Inner(f) => match run.inner.as_slice().get(f) {
            Some(uses) => uses.as_slice(),
            None => &[],
        },
    }
}

fn holds_of(run: &Outcome, whose: Whose) -> u64
    ensures { result ≡ holds_of whose run.now }
{
    match whose {
        Whose::Main => 1,
        Whose::Inner(f) => number_at(run.entries.as_slice(), f),
    }
}

/// The number at a place of a list, and 0 past its end.
pub(crate) fn number_at(numbers: &[u64], i: usize) -> u64
    ensures { result ≡ slice_index numbers.now i }
{
    match numbers.get(i) {
        Some(n) => *n,
        None => 0,
    }
}
