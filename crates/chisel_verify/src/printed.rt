//! What is printed of verdicts.

ghost use Rattle.std.specs.Prelude.{◌≡◌};
ghost use Rattle.std.specs.List.{list_any};
ghost use Rattle.chisel_claims.specs.Verdicts.{is_failing, is_undecided};
ghost use Rattle.chisel_verify.specs.Lines.{grade_on};

use chisel_lines::Grade;
use rely_verdict::Verdict;

/// Lines, and the verdicts that they tell.
#[derive(Drop)]
pub(crate) struct Printed {
    pub(crate) text: Vec<u8>,
    pub(crate) verdicts: Vec<Verdict>,
}

fn any_failing(verdicts: &[Verdict]) -> bool
    ensures { result ≡ list_any is_failing verdicts.now }
{
    verdicts.iter().any(|v| matches!(v, Verdict::Needs { .. } | Verdict::Below { .. }))
}

fn any_undecided(verdicts: &[Verdict]) -> bool
    ensures { result ≡ list_any is_undecided verdicts.now }
{
    verdicts
        .iter()
        .any(|v| matches!(v, Verdict::Undecided { .. }))
}

/// What the verdicts say together.
pub(crate) fn grade_on(verdicts: &[Verdict]) -> Grade
    ensures { result ≡ grade_on verdicts.now }
{
    if any_failing(verdicts) {
        Grade::Failing
    } else if any_undecided(verdicts) {
        Grade::Undecided
    } else {
        Grade::Good
    }
}
