//! The search, and what is printed of it.

ghost use Rattle.std.specs.Prelude.{◌≡◌, IfOk, IfErr};
ghost use Rattle.chisel_cert.specs.Node.{certificate_of};
ghost use Rattle.chisel_search.specs.Found.{options_in};
ghost use Rattle.chisel_table.specs.Valid.{IsTable};
ghost use Rattle.chisel_optimise.specs.Answers.{PrintsLeast, TakesTooMany, TellsMeasures, grade_of_best};
ghost use Rattle.chisel_optimise.specs.Halts.{HaltsBy};
ghost use Rattle.chisel_optimise.specs.Searches.{Finds, measured, printed};

use crate::halt::Halt;
use crate::lines::{Measures, measure_lines};
use bumpalo::Bump;
use chisel_bound::ascent;
use chisel_cert::write;
use chisel_lines::{Answer, Grade, Limit, Refusal};
use chisel_options::{Branch, Order, Strategy};
use chisel_search::{Found, SearchFault};
use chisel_strategy::find_least;
use chisel_table::{Choice, Table, decision_count, row_count};
use rely_num::List;
use std::alloc::Global;

/// The search that a made problem is measured by.
const MEASURED: Strategy = Strategy {
    branch: Branch::First,
    order: Order::Deep,
    nodes: 100_000,
};

/// What the search finds, unless it takes too many parts.
#[tactic(auto, using(crate::proofs::Finding::finds_from, crate::proofs::Finding::printed_from, crate::proofs::Finding::five_vectors))]
fn found<'a>(
    alloc: Global,
    arena: &'a Bump,
    t: &Table,
    strategy: Strategy,
) -> Result<Found<'a>, Halt>
    requires { IsTable t.now }
    ensures finds { IfOk result (λ f. Finds t.now strategy f.visits (options_in f.best)) }
    ensures printed { IfOk result (λ f. certificate_of f.cert ≡ printed t.now strategy (options_in f.best)) }
    ensures err { IfErr result (HaltsBy (TakesTooMany t.now strategy)) }
{
    let pool = ascent(alloc, t)?;
    match find_least(alloc, arena, t, &pool, strategy) {
        Ok(found) => Ok(found),
        Err(SearchFault::Nodes) => {
            Err(Halt::refused(Refusal::Limit(Limit::Nodes, strategy.nodes)))
        }
        Err(SearchFault::Memory) => Err(Halt::Memory),
    }
}

/// Whether there is a choice.
fn grade_of(best: &Option<Choice>) -> Grade
    ensures { result ≡ grade_of_best (options_in best.now) }
{
    match best {
        Some(_) => Grade::Good,
        None => Grade::Failing,
    }
}

/// The certificate of the least choice, or of there being none.
pub(crate) fn optimise(alloc: Global, t: &Table, strategy: Strategy) -> Result<Answer, Halt>
    requires { IsTable t.now }
    ensures ok { IfOk result (PrintsLeast t.now strategy) }
    ensures err { IfErr result (HaltsBy (TakesTooMany t.now strategy)) }
{
    let arena = Bump::new(alloc);
    let found = match found(alloc, &arena, t, strategy) {
        Ok(found) => found,
        Err(halt) => return Err(halt),
    };
    let text = write(alloc, &found.cert)?;
    let grade = grade_of(&found.best);
    Ok(Answer::Text(List::from_vec(text), grade))
}

/// What the search of a made problem comes to, whose source has that length.
pub(crate) fn measure(alloc: Global, source: usize, t: &Table) -> Result<Answer, Halt>
    requires { IsTable t.now }
    ensures ok { IfOk result (TellsMeasures source t.now) }
    ensures err { IfErr result (HaltsBy (TakesTooMany t.now measured)) }
{
    let arena = Bump::new(alloc);
    let found = match found(alloc, &arena, t, MEASURED) {
        Ok(found) => found,
        Err(halt) => return Err(halt),
    };
    let measures = Measures {
        source,
        decisions: decision_count(t),
        rows: row_count(t),
        energy: found.cert.energy,
        visits: found.visits,
        nodes: found.cert.nodes,
    };
    let text = measure_lines(alloc, &measures)?;
    let grade = grade_of(&found.best);
    Ok(Answer::Text(List::from_vec(text), grade))
}
