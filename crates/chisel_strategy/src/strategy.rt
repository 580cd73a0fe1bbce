//! The search for the least choice by a strategy.
ghost use Rattle.std.specs.Prelude.{◌≡◌, ◌≤◌, length, slice_index, IfOk, IsErrOf};
ghost use Rattle.chisel_table.specs.Valid.{IsTable};
ghost use Rattle.chisel_bound.specs.Pool.{BeginsWithZeros, IsPool};
ghost use Rattle.chisel_bound.specs.declared.bounds.TheConstants.{MAX_VECTORS};
ghost use Rattle.chisel_search.specs.Rules.{CanBranch, IsUnfixed};
ghost use Rattle.chisel_search.specs.declared.found.SearchFault.TheVariants.{Nodes};
ghost use Rattle.chisel_strategy.specs.Branching.{largest};
ghost use Rattle.chisel_strategy.specs.Strategy.{IsLeastFound, TakesMore};

use crate::branching::{largest, sizes};
use crate::picking::deep;
use bumpalo::Bump;
use chisel_bound::Pool;
use chisel_options::{Order, Strategy};
use chisel_search::{Found, Pick, Rule, SearchFault, search, search_best_first};
use chisel_table::{Partial, Table};
use std::alloc::Global;

/// Searches for the least choice of a table by a strategy, with the bounds of a pool.
///
/// Neither the choice nor the certificate depends on the order. `Nodes` comes exactly where a part is open after as many as
/// there may be.
pub fn find_least<'a>(
    alloc: Global,
    arena: &'a Bump,
    t: &Table,
    pool: &Pool,
    strategy: Strategy,
) -> Result<Found<'a>, SearchFault>
    requires table { IsTable t.now }
    requires pool { IsPool t.now pool.now.vectors }
    requires zeros { BeginsWithZeros pool.now.vectors }
    requires few { length pool.now.vectors ≤ MAX_VECTORS }
    ensures found { IfOk result (IsLeastFound t.now pool.now.vectors strategy) }
    ensures visits { IfOk result (λ f. f.visits ≤ strategy.nodes) }
    ensures nodes { IsErrOf result Nodes → TakesMore t.now pool.now.vectors strategy }
{
    let sizes = sizes(alloc, t, strategy.branch)?;
    let decide = |t: &Table, p: &Partial| -> u32
        requires { CanBranch t.now p.now }
        ensures unfixed { IsUnfixed t.now p.now result }
        ensures largest { result ≡ largest t.now (slice_index sizes.items) p.now }
    { largest(&sizes, t, p) };
    let rule = Rule::new(decide);
    match strategy.order {
        Order::Deep => search(
            alloc,
            arena,
            t,
            pool,
            &rule,
            &Pick::new(deep),
            strategy.nodes,
        ),
        Order::Best => search_best_first(alloc, arena, t, pool, &rule, strategy.nodes),
    }
}
