//! The search that takes the first part of the least value, without a walk over the open parts.
ghost use Rattle.std.specs.Prelude.{◌≡◌, ◌+◌, ◌<◌, ◌≤◌, length, Some, IfOk, IsErrOf, OnOk};
ghost use Rattle.chisel_table.specs.Valid.{IsTable};
ghost use Rattle.chisel_bound.specs.declared.bounds.TheConstants.{MAX_VECTORS};
ghost use Rattle.chisel_bound.specs.Kept.{AreDifferences};
ghost use Rattle.chisel_bound.specs.Pool.{BeginsWithZeros, IsPool};
ghost use Rattle.chisel_search.specs.declared.found.SearchFault.TheVariants.{Nodes};
ghost use Rattle.chisel_search.specs.BestFirst.{IsBestFirst};
ghost use Rattle.chisel_search.specs.Found.{GoesOn, IsFound};
ghost use Rattle.chisel_search.specs.Machine.{IsEnded, pool_of, table_of};
ghost use Rattle.chisel_search.specs.Rules.{Answered, IsFirstLeast, IsRule};
ghost use Rattle.chisel_search.specs.Tournament.{winning_number};

use crate::certify::certify;
use crate::found::{Found, SearchFault};
use crate::frontier::Frontier;
use crate::machine::Machine;
use crate::rule::Rule;
use bumpalo::Bump;
use chisel_bound::{Differences, Pool};
use chisel_table::{Partial, Table};
use std::alloc::{AllocError, Global};

/// The same as `search` with a pick that answers the first place of the least value, and the same visits.
///
/// It holds no list for a pick to look at. A visit costs as many steps as there are options in the branches above the part.
pub fn search_best_first<'a, F: Fn(&Table, &Partial) -> u32>(
    alloc: Global,
    arena: &'a Bump,
    t: &Table,
    pool: &Pool,
    rule: &Rule<F>,
    nodes: u32,
) -> Result<Found<'a>, SearchFault>
    requires table { IsTable t.now }
    requires pool { IsPool t.now pool.now.vectors }
    requires zeros { BeginsWithZeros pool.now.vectors }
    requires few { length pool.now.vectors ≤ MAX_VECTORS }
    requires rule { IsRule F.pre F.post rule.now }
    ensures found { IfOk result (IsFound t.now pool.now.vectors (Answered F.post rule.now t.now) IsFirstLeast) }
    ensures visits { IfOk result (λ f. f.visits ≤ nodes) }
    ensures nodes { IsErrOf result Nodes
        → GoesOn t.now pool.now.vectors (Answered F.post rule.now t.now) IsFirstLeast nodes }
{
    let differences = Differences::new(alloc, t, pool)?;
    let machine = searched(alloc, &differences, rule, nodes)?;
    Ok(certify(alloc, arena, &differences, machine)?)
}

// Takes parts until none is open.
fn searched<F: Fn(&Table, &Partial) -> u32>(
    alloc: Global,
    differences: &Differences,
    rule: &Rule<F>,
    nodes: u32,
) -> Result<Machine, SearchFault>
    requires differences { AreDifferences differences.now }
    requires some { 0 < length (pool_of differences.now) }
    requires rule { IsRule F.pre F.post rule.now }
    ensures ended { IfOk result
        (IsEnded differences.now (Answered F.post rule.now (table_of differences.now)) IsFirstLeast) }
    ensures visits { IfOk result (λ m. length m.log.items ≤ nodes) }
    ensures nodes { IsErrOf result Nodes → GoesOn (table_of differences.now) (pool_of differences.now)
        (Answered F.post rule.now (table_of differences.now)) IsFirstLeast nodes }
{
    let mut machine = Machine::start(alloc, differences)?;
    let mut frontier = Frontier::start(alloc, differences, &machine.bounds)?;
    while let Some(number) = frontier.tournament.winner() {
        if machine.log.len() >= nodes as usize {
            return Err(SearchFault::Nodes);
        }
        step(differences, &mut machine, &mut frontier, rule, number)?;
    }
    Ok(machine)
}

// Takes the part that wins, and puts its children in its place.
fn step<F: Fn(&Table, &Partial) -> u32>(
    differences: &Differences,
    machine: &mut Machine,
    frontier: &mut Frontier,
    rule: &Rule<F>,
    number: u32,
) -> Result<(), AllocError>
    requires rule { IsRule F.pre F.post rule.now }
    requires searching { IsBestFirst differences.now
        (Answered F.post rule.now (table_of differences.now)) machine.old frontier.old }
    requires winner { winning_number frontier.old.tournament ≡ Some number }
    ensures searching { OnOk result (IsBestFirst differences.now
        (Answered F.post rule.now (table_of differences.now)) machine.new frontier.new) }
    ensures visits { OnOk result (length machine.new.log.items ≡ length machine.old.log.items + 1) }
{
    let visit = machine.log.len();
    let partial = frontier.partial(differences.table, &machine.log, number);
    let children = machine.visit(differences, rule, number as usize, &partial)?;
    frontier.replace(number, &children, visit)?;
    Ok(())
}
