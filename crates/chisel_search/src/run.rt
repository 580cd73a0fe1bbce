//! The search.
ghost use Rattle.std.specs.Prelude.{◌≡◌, ◌+◌, ◌<◌, ◌≤◌, length, IfOk, IsErrOf, OnOk};
ghost use Rattle.chisel_table.specs.Valid.{IsTable};
ghost use Rattle.chisel_bound.specs.declared.bounds.TheConstants.{MAX_VECTORS};
ghost use Rattle.chisel_bound.specs.Kept.{AreDifferences};
ghost use Rattle.chisel_bound.specs.Pool.{BeginsWithZeros, IsPool};
ghost use Rattle.chisel_search.specs.declared.found.SearchFault.TheVariants.{Nodes};
ghost use Rattle.chisel_search.specs.Found.{GoesOn, IsFound};
ghost use Rattle.chisel_search.specs.Rules.{Answered, IsPick, IsRule, Picked};
ghost use Rattle.chisel_search.specs.Machine.{IsEnded, IsSearching, pool_of, table_of};

use crate::certify::certify;
use crate::found::{Found, SearchFault};
use crate::machine::Machine;
use crate::open::Open;
use crate::part::Part;
use crate::rule::{Pick, Rule};
use bumpalo::Bump;
use chisel_bound::{Differences, Pool};
use chisel_table::{Partial, Table};
use std::alloc::{AllocError, Global};

/// Searches for the least choice of a table, with the bounds of a pool.
///
/// The rule says on which decision a part is divided, and the pick which part is taken next. Whatever they are, the
/// choice is the least. It takes at most `nodes` parts: `Nodes` comes exactly where one is open after as many.
pub fn search<'a, F: Fn(&Table, &Partial) -> u32, G: Fn(&[Part]) -> usize>(
    alloc: Global,
    arena: &'a Bump,
    t: &Table,
    pool: &Pool,
    rule: &Rule<F>,
    pick: &Pick<G>,
    nodes: u32,
) -> Result<Found<'a>, SearchFault>
    requires table { IsTable t.now }
    requires pool { IsPool t.now pool.now.vectors }
    requires zeros { BeginsWithZeros pool.now.vectors }
    requires few { length pool.now.vectors ≤ MAX_VECTORS }
    requires rule { IsRule F.pre F.post rule.now }
    requires pick { IsPick G.pre G.post pick.now }
    ensures found { IfOk result
        (IsFound t.now pool.now.vectors (Answered F.post rule.now t.now) (Picked G.post pick.now)) }
    ensures visits { IfOk result (λ f. f.visits ≤ nodes) }
    ensures nodes { IsErrOf result Nodes
        → GoesOn t.now pool.now.vectors (Answered F.post rule.now t.now) (Picked G.post pick.now) nodes }
{
    let differences = Differences::new(alloc, t, pool)?;
    let machine = searched(alloc, &differences, rule, pick, nodes)?;
    Ok(certify(alloc, arena, &differences, machine)?)
}

// Takes parts until none is open.
fn searched<F: Fn(&Table, &Partial) -> u32, G: Fn(&[Part]) -> usize>(
    alloc: Global,
    differences: &Differences,
    rule: &Rule<F>,
    pick: &Pick<G>,
    nodes: u32,
) -> Result<Machine, SearchFault>
    requires differences { AreDifferences differences.now }
    requires some { 0 < length (pool_of differences.now) }
    requires rule { IsRule F.pre F.post rule.now }
    requires pick { IsPick G.pre G.post pick.now }
    ensures ended { IfOk result (IsEnded differences.now
        (Answered F.post rule.now (table_of differences.now)) (Picked G.post pick.now)) }
    ensures visits { IfOk result (λ m. length m.log.items ≤ nodes) }
    ensures nodes { IsErrOf result Nodes → GoesOn (table_of differences.now) (pool_of differences.now)
        (Answered F.post rule.now (table_of differences.now)) (Picked G.post pick.now) nodes }
{
    let mut machine = Machine::start(alloc, differences)?;
    let mut open = Open::start(alloc, differences, &machine.bounds)?;
    while !open.is_empty() {
        if machine.log.len() >= nodes as usize {
            return Err(SearchFault::Nodes);
        }
        step(differences, &mut machine, &mut open, rule, pick)?;
    }
    Ok(machine)
}

// Takes a part, and puts its children in its place.
fn step<F: Fn(&Table, &Partial) -> u32, G: Fn(&[Part]) -> usize>(
    differences: &Differences,
    machine: &mut Machine,
    open_parts: &mut Open,
    rule: &Rule<F>,
    pick: &Pick<G>,
) -> Result<(), AllocError>
    requires rule { IsRule F.pre F.post rule.now }
    requires pick { IsPick G.pre G.post pick.now }
    requires searching { IsSearching differences.now
        (Answered F.post rule.now (table_of differences.now)) (Picked G.post pick.now) machine.old
        open_parts.old.parts.items open_parts.old.numbers.items }
    requires some { 0 < length open_parts.old.parts.items }
    ensures searching { OnOk result (IsSearching differences.now
        (Answered F.post rule.now (table_of differences.now)) (Picked G.post pick.now) machine.new
        open_parts.new.parts.items open_parts.new.numbers.items) }
    ensures visits { OnOk result (length machine.new.log.items ≡ length machine.old.log.items + 1) }
{
    let place = pick.place(&open_parts.parts);
    let partial = open_parts.parts[place].partial;
    let first = machine.made;
    let children = machine.visit(differences, rule, open_parts.numbers[place], &partial)?;
    open_parts.replace(place, &children, first)?;
    Ok(())
}
