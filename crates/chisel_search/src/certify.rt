//! The certificate of a search that is over.
ghost use Rattle.std.specs.Prelude.{◌≡◌, ◌<◌, option_copied, IfOk};
ghost use Rattle.chisel_table.specs.Least.{IsLeast};
ghost use Rattle.chisel_table.specs.Tables.{row_count};
ghost use Rattle.chisel_table.specs.Valid.{IsTable};
ghost use Rattle.chisel_bound.specs.Kept.{IsBestWithEnergy, best_options};
ghost use Rattle.chisel_cert.specs.Node.{certificate_of, tree_of, vectors_of};
ghost use Rattle.chisel_cert.specs.Tree.{nodes};
ghost use Rattle.chisel_cert.specs.Valid.{energy_of, restated_row};
ghost use Rattle.chisel_search.specs.Fold.{IsCertified, IsOver};
ghost use Rattle.chisel_search.specs.Found.{options_in};
ghost use Rattle.chisel_search.specs.Machine.{held_options, pool_of, table_of};
ghost use Rattle.chisel_search.specs.Printed.{certified, restated_rows};

use crate::fold::fold_log;
use crate::found::Found;
use crate::machine::Machine;
use bumpalo::Bump;
use bumpalo::collections::into_bump_slice;
use chisel_bound::{Best, Differences, Pool};
use chisel_cert::{Cert, Node, Restated};
use chisel_table::{Choice, Table, budget_at, decision_count, options_spent, row_count};
use std::alloc::{AllocError, Global};

/// What a search has found that is over.
pub(crate) fn certify<'a>(
    alloc: Global,
    arena: &'a Bump,
    differences: &Differences,
    mut machine: Machine,
) -> Result<Found<'a>, AllocError>
    requires { IsOver differences.now machine }
    ensures { IfOk result (IsCertified differences.now machine) }
{
    let built = fold_log(alloc, arena, differences, &mut machine)?;
    let best = machine.best.as_ref();
    let cert = certificate(arena, differences, best, built.nodes[0], built.sizes[0])?;
    let visits = machine.log.len() as u32;
    let best = choice_of(machine.best);
    Ok(Found { best, visits, cert })
}

fn choice_of(best: Option<Best>) -> Option<Choice>
    ensures { options_in result ≡ held_options best }
{
    match best {
        Some(best) => Some(Choice {
            options: best.options,
        }),
        None => None,
    }
}

// The certificate of a best choice with a tree of so many nodes.
fn certificate<'a>(
    arena: &'a Bump,
    differences: &Differences,
    best: Option<&Best>,
    root: Node<'a>,
    size: u32,
) -> Result<Cert<'a>, AllocError>
    requires table { IsTable (table_of differences.now) }
    requires best { IsBestWithEnergy (table_of differences.now) best }
    requires least { IsLeast (table_of differences.now) (best_options best) }
    requires size { size ≡ nodes (tree_of root) }
    ensures { IfOk result (λ cert. certificate_of cert
        ≡ certified (table_of differences.now) (pool_of differences.now) (best_options best.entry) (tree_of root.entry)) }
{
    let t = differences.table;
    Ok(Cert {
        version: 2,
        decisions: decision_count(t) as u32,
        rows: row_count(t) as u32,
        choice: options_copied(arena, best)?,
        energy: energy_of(t, best),
        restated: restated_rows(arena, t, best)?,
        pool: vectors_copied(arena, differences.pool)?,
        nodes: size,
        root,
    })
}

fn options_copied<'a>(arena: &'a Bump, best: Option<&Best>) -> Result<Option<&'a [u8]>, AllocError>
    ensures { IfOk result (λ options. option_copied options ≡ best_options best.entry) }
{
    match best {
        Some(best) => {
            let options = arena.try_alloc_slice_copy(best.options.as_slice())?;
            Ok(Some(options))
        }
        None => Ok(None),
    }
}

fn energy_of(t: &Table, best: Option<&Best>) -> Option<u64>
    requires { IsBestWithEnergy t.now best }
    ensures { result ≡ energy_of t.now (best_options best.entry) }
{
    match best {
        Some(best) => Some(best.energy),
        None => None,
    }
}

// A row told again: its budget, and what the best choice spends of it.
fn restated(t: &Table, row: usize, best: Option<&Best>) -> Restated
    requires table { IsTable t.now }
    requires row { row < row_count t.now }
    requires least { IsLeast t.now (best_options best) }
    ensures { result ≡ restated_row t.now (best_options best.entry) row }
{
    let budget = budget_at(t, row);
    let spent = match best {
        Some(best) => Some(options_spent(t, row, best.options.as_slice()) as u32),
        None => None,
    };
    Restated { budget, spent }
}

fn restated_rows<'a>(
    arena: &'a Bump,
    t: &Table,
    best: Option<&Best>,
) -> Result<&'a [Restated], AllocError>
    requires table { IsTable t.now }
    requires least { IsLeast t.now (best_options best) }
    ensures { IfOk result (λ rows. rows.now ≡ restated_rows t.now (best_options best.entry)) }
{
    let mut rows = Vec::new(arena);
    for i in 0..row_count(t) {
        rows.push(restated(t, i, best))?;
    }
    Ok(into_bump_slice(rows))
}

fn vectors_copied<'a>(arena: &'a Bump, pool: &Pool) -> Result<&'a [&'a [u64]], AllocError>
    ensures { IfOk result (λ vectors. vectors_of vectors.now ≡ pool.now.vectors) }
{
    let mut vectors: Vec<&'a [u64], &'a Bump> = Vec::new(arena);
    for vector in pool.vectors.as_slice() {
        let copied = arena.try_alloc_slice_copy(vector.as_slice())?;
        vectors.push(copied)?;
    }
    Ok(into_bump_slice(vectors))
}
