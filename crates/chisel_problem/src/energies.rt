//! What each option of a function's places costs in energy, over all runs: capped numbers of 64 bits,
//! which few and short runs never reach.
ghost use Rattle.std.specs.Prelude.{◌≡◌, ◌+◌, ◌*◌, IfOk, OnOk, map};
ghost use Rattle.rely_kernel.specs.Machine.{size};
ghost use Rattle.rely_machine.specs.EnergySums.{capped};
ghost use Rattle.chisel_problem.specs.Capped.{Gains, capped_places};
ghost use Rattle.chisel_problem.specs.Energies.{energies, energies_at_sites, energies_at_variables, kind_energies, memory_energies};
ghost use Rattle.chisel_problem.specs.Places.{closed};
ghost use Rattle.chisel_problem.specs.Problem.{inner_energy};
ghost use Rattle.chisel_problem.specs.declared.uses.Whose.TheVariants.{Inner};

use crate::places::{Place, closed};
use crate::uses::{Whose, holds, uses};
use rely_hard::Hardware;
use rely_kernel::{Kernel, Var, kinds_of};
use rely_machine::Outcome;
use rely_num::{List, Op};
use std::alloc::{AllocError, Global};

/// The places of a function, with the energies of all options: its sites, and then its variables.
pub(crate) fn energies(
    alloc: Global,
    h: &Hardware,
    k: &Kernel,
    runs: &[Outcome],
    whose: Whose,
) -> Result<Vec<Place>, AllocError>
    ensures { IfOk result
        (λ places. places.items ≡ capped_places (energies h.now k.now runs.now whose)) }
{
    let mut places = Vec::new(alloc);
    add_sites(&mut places, h, k, runs, whose)?;
    add_variables(&mut places, h, k, runs, whose)?;
    Ok(places)
}

#[tactic(auto, using(crate::proofs::Capped::kind_capped))]
fn add_sites(
    places: &mut Vec<Place>,
    h: &Hardware,
    k: &Kernel,
    runs: &[Outcome],
    whose: Whose,
) -> Result<(), AllocError>
    ensures { OnOk result (Gains places.old.items places.new.items
        (energies_at_sites h.now k.now runs.now whose)) }
{
    let alloc = *places.allocator();
    for (i, site) in k.sites.as_slice().iter().enumerate() {
        let prices = kind_energies(alloc, h, site.op, uses(runs, whose, i))?;
        places.push(Place {
            slot: site.kind,
            prices,
        })?;
    }
    Ok(())
}

// The labels of variables follow those of the sites, the read before the write.
#[tactic(auto, using(crate::proofs::Capped::memory_capped, crate::proofs::Capped::held_capped))]
fn add_variables(
    places: &mut Vec<Place>,
    h: &Hardware,
    k: &Kernel,
    runs: &[Outcome],
    whose: Whose,
) -> Result<(), AllocError>
    ensures { OnOk result (Gains places.old.items places.new.items
        (energies_at_variables h.now k.now runs.now whose)) }
{
    let alloc = *places.allocator();
    let sites = k.sites.as_slice();
    for (v, var) in k.vars.as_slice().iter().enumerate() {
        let label = sites.len() + 2 * v;
        let reads = uses(runs, whose, label);
        let writes = uses(runs, whose, label + 1);
        let held = size(var).saturating_mul(holds(runs, whose));
        let prices = memory_energies(alloc, h, reads, writes, held)?;
        places.push(Place {
            slot: var.memory,
            prices,
        })?;
    }
    Ok(())
}

fn size(var: &Var) -> u64
    ensures { result ≡ size var.now }
{
    match var.length {
        Some(n) => u64::from(n),
        None => 1,
    }
}

#[tactic(auto, using(crate::proofs::Capped::mapped_capped))]
fn kind_energies(alloc: Global, h: &Hardware, op: Op, used: u64) -> Result<List<u64>, AllocError>
    ensures { IfOk result (λ energies. energies ≡ map capped (kind_energies h.now op used)) }
{
    let energies = kinds_of(h, op)
        .iter()
        .map(|kind| used.saturating_mul(u64::from(kind.energy)))
        .collect(alloc)?;
    Ok(List::from_vec(energies))
}

#[tactic(auto, using(crate::proofs::Capped::mapped_capped))]
fn memory_energies(
    alloc: Global,
    h: &Hardware,
    reads: u64,
    writes: u64,
    held: u64,
) -> Result<List<u64>, AllocError>
    ensures { IfOk result
        (λ energies. energies ≡ map capped (memory_energies h.now reads writes held)) }
{
    let mut energies = Vec::new(alloc);
    for memory in h.memories.as_slice() {
        let read = reads.saturating_mul(u64::from(memory.read_energy));
        let write = writes.saturating_mul(u64::from(memory.write_energy));
        let hold = held.saturating_mul(u64::from(memory.hold));
        energies.push(read.saturating_add(write).saturating_add(hold))?;
    }
    Ok(List::from_vec(energies))
}

/// What the reached functions cost, under their own kinds.
#[tactic(auto, using(crate::proofs::Capped::closed_capped))]
pub(crate) fn inner_energy(
    alloc: Global,
    h: &Hardware,
    inner: &[Kernel],
    runs: &[Outcome],
) -> Result<u64, AllocError>
    ensures { IfOk result (λ energy. energy ≡ capped (inner_energy h.now inner.now runs.now)) }
{
    let mut total = 0_u64;
    for (f, k) in inner.iter().enumerate() {
        let places = energies(alloc, h, k, runs, Whose::Inner(f))?;
        total = total.saturating_add(closed_energy(&places));
    }
    Ok(total)
}

/// What the named places cost together, as a number of 64 bits.
pub(crate) fn closed_energy(places: &[Place]) -> u64
    ensures { result ≡ capped (closed places.now) }
{
    let total = closed(places);
    if total > u128::from(u64::MAX) {
        u64::MAX
    } else {
        total as u64
    }
}
