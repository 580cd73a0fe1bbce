ghost use Rattle.std.specs.Prelude.{◌≡◌, ◌<◌, ◌≤◌, List, [], get_or, length, slice_get, slice_index, sum_by};
ghost use Rattle.std.specs.List.{AllZip};
ghost use Rattle.std.specs.Option.{option_map_or};
ghost use Rattle.rely_hard.specs.Valid.{IsHardware};
ghost use Rattle.rely_kernel.specs.declared.setting.Store.{Store};
ghost use Rattle.rely_kernel.specs.Machine.{size};
ghost use Rattle.rely_kernel.specs.Rates.{named, own};
ghost use Rattle.rely_kernel.specs.Valid.{IsLinked};
ghost use Rattle.rely_machine.specs.Cost.{IsCost, held, hold, kind_energy};
ghost use Rattle.rely_machine.specs.EnergySums.{capped, of_callee, of_run, of_runs, of_sites, of_vars, read_energy, sum_from, used, write_energy};
ghost use Rattle.rely_machine.specs.Run.{IsOutcome, most_runs, steps_limit};

use crate::outcome::Outcome;
use rely_hard::{Hardware, KindSpec};
use rely_kernel::{Kernel, Linked, Site, Slot, Var, kinds_of};

/// The energy of reliable runs by their outcomes, under the kinds that the functions name: an open place has the first.
pub fn energy(k: &Linked, h: &Hardware, runs: &[Outcome]) -> u64
    requires linked { IsLinked k.now }
    requires hardware { IsHardware h.now }
    requires few { sum_by (λ o. o.steps) runs.now < steps_limit }
    requires short { length runs.now ≤ most_runs }
    ensures cost { (starts : List Store) → AllZip (IsOutcome k.now) starts runs.now
        → IsCost h.now k.now (own k.now.kernel) starts result }
{
    energy_of_runs(k, h, runs)
}

fn energy_of_runs(k: &Linked, h: &Hardware, runs: &[Outcome]) -> u64
    ensures { result ≡ capped (of_runs h.now k.now (own k.now.kernel) runs.now) }
{
    let mut total = 0_u64;
    for run in runs {
        total = total.saturating_add(energy_of_run(k, h, run));
    }
    total
}

fn energy_of_run(k: &Linked, h: &Hardware, run: &Outcome) -> u64
    ensures { result ≡ capped (of_run h.now k.now (own k.now.kernel) run.now) }
{
    let held = held(h, &k.kernel);
    let own = held.saturating_add(used(&k.kernel, h, run.uses.as_slice()));
    own.saturating_add(of_callees(k.inner.as_slice(), h, run))
}

// What the functions that are reached use, and what holding their variables costs at each entry.
fn of_callees(inner: &[Kernel], h: &Hardware, run: &Outcome) -> u64
    ensures { result ≡ capped (sum_from (of_callee h.now run.now) 0 inner.now) }
{
    let mut total = 0_u64;
    for (f, k) in inner.iter().enumerate() {
        total = total.saturating_add(of_callee(k, h, run, f));
    }
    total
}

fn of_callee(k: &Kernel, h: &Hardware, run: &Outcome, f: usize) -> u64
    ensures { result ≡ capped (of_callee h.now run.now f k.now) }
{
    let uses = used(k, h, uses_of(run.inner.as_slice(), f));
    let held = number_at(run.entries.as_slice(), f).saturating_mul(held(h, k));
    uses.saturating_add(held)
}

// What a function uses: how often each of its labels was taken, times the label's energy.
fn used(k: &Kernel, h: &Hardware, uses: &[u64]) -> u64
    ensures { result ≡ capped (used h.now k.now (own k.now) (slice_index uses.now)) }
{
    of_sites(h, k, uses).saturating_add(of_vars(h, k, uses))
}

fn of_sites(h: &Hardware, k: &Kernel, uses: &[u64]) -> u64
    ensures { result ≡ capped (of_sites h.now k.now (own k.now) (slice_index uses.now)) }
{
    let sites = k.sites.as_slice();
    let mut total = 0_u64;
    for (i, site) in sites.iter().enumerate() {
        total = total.saturating_add(number_at(uses, i).saturating_mul(site_energy(h, site)));
    }
    total
}

// The labels of variables follow those of the sites, the read before the write.
fn of_vars(h: &Hardware, k: &Kernel, uses: &[u64]) -> u64
    ensures { result ≡ capped (of_vars h.now k.now (own k.now) (slice_index uses.now)) }
{
    let sites = k.sites.as_slice();
    let vars = k.vars.as_slice();
    let mut total = 0_u64;
    for (v, var) in vars.iter().enumerate() {
        let label = sites.len() + 2 * v;
        let read = number_at(uses, label).saturating_mul(read_energy(h, var));
        let write = number_at(uses, label + 1).saturating_mul(write_energy(h, var));
        total = total.saturating_add(read.saturating_add(write));
    }
    total
}

// What it costs to hold the variables.
fn held(h: &Hardware, k: &Kernel) -> u64
    ensures { result ≡ capped (hold h.now k.now (own k.now)) }
{
    let vars = k.vars.as_slice();
    let mut total = 0_u64;
    for var in vars {
        total = total.saturating_add(size(var).saturating_mul(hold(h, var)));
    }
    total
}

fn size(var: &Var) -> u64
    ensures { result ≡ size var.now }
{
    match var.length {
        Some(n) => u64::from(n),
        None => 1,
    }
}

// ---- energies, and 0 where the hardware hasn't the number

fn site_energy(h: &Hardware, site: &Site) -> u64
    ensures { result ≡ kind_energy h.now (named site.now.kind) site.now }
{
    kind_energy(kinds_of(h, site.op), number(site.kind))
}

fn kind_energy(kinds: &[KindSpec], kind: usize) -> u64
    ensures { result ≡ option_map_or (λ s. s.energy) (slice_get kinds.now kind) 0 }
{
    match kinds.get(kind) {
        Some(spec) => u64::from(spec.energy),
        None => 0,
    }
}

fn read_energy(h: &Hardware, var: &Var) -> u64
    ensures { result ≡ read_energy h.now (named var.now.memory) }
{
    match h.memories.as_slice().get(number(var.memory)) {
        Some(memory) => u64::from(memory.read_energy),
        None => 0,
    }
}

fn write_energy(h: &Hardware, var: &Var) -> u64
    ensures { result ≡ write_energy h.now (named var.now.memory) }
{
    match h.memories.as_slice().get(number(var.memory)) {
        Some(memory) => u64::from(memory.write_energy),
        None => 0,
    }
}

fn hold(h: &Hardware, var: &Var) -> u64
    ensures { result ≡ held h.now (named var.now.memory) }
{
    match h.memories.as_slice().get(number(var.memory)) {
        Some(memory) => u64::from(memory.hold),
        None => 0,
    }
}

fn number(slot: Slot) -> usize
    ensures { result ≡ named slot }
{
    match slot {
        Slot::Named(number) => usize::from(number),
        Slot::Free => 0,
    }
}

// ---- places of lists, and nothing past their ends

fn number_at(numbers: &[u64], i: usize) -> u64
    ensures { result ≡ slice_index numbers.now i }
{
    match numbers.get(i) {
        Some(n) => *n,
        None => 0,
    }
}

fn uses_of(all: &[rely_num::List<u64>], f: usize) -> &[u64]
    ensures { result.now ≡ get_or all.now f [] }
{
    match all.get(f) {
        Some(uses) => uses.as_slice(),
        None => &[],
    }
}
