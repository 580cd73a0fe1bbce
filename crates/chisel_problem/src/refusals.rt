ghost use Rattle.std.specs.Prelude.{◌≡◌, ◌≢◌, ◌↔◌, filter, length, Err};
ghost use Rattle.rely_kernel.specs.Choice.{decisions};
ghost use Rattle.rely_kernel.specs.Valid.{IsValid};
ghost use Rattle.chisel_problem.specs.Refusals.{HasManyDecisions, HasManyOptions, NothingIsOpen, has_wide_decision, has_wide_site, has_wide_variable, is_open};
ghost use Rattle.chisel_problem.specs.declared.fault.ProblemFault.TheVariants.{NoOpen, Decisions, Options, Memory};

use crate::fault::ProblemFault;
use chisel_table::{MAX_DECISIONS, MAX_OPTIONS};
use rely_hard::Hardware;
use rely_kernel::{Kernel, Site, Slot, Var, kinds_of};

/// Refuses a kernel with nothing to decide, and then one with too many decisions, or with too many
/// options of one.
pub(crate) fn check(k: &Kernel, h: &Hardware) -> Result<(), ProblemFault>
    requires { IsValid k.now }
    ensures no_open { (result ≡ Err NoOpen) ↔ NothingIsOpen k.now }
    ensures decisions { (result ≡ Err Decisions) ↔ HasManyDecisions k.now }
    ensures options { (result ≡ Err Options) ↔ HasManyOptions h.now k.now }
    ensures memory { result ≢ Err Memory }
{
    let open = decision_count(k);
    if open == 0 {
        return Err(ProblemFault::NoOpen);
    }
    if open > MAX_DECISIONS {
        return Err(ProblemFault::Decisions);
    }
    if has_many_options(k, h) {
        return Err(ProblemFault::Options);
    }
    Ok(())
}

fn decision_count(k: &Kernel) -> usize
    requires { IsValid k.now }
    ensures { result ≡ length (decisions k.now) }
{
    count_sites(k.sites.as_slice()) + count_variables(k.vars.as_slice())
}

fn count_sites(sites: &[Site]) -> usize
    ensures { result ≡ length (filter (λ s. is_open s.kind) sites.now) }
{
    sites.iter().filter(|site| is_open(site.kind)).count()
}

fn count_variables(vars: &[Var]) -> usize
    ensures { result ≡ length (filter (λ v. is_open v.memory) vars.now) }
{
    vars.iter().filter(|var| is_open(var.memory)).count()
}

fn is_open(slot: Slot) -> bool
    ensures { result ≡ is_open slot }
{
    match slot {
        Slot::Named(_) => false,
        Slot::Free => true,
    }
}

// Whether some open place has more options than a decision may have.
fn has_many_options(k: &Kernel, h: &Hardware) -> bool
    ensures { result ≡ has_wide_decision h.now k.now }
{
    has_wide_site(k, h) || has_wide_variable(k, h)
}

fn has_wide_site(k: &Kernel, h: &Hardware) -> bool
    ensures { result ≡ has_wide_site h.now k.now }
{
    k.sites.as_slice().iter().any(|site| is_open(site.kind)
        && kinds_of(h, site.op).len() > MAX_OPTIONS)
}

fn has_wide_variable(k: &Kernel, h: &Hardware) -> bool
    ensures { result ≡ has_wide_variable h.now k.now }
{
    let many = h.memories.as_slice().len() > MAX_OPTIONS;
    k.vars
        .as_slice()
        .iter()
        .any(|var| is_open(var.memory) && many)
}
