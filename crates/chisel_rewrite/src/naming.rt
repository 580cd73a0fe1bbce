ghost use Rattle.std.specs.Prelude.{◌≡◌, ◌≤◌, ◌++◌, length, filter, map, IfOk};
ghost use Rattle.chisel_rewrite.specs.Namings.{IsListed, is_open, kind_namings, mark_of, memory_namings, namings};

use rely_kernel::{Kernel, Site, Slot, Var};
use rely_num::{Op, Span};
use std::alloc::{AllocError, Global};

/// An open place and the option that is chosen there, by its number.
#[derive(Clone, Copy, Debug, PartialEq, Eq)]
pub enum Naming {
    /// The place of an operator, and one of the operator's kinds.
    Kind(Span, Op, u8),
    /// The place of a variable's memory, and one of the memories.
    Memory(Span, u8),
}

impl Naming {
    /// The `?` that gives way to the name.
    pub fn mark(self) -> Span
        ensures { result ≡ mark_of self }
    {
        match self {
            Naming::Kind(mark, _, _) => mark,
            Naming::Memory(mark, _) => mark,
        }
    }
}

fn is_open(slot: Slot) -> bool
    ensures { result ≡ is_open slot }
{
    matches!(slot, Slot::Free)
}

/// How many sites are open.
fn open_count(sites: &[Site]) -> usize
    ensures { result ≡ length (filter (λ site. is_open site.kind) sites.now) }
{
    sites.iter().filter(|site| is_open(site.kind)).count()
}

fn kind_namings(alloc: Global, sites: &[Site], options: &[u8]) -> Result<Vec<Naming>, AllocError>
    ensures { IfOk result (λ v. v.items ≡ kind_namings sites.now options.now) }
{
    sites
        .iter()
        .filter(|site| is_open(site.kind))
        .zip(options)
        .map(|(site, option)| Naming::Kind(site.mark, site.op, *option))
        .collect(alloc)
}

fn memory_namings(alloc: Global, vars: &[Var], options: &[u8]) -> Result<Vec<Naming>, AllocError>
    ensures { IfOk result (λ v. v.items ≡ memory_namings vars.now options.now) }
{
    vars.iter()
        .filter(|var| is_open(var.memory))
        .zip(options)
        .map(|(var, option)| Naming::Memory(var.mark, *option))
        .collect(alloc)
}

/// The open places in order of the text, each with its option.
pub(crate) fn namings(alloc: Global, k: &Kernel, options: &[u8]) -> Result<Vec<Naming>, AllocError>
    requires { length (filter (λ site. is_open site.kind) k.now.sites) ≤ length options.now }
    ensures { IfOk result (λ v. v.items ≡ namings k.now options.now) }
{
    let sites = k.sites.as_slice();
    let (_, memories) = options.split_at(open_count(sites));
    let mut namings = memory_namings(alloc, k.vars.as_slice(), memories)?;
    let kinds = kind_namings(alloc, sites, options)?;
    namings.extend_from_slice(kinds.as_slice())?;
    Ok(namings)
}
