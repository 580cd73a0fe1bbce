ghost use Rattle.std.specs.Prelude.{◌≡◌, ◌<◌, length, map, option_map, slice_get, IfOk, Some};
ghost use Rattle.rely_kernel.specs.Labels.{number};
ghost use Rattle.rely_kernel.specs.Machine.{callee, functions, main, numbers_in};
ghost use Rattle.rely_kernel.specs.Valid.{IsValid};
ghost use Rattle.rely_machine.specs.Going.{IsPlace};
ghost use Rattle.rely_machine.specs.Table.{body_table, entries};
ghost use Rattle.rely_kernel.specs.declared.label.Label.TheVariants as label;

use crate::live::{Live, Text, live_statements};
use rely_kernel::{Kernel, Linked, Var};
use rely_num::{List, Op};
use std::alloc::{AllocError, Global};

fn table<'k>(alloc: Global, k: &'k Kernel) -> Result<List<Live<'k>>, AllocError>
    ensures { IfOk result (λ table. entries table ≡ body_table k.now) }
{
    Ok(List::from_vec(live_statements(alloc, k.body.as_slice())?))
}

/// The tables of the bodies of a linked list, in its order.
pub fn tables<'k>(alloc: Global, linked: &'k Linked) -> Result<Vec<List<Live<'k>>>, AllocError>
    ensures { IfOk result (λ tables. map entries tables.items ≡ map body_table (functions linked.now)) }
{
    let mut tables = Vec::new(alloc);
    for k in linked.inner.as_slice() {
        tables.push(table(alloc, k)?)?;
    }
    tables.push(table(alloc, &linked.kernel)?)?;
    Ok(tables)
}

/// A function of a linked list, by its place there: the last is the kernel, and those before it are reached.
#[derive(Clone, Copy, Debug)]
pub struct Function<'k, 't> {
    linked: &'k Linked,
    tables: &'t [List<Live<'k>>],
    at: usize,
    kernel: &'k Kernel,
}

impl<'k, 't> Function<'k, 't> {
    pub fn main(linked: &'k Linked, tables: &'t [List<Live<'k>>]) -> Function<'k, 't>
        ensures linked { result.linked.now ≡ linked.now }
        ensures tables { result.tables.now ≡ tables.now }
        ensures at { result.at ≡ main linked.now }
        ensures kernel { result.kernel.now ≡ linked.now.kernel }
    {
        Function {
            linked,
            tables,
            at: linked.inner.len(),
            kernel: &linked.kernel,
        }
    }

    pub fn at(&self) -> usize
        ensures { result ≡ self.now.at }
    {
        self.at
    }

    pub fn body(&self) -> Text<'k, 't>
        requires { option_map entries (slice_get self.now.tables.now self.now.at) ≡ Some (body_table self.now.kernel.now) }
        ensures statements { result.statements.now ≡ self.now.kernel.now.body }
        ensures live { entries result.live.now ≡ body_table self.now.kernel.now }
    {
        Text {
            statements: self.kernel.body.as_slice(),
            live: self.tables[self.at].as_slice(),
        }
    }

    pub fn operator(&self, site: u32) -> Op
        requires { site < length self.now.kernel.now.sites }
        ensures { option_map (λ s. s.op) (slice_get self.now.kernel.now.sites site) ≡ Some result }
    {
        self.kernel.sites.as_slice()[site as usize].op
    }

    /// The number of the label of a variable's reads.
    pub fn read_label(&self, v: u32) -> usize
        ensures { result ≡ number self.now.kernel.now (label.Read v) }
    {
        self.kernel.sites.as_slice().len() + 2 * v as usize
    }

    /// The number of the label of a variable's writes.
    pub fn write_label(&self, v: u32) -> usize
        ensures { result ≡ number self.now.kernel.now (label.Write v) }
    {
        self.kernel.sites.as_slice().len() + 2 * v as usize + 1
    }

    pub fn vars(&self) -> &[Var]
        ensures { result.now ≡ self.now.kernel.now.vars }
    {
        self.kernel.vars.as_slice()
    }

    /// How many numbers its variables hold.
    pub fn numbers(&self) -> u64
        requires { IsValid self.now.kernel.now }
        ensures { result ≡ numbers_in (Some self.now.kernel.now) }
    {
        let mut numbers = 0;
        for var in self.kernel.vars.as_slice() {
            numbers += u64::from(var.length.unwrap_or(1));
        }
        numbers
    }

    /// The function that a place calls.
    pub fn callee(&self, place: u32) -> Function<'k, 't>
        requires known { slice_get (functions self.now.linked.now) self.now.at ≡ Some self.now.kernel.now }
        requires place { IsPlace self.now place }
        ensures linked { result.linked.now ≡ self.now.linked.now }
        ensures tables { result.tables.now ≡ self.now.tables.now }
        ensures at { callee (functions self.now.linked.now) self.now.at place ≡ Some result.at }
        ensures earlier { result.at < self.now.at }
        ensures kernel { slice_get (functions self.now.linked.now) result.at ≡ Some result.kernel.now }
    {
        let at = self.kernel.calls.as_slice()[place as usize].callee as usize;
        Function {
            linked: self.linked,
            tables: self.tables,
            at,
            kernel: &self.linked.inner.as_slice()[at],
        }
    }
}
