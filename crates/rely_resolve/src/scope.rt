use crate::variables::Variables;
use rely_hard::Hardware;
use rely_kernel::{CallSite, Kernel, Site};
use rely_tree::Func;
use std::alloc::Global;

/// What the names of a function may mean.
#[derive(Clone, Copy)]
pub(crate) struct Scope<'s, 'a> {
    pub(crate) h: &'s Hardware,
    /// The functions of the unit that stand before it.
    pub(crate) earlier: &'s [Func<'a>],
    pub(crate) params: &'s Variables<'a>,
    /// Its parameters, then its locals.
    pub(crate) vars: &'s Variables<'a>,
}

/// What the names of a function without a fault mean, and where its kernel's memory comes from.
#[derive(Clone, Copy)]
pub(crate) struct Means<'s, 'a> {
    pub(crate) alloc: Global,
    pub(crate) h: &'s Hardware,
    pub(crate) params: &'s Variables<'a>,
    /// Its parameters, then its locals.
    pub(crate) vars: &'s Variables<'a>,
    /// The reached functions before it, in order of the unit.
    pub(crate) done: &'s [Func<'a>],
    /// Their kernels.
    pub(crate) kernels: &'s [Kernel],
}

/// The sites and call places of a text, so far.
#[derive(Drop)]
pub(crate) struct Made {
    pub(crate) sites: Vec<Site>,
    pub(crate) calls: Vec<CallSite>,
}
