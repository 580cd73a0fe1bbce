//! The closures that give a search its order.
ghost use Rattle.std.specs.Prelude.{◌≡◌, ◌<◌, length};
ghost use Rattle.chisel_search.specs.Rules.{CanBranch, IsPick, IsRule, IsUnfixed, Answered, Picked};

use crate::part::Part;
use chisel_table::{Partial, Table};
use std::marker::Model;

/// A closure that answers an unfixed decision, on which a part is divided.
#[derive(Drop)]
pub struct Rule<F: Fn(&Table, &Partial) -> u32> {
    f: F,
}

impl<F: Fn(&Table, &Partial) -> u32> Model for Rule<F> {
    ghost Value = { F };

    ghost view = { λ r. r.f };
}

impl<F: Fn(&Table, &Partial) -> u32> Rule<F> {
    /// On every valid table and every partial choice with an unfixed decision, the closure answers such a decision.
    pub fn new(f: F) -> Rule<F>
        requires { IsRule F.pre F.post f }
        ensures { result ≡ f }
    {
        Rule { f }
    }

    // The decision on which a partial choice is divided.
    pub(crate) fn decision(&self, t: &Table, p: &Partial) -> u32
        requires rule { IsRule F.pre F.post self.now }
        requires branch { CanBranch t.now p.now }
        ensures unfixed { IsUnfixed t.now p.now result }
        ensures answered { Answered F.post self.now t.now p.now result }
    {
        (self.f)(t, p)
    }
}

/// A closure that answers the place of the part that is taken next.
#[derive(Drop)]
pub struct Pick<G: Fn(&[Part]) -> usize> {
    g: G,
}

impl<G: Fn(&[Part]) -> usize> Model for Pick<G> {
    ghost Value = { G };

    ghost view = { λ p. p.g };
}

impl<G: Fn(&[Part]) -> usize> Pick<G> {
    /// On every list that isn't empty, the closure answers a place of it.
    pub fn new(g: G) -> Pick<G>
        requires { IsPick G.pre G.post g }
        ensures { result ≡ g }
    {
        Pick { g }
    }

    // The place of the next part.
    pub(crate) fn place(&self, parts: &[Part]) -> usize
        requires pick { IsPick G.pre G.post self.now }
        requires some { 0 < length parts.now }
        ensures inside { result < length parts.now }
        ensures picked { Picked G.post self.now parts.now result }
    {
        (self.g)(parts)
    }
}
