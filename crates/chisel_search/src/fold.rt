//! The tree of a certificate, folded from the log of a search that is over: a node for each part, the last visit first,
//! so that the nodes of children are there before that of their parent.
ghost use Rattle.std.specs.Prelude.{◌≡◌, ◌+◌, ◌<◌, ◌^◌, length, slice_set, sum, None, IfOk, OnOk};
ghost use Rattle.chisel_table.specs.Tables.{decision_count};
ghost use Rattle.chisel_search.specs.Fold.{HasPlaces, IsOver, IsRoot, children_in};
ghost use Rattle.chisel_search.specs.Logs.{decision_of, fate_of};
ghost use Rattle.chisel_search.specs.Machine.{KeepsAll};
ghost use Rattle.chisel_search.specs.Search.{divided};

use crate::machine::Machine;
use crate::visit::{Fate, Visit};
use bumpalo::Bump;
use chisel_bound::Differences;
use chisel_cert::{Mark, Node};
use chisel_table::{Close, CloseRule, Table, option_count};
use std::alloc::{AllocError, Global};

/// The nodes of parts by their numbers, and how many nodes their trees have.
#[derive(Drop)]
pub(crate) struct Built<'a> {
    pub(crate) nodes: Vec<Node<'a>>,
    pub(crate) sizes: Vec<u32>,
}

impl<'a> Built<'a> {
    ghost use Rattle.chisel_table.specs.Tables.{decision_count};
    ghost use Rattle.chisel_search.specs.Fold.{IsPut};

    fn start(alloc: Global, made: usize) -> Result<Built<'a>, AllocError>
        ensures nodes { IfOk result (λ built. length built.nodes.items ≡ made) }
        ensures sizes { IfOk result (λ built. length built.sizes.items ≡ made) }
    {
        let rule = CloseRule::C;
        let none = Node::Leaf(Mark::Pool(Close { rule, index: 0 }));
        let nodes = vec![in alloc; none; made]?;
        let sizes = vec![in alloc; 0; made]?;
        Ok(Built { nodes, sizes })
    }

    fn set(&mut self, number: usize, node: Node<'a>, size: u32)
        requires node { number < length self.old.nodes.items }
        requires size { number < length self.old.sizes.items }
        ensures nodes { self.new.nodes.items ≡ slice_set self.old.nodes.items number node.entry }
        ensures sizes { self.new.sizes.items ≡ slice_set self.old.sizes.items number size }
    {
        self.nodes[number] = node;
        self.sizes[number] = size;
    }

    // Writes the node of the part of a visit, after those of its children.
    fn put(
        &mut self,
        arena: &'a Bump,
        t: &Table,
        visit: &Visit,
        close: Option<Close>,
    ) -> Result<(), AllocError>
        requires nodes { HasPlaces t.now visit.now (length self.old.nodes.items) }
        requires sizes { HasPlaces t.now visit.now (length self.old.sizes.items) }
        requires divided { close ≡ None → fate_of visit.now.fate ≡ divided }
        requires decision { fate_of visit.now.fate ≡ divided → decision_of visit.now.fate < decision_count t.now }
        requires few { sum (children_in t.now visit.now self.old.sizes.items) + 1 < 2 ^ 32 }
        ensures { OnOk result (IsPut t.now visit.now close
            self.old.nodes.items self.old.sizes.items self.new.nodes.items self.new.sizes.items) }
    {
        if let Some(close) = close {
            self.set(visit.number, Node::Leaf(Mark::Pool(close)), 1);
            return Ok(());
        }
        let Fate::Divided(decision) = visit.fate else {
            // what was closed, or was the best choice, closes with the last best choice
            unreachable!()
        };
        let first = visit.first;
        let last = first + option_count(t, decision as usize);
        let children = arena.try_alloc_slice_copy(&self.nodes[first..last])?;
        let size = total(&self.sizes[first..last]) + 1;
        self.set(visit.number, Node::Branch { decision, children }, size);
        Ok(())
    }
}

// How many nodes some trees have, by the sizes of each.
fn total(sizes: &[u32]) -> u32
    requires { sum sizes.now < 2 ^ 32 }
    ensures { result ≡ sum sizes.now }
{
    let mut total = 0;
    for size in sizes {
        total += *size;
    }
    total
}

/// The nodes of all parts.
pub(crate) fn fold_log<'a>(
    alloc: Global,
    arena: &'a Bump,
    differences: &Differences,
    machine: &mut Machine,
) -> Result<Built<'a>, AllocError>
    requires { IsOver differences.now machine.old }
    ensures root { IfOk result (λ built. IsRoot differences.now machine.old built.nodes.items built.sizes.items) }
    ensures keeps { OnOk result (KeepsAll machine.old machine.new) }
{
    let mut built = Built::start(alloc, machine.made)?;
    let mut left = machine.log.len();
    while left > 0 {
        left -= 1;
        let visit = machine.log[left];
        let close = machine.close(differences, visit.number, &visit.partial);
        built.put(arena, differences.table, &visit, close)?;
    }
    Ok(built)
}
