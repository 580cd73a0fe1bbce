//! What a search keeps beside its open parts, and what it does with a part that it takes.
ghost use Rattle.std.specs.Prelude.{◌≡◌, ◌+◌, ◌*◌, ◌<◌, ◌≤◌, ◌++◌, ◌==◌, length, IfOk, OnOk};
ghost use Rattle.chisel_table.specs.Partials.{IsPartial, nothing_fixed};
ghost use Rattle.chisel_table.specs.Valid.{IsTable};
ghost use Rattle.chisel_table.specs.Choices.{energy};
ghost use Rattle.chisel_bound.specs.Kept.{AreDifferences, IsKept, first_rule};
ghost use Rattle.chisel_search.specs.Logs.{children_by, decision_of, fate_of};
ghost use Rattle.chisel_search.specs.Machine.{bounds_to, pool_of, table_of};
ghost use Rattle.chisel_search.specs.Rules.{Answered, IsRule, IsUnfixed};
ghost use Rattle.chisel_search.specs.Search.{children, choice_of, divided, fate, parts_of, unfixed};

use crate::part::Part;
use crate::rule::Rule;
use crate::visit::{Fate, Visit};
use chisel_bound::{Best, Bounds, Differences, Kept, RowSums, greatest_value};
use chisel_table::{Close, Partial, Table, UNFIXED, decision_count, option_count, options_energy};
use rely_num::List;
use std::alloc::{AllocError, Global};

#[derive(Drop)]
pub(crate) struct Machine {
    /// How many parts there ever were; their numbers are below.
    pub(crate) made: usize,
    /// The bounds of all these parts, in order of their numbers.
    pub(crate) bounds: Vec<Bounds>,
    pub(crate) rows: RowSums,
    pub(crate) best: Option<Best>,
    pub(crate) log: Vec<Visit>,
}

impl Machine {
    ghost use Rattle.chisel_search.specs.Machine.{IsAnswered, IsBegun, IsKnown, IsMachine, IsVisited, KeepsAll, KeepsLog, best_after, held_options};

    /// One part, in which nothing is fixed.
    pub(crate) fn start(alloc: Global, differences: &Differences) -> Result<Machine, AllocError>
        requires differences { AreDifferences differences.now }
        requires some { 0 < length (pool_of differences.now) }
        ensures machine { IfOk result (IsMachine differences.now) }
        ensures begun { IfOk result (IsBegun differences.now) }
        ensures known { IfOk result
            (λ m. IsKnown differences.now m.bounds.items (nothing_fixed (table_of differences.now)) 0) }
    {
        let mut bounds = Vec::new(alloc);
        differences.start(&mut bounds)?;
        Ok(Machine {
            made: 1,
            bounds,
            rows: RowSums::start(alloc, differences.table)?,
            best: None,
            log: Vec::new(alloc),
        })
    }

    /// Takes a part, and gives its children.
    pub(crate) fn visit<F: Fn(&Table, &Partial) -> u32>(
        &mut self,
        differences: &Differences,
        rule: &Rule<F>,
        number: usize,
        partial: &Partial,
    ) -> Result<Vec<Part>, AllocError>
        requires rule { IsRule F.pre F.post rule.now }
        requires machine { IsMachine differences.now self.old }
        requires known { IsKnown differences.now self.old.bounds.items partial.now number }
        ensures machine { OnOk result (IsMachine differences.now self.new) }
        ensures visited { IfOk result (λ children. IsVisited differences.now
            (Answered F.post rule.now (table_of differences.now)) self.old partial.now number self.new children.items) }
    {
        let first = self.made;
        let fate = self.fate(differences, rule, number, partial)?;
        let from = differences.pool.vectors.len() * number;
        let partial = *partial;
        let taken = Kept { partial, from };
        let children = children(differences, &mut self.bounds, &taken, fate)?;
        self.made += children.len();
        self.log.push(Visit {
            number,
            partial,
            first,
            fate,
        })?;
        Ok(children)
    }

    // What becomes of a part; where it is complete, it becomes the best choice.
    fn fate<F: Fn(&Table, &Partial) -> u32>(
        &mut self,
        differences: &Differences,
        rule: &Rule<F>,
        number: usize,
        partial: &Partial,
    ) -> Result<Fate, AllocError>
        requires rule { IsRule F.pre F.post rule.now }
        requires machine { IsMachine differences.now self.old }
        requires known { IsKnown differences.now self.old.bounds.items partial.now number }
        ensures machine { OnOk result (IsMachine differences.now self.new) }
        ensures keeps { OnOk result (KeepsLog self.old self.new) }
        ensures fate { IfOk result (λ became. fate_of became
            ≡ fate (table_of differences.now) (pool_of differences.now) (held_options self.old.best) partial.now) }
        ensures answered { IfOk result
            (IsAnswered (table_of differences.now) (Answered F.post rule.now (table_of differences.now)) partial.now) }
        ensures best { IfOk result (λ became. held_options self.new.best
            ≡ best_after (table_of differences.now) (held_options self.old.best) partial.now (fate_of became)) }
    {
        let t = differences.table;
        if self.close(differences, number, partial).is_some() {
            return Ok(Fate::Closed);
        }
        if is_complete(t, partial) {
            self.best = Some(best_of(*self.log.allocator(), t, partial)?);
            return Ok(Fate::Complete);
        }
        Ok(Fate::Divided(rule.decision(t, partial)))
    }

    /// The first rule that closes a part with the present best choice.
    pub(crate) fn close(
        &mut self,
        differences: &Differences,
        number: usize,
        partial: &Partial,
    ) -> Option<Close>
        requires machine { IsMachine differences.now self.old }
        requires known { IsKnown differences.now self.old.bounds.items partial.now number }
        ensures rule { result ≡ first_rule differences.now (held_options self.old.best) partial.now }
        ensures machine { IsMachine differences.now self.new }
        ensures keeps { KeepsAll self.old self.new }
    {
        self.rows.move_to(differences, partial);
        let vectors = differences.pool.vectors.len();
        let from = vectors * number;
        let bounds = &self.bounds[from..from + vectors];
        differences.closes(bounds, &self.rows, self.best.as_ref())
    }
}

// The children of a part, by what became of it.
fn children(
    differences: &Differences,
    bounds: &mut Vec<Bounds>,
    taken: &Kept,
    fate: Fate,
) -> Result<Vec<Part>, AllocError>
    requires differences { AreDifferences differences.now }
    requires some { 0 < length (pool_of differences.now) }
    requires kept { IsKept (table_of differences.now) (pool_of differences.now) bounds.old.items taken.now }
    requires partial { IsPartial (table_of differences.now) taken.now.partial }
    requires unfixed { fate_of fate ≡ divided → IsUnfixed (table_of differences.now) taken.now.partial (decision_of fate) }
    ensures parts { IfOk result (λ parts. parts.items ≡ parts_of (table_of differences.now) (pool_of differences.now)
        (children_by (table_of differences.now) taken.now.partial (decision_of fate) (fate_of fate))) }
    ensures bounds { IfOk result (λ parts. bounds.new.items
        ≡ bounds.old.items ++ bounds_to differences.now taken.now.partial (decision_of fate) (length parts.items)) }
{
    match fate {
        Fate::Closed | Fate::Complete => Ok(Vec::new(*bounds.allocator())),
        Fate::Divided(decision) => divide(differences, bounds, taken, decision as usize),
    }
}

// A part for each option of a decision.
fn divide(
    differences: &Differences,
    bounds: &mut Vec<Bounds>,
    taken: &Kept,
    decision: usize,
) -> Result<Vec<Part>, AllocError>
    requires differences { AreDifferences differences.now }
    requires some { 0 < length (pool_of differences.now) }
    requires kept { IsKept (table_of differences.now) (pool_of differences.now) bounds.old.items taken.now }
    requires partial { IsPartial (table_of differences.now) taken.now.partial }
    requires unfixed { IsUnfixed (table_of differences.now) taken.now.partial decision }
    ensures parts { IfOk result (λ parts. parts.items ≡ parts_of (table_of differences.now) (pool_of differences.now)
        (children (table_of differences.now) taken.now.partial decision)) }
    ensures bounds { IfOk result (λ parts. bounds.new.items
        ≡ bounds.old.items ++ bounds_to differences.now taken.now.partial decision (length parts.items)) }
{
    let count = option_count(differences.table, decision);
    let mut parts = Vec::with_capacity(*bounds.allocator(), count)?;
    for option in 0..count {
        let child = differences.fix(bounds, taken, decision, option as u8)?;
        parts.push(Part {
            partial: child.partial,
            value: greatest_value(&bounds[child.from..]),
        })?;
    }
    Ok(parts)
}

// Whether every decision is fixed.
fn is_complete(t: &Table, p: &Partial) -> bool
    requires { IsTable t.now }
    ensures { result ≡ (unfixed t.now p.now == 0) }
{
    for d in 0..decision_count(t) {
        if p.slots[d] == UNFIXED {
            return false;
        }
    }
    true
}

// The choice that a complete part is.
fn best_of(alloc: Global, t: &Table, p: &Partial) -> Result<Best, AllocError>
    requires table { IsTable t.now }
    requires partial { IsPartial t.now p.now }
    requires complete { unfixed t.now p.now ≡ 0 }
    ensures options { IfOk result (λ best. best.options ≡ choice_of t.now p.now) }
    ensures energy { IfOk result (λ best. best.energy ≡ energy t.now (choice_of t.now p.now)) }
{
    let options = Vec::from_slice(alloc, &p.slots[..decision_count(t)])?;
    let energy = options_energy(t, &options);
    let options = List::from_vec(options);
    Ok(Best { options, energy })
}
