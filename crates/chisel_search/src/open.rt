//! The open parts of a search.
ghost use Rattle.std.specs.Prelude.{◌≡◌, ◌+◌, ◌<◌, ◌^◌, ◌==◌, ◌∷◌, [], length, IfOk, OnOk};
ghost use Rattle.chisel_table.specs.Partials.{nothing_fixed};
ghost use Rattle.chisel_table.specs.Valid.{IsTable};
ghost use Rattle.chisel_bound.specs.Kept.{all_bounds};
ghost use Rattle.chisel_search.specs.Logs.{numbers_from};
ghost use Rattle.chisel_search.specs.Machine.{pool_of, table_of};
ghost use Rattle.chisel_search.specs.Search.{part_of, replaced};

use crate::part::Part;
use chisel_bound::{Bounds, Differences, greatest_value};
use chisel_table::Partial;
use std::alloc::{AllocError, Global};

/// The open parts in order, and beside each its number.
#[derive(Drop)]
pub(crate) struct Open {
    pub(crate) parts: Vec<Part>,
    pub(crate) numbers: Vec<usize>,
}

impl Open {
    /// The part in which nothing is fixed, by its bounds.
    pub(crate) fn start(
        alloc: Global,
        differences: &Differences,
        bounds: &[Bounds],
    ) -> Result<Open, AllocError>
        requires table { IsTable (table_of differences.now) }
        requires some { 0 < length (pool_of differences.now) }
        requires bounds { bounds.now ≡ all_bounds differences.now (nothing_fixed (table_of differences.now)) }
        ensures parts { IfOk result (λ o. o.parts.items
            ≡ part_of (table_of differences.now) (pool_of differences.now) (nothing_fixed (table_of differences.now)) ∷ []) }
        ensures numbers { IfOk result (λ o. o.numbers.items ≡ 0 ∷ []) }
    {
        let partial = Partial::nothing_fixed(differences.table);
        let value = greatest_value(bounds);
        let mut parts = Vec::new(alloc);
        parts.push(Part { partial, value })?;
        let mut numbers = Vec::new(alloc);
        numbers.push(0)?;
        Ok(Open { parts, numbers })
    }

    pub(crate) fn is_empty(&self) -> bool
        ensures { result ≡ (length self.now.parts.items == 0) }
    {
        self.parts.is_empty()
    }

    /// Puts children, whose numbers begin with `first`, in the place of a part.
    pub(crate) fn replace(
        &mut self,
        place: usize,
        children: &[Part],
        first: usize,
    ) -> Result<(), AllocError>
        requires part { place < length self.old.parts.items }
        requires number { place < length self.old.numbers.items }
        requires fits { first + length children.now < 2 ^ 63 }
        ensures parts { OnOk result (self.new.parts.items ≡ replaced self.old.parts.items place children.now) }
        ensures numbers { OnOk result
            (self.new.numbers.items ≡ replaced self.old.numbers.items place (numbers_from first (length children.now))) }
    {
        replace_parts(&mut self.parts, place, children)?;
        replace_numbers(&mut self.numbers, place, first, children.len())
    }
}

fn replace_parts(parts: &mut Vec<Part>, place: usize, children: &[Part]) -> Result<(), AllocError>
    requires { place < length parts.old.items }
    ensures { OnOk result (parts.new.items ≡ replaced parts.old.items place children.now) }
{
    parts.remove(place);
    for o in 0..children.len() {
        parts.insert(place + o, children[o])?;
    }
    Ok(())
}

fn replace_numbers(
    numbers: &mut Vec<usize>,
    place: usize,
    first: usize,
    count: usize,
) -> Result<(), AllocError>
    requires inside { place < length numbers.old.items }
    requires fits { first + count < 2 ^ 63 }
    ensures { OnOk result (numbers.new.items ≡ replaced numbers.old.items place (numbers_from first count)) }
{
    numbers.remove(place);
    for o in 0..count {
        numbers.insert(place + o, first + o)?;
    }
    Ok(())
}
