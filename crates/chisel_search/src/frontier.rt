//! The open parts of a search, each told by its value and by the visit that it came from: few bytes where parts are many.
ghost use Rattle.std.specs.Prelude.{◌≡◌, ◌<◌, ◌++◌, ◌∷◌, [], length, replicate, slice_index, IfOk, OnOk};
ghost use Rattle.chisel_table.specs.Partials.{nothing_fixed};
ghost use Rattle.chisel_table.specs.Valid.{IsTable};
ghost use Rattle.chisel_bound.specs.Kept.{all_bounds};
ghost use Rattle.chisel_search.specs.Machine.{pool_of, table_of};
ghost use Rattle.chisel_search.specs.Search.{part_of};
ghost use Rattle.chisel_search.specs.Tournament.{IsOpen, IsTournament, Replaces, numbers_in};

use crate::part::Part;
use crate::tournament::{Tournament, in_32_bits};
use crate::visit::{Fate, Visit};
use chisel_bound::{Bounds, Differences};
use chisel_table::{Partial, Table};
use std::alloc::{AllocError, Global};

/// The open parts, and of all parts the visits that they came from.
#[derive(Drop)]
pub(crate) struct Frontier {
    pub(crate) tournament: Tournament,
    /// The visit of each part's parent, by its place in the log. Nothing reads that of the root.
    pub(crate) origins: Vec<u32>,
}

impl Frontier {
    ghost use Rattle.chisel_search.specs.Frontier.{HasOrigins, partial_from};

    /// The part in which nothing is fixed, by its bounds.
    pub(crate) fn start(
        alloc: Global,
        differences: &Differences,
        bounds: &[Bounds],
    ) -> Result<Frontier, AllocError>
        requires table { IsTable (table_of differences.now) }
        requires some { 0 < length (pool_of differences.now) }
        requires bounds { bounds.now ≡ all_bounds differences.now (nothing_fixed (table_of differences.now)) }
        ensures tournament { IfOk result (λ f. IsTournament f.tournament) }
        ensures values { IfOk result (λ f. f.tournament.values.items ≡ (part_of
            (table_of differences.now) (pool_of differences.now) (nothing_fixed (table_of differences.now))).value ∷ []) }
        ensures numbers { IfOk result (λ f. numbers_in f.tournament ≡ 0 ∷ []) }
        ensures one { IfOk result (λ f. length f.tournament.knots.items ≡ 1) }
        ensures origins { IfOk result (λ f. f.origins.items ≡ 0 ∷ []) }
    {
        let tournament = Tournament::start(alloc, differences, bounds)?;
        let mut origins = Vec::new(alloc);
        origins.push(0)?;
        Ok(Frontier {
            tournament,
            origins,
        })
    }

    /// The partial choice of a part: that of its parent, which the log has, with one option more fixed.
    pub(crate) fn partial(&self, t: &Table, log: &[Visit], number: u32) -> Partial
        requires table { IsTable t.now }
        requires origins { HasOrigins t.now log.now self.now }
        requires number { number < length self.now.origins.items }
        ensures { result ≡ partial_from t.now log.now (slice_index self.now.origins.items number) number }
    {
        if number == 0 {
            return Partial::nothing_fixed(t);
        }
        let visit = &log[self.origins[number as usize] as usize];
        let Fate::Divided(decision) = visit.fate else {
            // what is closed or complete has no children
            unreachable!()
        };
        let option = number as usize - visit.first;
        visit.partial.with_option(decision as usize, option as u8)
    }

    /// Puts children in the place of an open part, which come from the visit at a place of the log.
    pub(crate) fn replace(
        &mut self,
        number: u32,
        children: &[Part],
        origin: usize,
    ) -> Result<(), AllocError>
        requires tournament { IsTournament self.old.tournament }
        requires number { IsOpen self.old.tournament.knots.items number }
        ensures tournament { OnOk result (IsTournament self.new.tournament) }
        ensures replaces { OnOk result (Replaces self.old.tournament number children.now self.new.tournament) }
        ensures origins { OnOk result
            (self.new.origins.items ≡ self.old.origins.items ++ replicate (length children.now) origin) }
    {
        self.tournament.replace(number, children)?;
        let origin = in_32_bits(origin)?;
        let count = self.origins.len() + children.len();
        self.origins.resize(count, origin)
    }
}
