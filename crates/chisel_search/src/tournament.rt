//! The open parts of a search as a tournament over the tree of all its parts, as in a tree of winners (Knuth 1973, 5.4.1):
//! each part knows the winner among the open parts below it, so that best first needs no walk over the open parts.
ghost use Rattle.std.specs.Prelude.{◌≡◌, ◌+◌, ◌<◌, ◌≤◌, ◌++◌, ◌∷◌, [], length, Some, None, IfOk, OnOk};
ghost use Rattle.chisel_table.specs.Partials.{nothing_fixed};
ghost use Rattle.chisel_table.specs.Sums.{list_to};
ghost use Rattle.chisel_table.specs.Valid.{IsTable};
ghost use Rattle.chisel_bound.specs.Kept.{all_bounds};
ghost use Rattle.chisel_search.specs.Machine.{pool_of, table_of};
ghost use Rattle.chisel_search.specs.Search.{part_of};
ghost use Rattle.chisel_search.specs.Tournament.{best, better, entrant, winner_at};

use crate::part::Part;
use chisel_bound::{Bounds, Differences, greatest_value};
use std::alloc::{AllocError, Global};

/// An open part, by its number and its value.
#[derive(Clone, Copy)]
pub(crate) struct Entrant {
    pub(crate) number: u32,
    pub(crate) value: i128,
}

/// The children of a part, by their numbers.
#[derive(Clone, Copy)]
pub(crate) struct Family {
    pub(crate) first: u32,
    pub(crate) count: u32,
}

/// Where a part stands in the tree of parts.
#[derive(Clone, Copy)]
pub(crate) struct Knot {
    /// The part of which it is a child. Nothing reads that of the root.
    pub(crate) parent: u32,
    /// Where the part was taken its children, none where it was closed.
    pub(crate) family: Option<Family>,
}

/// All parts that there ever were, by their numbers, which are of 32 bits since there are many.
#[derive(Drop)]
pub(crate) struct Tournament {
    /// The greatest value of each over the vectors of the pool.
    pub(crate) values: Vec<i128>,
    pub(crate) knots: Vec<Knot>,
    /// The first of the least value among the open parts from this one on, by its number.
    pub(crate) winners: Vec<Option<u32>>,
}

impl Tournament {
    ghost use Rattle.chisel_search.specs.Tournament.{HasAdded, IsGrafted, IsJudgedBut, IsOpen, IsShaped, IsTournament, JudgesOne, KeepsTree, Replaces, due, numbers_in, winning_number};

    /// The part in which nothing is fixed, by its bounds.
    pub(crate) fn start(
        alloc: Global,
        differences: &Differences,
        bounds: &[Bounds],
    ) -> Result<Tournament, AllocError>
        requires table { IsTable (table_of differences.now) }
        requires some { 0 < length (pool_of differences.now) }
        requires bounds { bounds.now ≡ all_bounds differences.now (nothing_fixed (table_of differences.now)) }
        ensures tournament { IfOk result IsTournament }
        ensures values { IfOk result (λ t. t.values.items ≡ (part_of
            (table_of differences.now) (pool_of differences.now) (nothing_fixed (table_of differences.now))).value ∷ []) }
        ensures numbers { IfOk result (λ t. numbers_in t ≡ 0 ∷ []) }
        ensures one { IfOk result (λ t. length t.knots.items ≡ 1) }
    {
        let mut tournament = Tournament {
            values: Vec::new(alloc),
            knots: Vec::new(alloc),
            winners: Vec::new(alloc),
        };
        tournament.add(greatest_value(bounds), 0)?;
        Ok(tournament)
    }

    /// The number of the first open part of the least value.
    pub(crate) fn winner(&self) -> Option<u32>
        requires { IsTournament self.now }
        ensures { result ≡ winning_number self.now }
    {
        self.winners[0]
    }

    /// Puts children in the place of an open part. Their numbers are the next ones.
    pub(crate) fn replace(&mut self, number: u32, children: &[Part]) -> Result<(), AllocError>
        requires tournament { IsTournament self.old }
        requires number { IsOpen self.old.knots.items number }
        ensures tournament { OnOk result (IsTournament self.new) }
        ensures replaces { OnOk result (Replaces self.old number children.now self.new) }
    {
        self.graft(number, children)?;
        self.climb(number);
        Ok(())
    }

    // Adds children below an open part, and leaves it to `climb` who wins.
    fn graft(&mut self, number: u32, children: &[Part]) -> Result<(), AllocError>
        requires tournament { IsTournament self.old }
        requires number { IsOpen self.old.knots.items number }
        ensures { OnOk result (IsGrafted self.old number children.now self.new) }
    {
        let first = in_32_bits(self.values.len())?;
        let count = in_32_bits(children.len())?;
        for o in 0..children.len() {
            self.add(children[o].value, number)?;
        }
        self.knots[number as usize].family = Some(Family { first, count });
        Ok(())
    }

    // Adds an open part.
    fn add(&mut self, value: i128, parent: u32) -> Result<(), AllocError>
        ensures { OnOk result (HasAdded self.old value parent self.new) }
    {
        let number = in_32_bits(self.values.len())?;
        self.values.push(value)?;
        let family = None;
        self.knots.push(Knot { parent, family })?;
        self.winners.push(Some(number))?;
        Ok(())
    }

    // Judges a part and all that stand above it.
    fn climb(&mut self, number: u32)
        requires shaped { IsShaped self.old }
        requires number { number < length self.old.knots.items }
        requires judged { IsJudgedBut self.old number }
        ensures tree { KeepsTree self.old self.new }
        ensures tournament { IsTournament self.new }
    {
        let mut place = number;
        while place > 0 {
            self.judge(place);
            place = self.knots[place as usize].parent;
        }
        self.judge(0);
    }

    // Says anew who wins among a part and those below it.
    fn judge(&mut self, number: u32)
        requires shaped { IsShaped self.old }
        requires number { number < length self.old.knots.items }
        ensures tree { KeepsTree self.old self.new }
        ensures judged { JudgesOne self.old number self.new }
    {
        let winner = self.due(number);
        self.winners[number as usize] = winner.map(|entrant| entrant.number);
    }

    // Who wins among a part and those below it, by what its children know.
    fn due(&self, number: u32) -> Option<Entrant>
        requires shaped { IsShaped self.now }
        requires number { number < length self.now.knots.items }
        ensures { result ≡ due self.now number }
    {
        match self.knots[number as usize].family {
            None => Some(self.entrant(number)),
            Some(family) => self.best_of(family),
        }
    }

    // The best of a family.
    fn best_of(&self, family: Family) -> Option<Entrant>
        requires shaped { IsShaped self.now }
        requires inside { family.first + family.count ≤ length self.now.winners.items }
        ensures { result ≡ best (list_to family.count (λ o. winner_at self.now (family.first + o))) }
    {
        let first = family.first as usize;
        let mut best = None;
        for o in 0..family.count as usize {
            best = better(best, self.winner_at(first + o));
        }
        best
    }

    // Who was the last to win among a part and those below it.
    fn winner_at(&self, number: usize) -> Option<Entrant>
        requires shaped { IsShaped self.now }
        requires number { number < length self.now.winners.items }
        ensures { result ≡ winner_at self.now number }
    {
        let winner = self.winners[number]?;
        Some(self.entrant(winner))
    }

    fn entrant(&self, number: u32) -> Entrant
        requires { number < length self.now.values.items }
        ensures { result ≡ entrant self.now.values.items number }
    {
        let value = self.values[number as usize];
        Entrant { number, value }
    }
}

// The second where its value is less, and else the first.
fn better(first: Option<Entrant>, second: Option<Entrant>) -> Option<Entrant>
    ensures { result ≡ better first second }
{
    match (first, second) {
        (Some(one), Some(other)) if other.value < one.value => Some(other),
        (None, other) => other,
        (one, _) => one,
    }
}

// More parts than 32 bits count are want of memory.
pub(crate) fn in_32_bits(count: usize) -> Result<u32, AllocError>
    ensures { IfOk result (λ narrow. narrow ≡ count) }
{
    match u32::try_from(count) {
        Ok(narrow) => Ok(narrow),
        Err(_) => Err(AllocError),
    }
}
