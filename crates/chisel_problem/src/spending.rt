//! What each option of the places spends of a budget, by the counts of a conjunct: capped numbers of
//! 64 bits, which counts below 2^36 never reach.
ghost use Rattle.std.specs.Prelude.{◌≡◌, ◌*◌, ◌^◌, ◌≤◌, IfOk, OnOk, length, map};
ghost use Rattle.rely_kernel.specs.Valid.{IsValid};
ghost use Rattle.rely_machine.specs.EnergySums.{capped};
ghost use Rattle.chisel_debit.specs.Debits.{debit};
ghost use Rattle.chisel_debit.specs.Hardware.{debit_list};
ghost use Rattle.chisel_problem.specs.Capped.{Gains, capped_places};
ghost use Rattle.chisel_problem.specs.Spending.{calls_spend, kind_spending, memory_spending, spending, spending_at_sites, spending_at_variables};

use crate::hardware::kind_debits;
use crate::places::Place;
use crate::uses::number_at;
use chisel_debit::{DebitList, debits_of};
use rely_hard::Hardware;
use rely_kernel::Kernel;
use rely_num::{Atto, List, Op};
use std::alloc::{AllocError, Global};

/// A kernel on its hardware, with the debits of the hardware's reliabilities and of the bounds at the
/// call places.
#[derive(Drop)]
pub(crate) struct Debits<'a> {
    pub(crate) h: &'a Hardware,
    pub(crate) k: &'a Kernel,
    of_hardware: &'a DebitList,
    of_calls: List<u32>,
    ghost hardware: { of_hardware.now ≡ debit_list h.now },
    ghost calls: { of_calls ≡ map (λ site. debit h.now.base site.bound) k.now.calls },
}

impl<'a> Debits<'a> {
    /// The debits of the call places are all found by one walk.
    #[tactic(auto, using(crate::proofs::Lists::mapped_twice))]
    pub(crate) fn new(
        alloc: Global,
        h: &'a Hardware,
        k: &'a Kernel,
        d: &'a DebitList,
    ) -> Result<Debits<'a>, AllocError>
        requires { d.now ≡ debit_list h.now }
        ensures { IfOk result (λ debits. (debits.h.now ≡ h.now) × (debits.k.now ≡ k.now)) }
    {
        let bounds = bounds(alloc, k)?;
        Ok(Debits {
            h,
            k,
            of_hardware: d,
            of_calls: debits_of(alloc, h.base, &bounds)?,
        })
    }

    /// The places, with what all options spend: the sites, and then the variables.
    pub(crate) fn spending(&self, alloc: Global, counts: &[u64]) -> Result<Vec<Place>, AllocError>
        ensures { IfOk result (λ places. places.items
            ≡ capped_places (spending self.now.h.now self.now.k.now counts.now)) }
    {
        let mut places = Vec::new(alloc);
        self.add_sites(&mut places, counts)?;
        self.add_variables(&mut places, counts)?;
        Ok(places)
    }

    fn add_sites(&self, places: &mut Vec<Place>, counts: &[u64]) -> Result<(), AllocError>
        ensures { OnOk result (Gains places.old.items places.new.items
            (spending_at_sites self.now.h.now self.now.k.now counts.now)) }
    {
        let alloc = *places.allocator();
        for (i, site) in self.k.sites.as_slice().iter().enumerate() {
            places.push(Place {
                slot: site.kind,
                prices: self.kind_spending(alloc, site.op, number_at(counts, i))?,
            })?;
        }
        Ok(())
    }

    // The labels of variables follow those of the sites, the read before the write.
    fn add_variables(&self, places: &mut Vec<Place>, counts: &[u64]) -> Result<(), AllocError>
        ensures { OnOk result (Gains places.old.items places.new.items
            (spending_at_variables self.now.h.now self.now.k.now counts.now)) }
    {
        let alloc = *places.allocator();
        let sites = self.k.sites.as_slice();
        for (v, var) in self.k.vars.as_slice().iter().enumerate() {
            let label = sites.len() + 2 * v;
            let reads = number_at(counts, label);
            let writes = number_at(counts, label + 1);
            places.push(Place {
                slot: var.memory,
                prices: self.memory_spending(alloc, reads, writes)?,
            })?;
        }
        Ok(())
    }

    #[tactic(auto, using(crate::proofs::SpendingLaws::kind_spent))]
    fn kind_spending(&self, alloc: Global, op: Op, count: u64) -> Result<List<u64>, AllocError>
        ensures { IfOk result
            (λ spent. spent ≡ map capped (kind_spending self.now.h.now op count)) }
    {
        let spent = kind_debits(self.h, self.of_hardware, op)
            .iter()
            .map(|debit| count.saturating_mul(u64::from(*debit)))
            .collect(alloc)?;
        Ok(List::from_vec(spent))
    }

    #[tactic(auto, using(crate::proofs::Capped::mapped_capped))]
    fn memory_spending(
        &self,
        alloc: Global,
        reads: u64,
        writes: u64,
    ) -> Result<List<u64>, AllocError>
        ensures { IfOk result
            (λ spent. spent ≡ map capped (memory_spending self.now.h.now reads writes)) }
    {
        let read = self.of_hardware.reads.as_slice();
        let write = self.of_hardware.writes.as_slice();
        let mut spent = Vec::new(alloc);
        for (i, _) in self.h.memories.as_slice().iter().enumerate() {
            let on_reads = reads.saturating_mul(u64::from(read[i]));
            let on_writes = writes.saturating_mul(u64::from(write[i]));
            spent.push(on_reads.saturating_add(on_writes))?;
        }
        Ok(List::from_vec(spent))
    }

    /// What the call places spend. Their labels are the last.
    pub(crate) fn calls_spend(&self, counts: &[u64]) -> u128
        requires { IsValid self.now.k.now }
        ensures exact { result ≡ calls_spend self.now.h.now self.now.k.now counts.now }
        ensures bound { result ≤ 2 ^ 96 * length self.now.k.now.calls }
    {
        let first = self.k.sites.as_slice().len() + 2 * self.k.vars.as_slice().len();
        let debits = self.of_calls.as_slice();
        let mut total: u128 = 0;
        for (place, debit) in debits.iter().enumerate() {
            total += u128::from(number_at(counts, first + place)) * u128::from(*debit);
        }
        total
    }
}

fn bounds(alloc: Global, k: &Kernel) -> Result<Vec<Atto>, AllocError>
    ensures { IfOk result (λ bounds. bounds.items ≡ map (λ site. site.bound) k.now.calls) }
{
    k.calls
        .as_slice()
        .iter()
        .map(|site| site.bound)
        .collect(alloc)
}
