ghost use Rattle.std.specs.Prelude.{◌≡◌, ◌+◌, ◌<◌, ◌≤◌, ◌↔◌, [], ◌∷◌, ◌++◌, length, map, replicate, get_or, IfErr, IfOk, OnOk, Err};
ghost use Rattle.rely_kernel.specs.Labels.{labels_of};
ghost use Rattle.rely_kernel.specs.Machine.{functions};
ghost use Rattle.rely_kernel.specs.Valid.{IsLinked, IsValid};
ghost use Rattle.rely_machine.specs.Going.{HasRows, with_entry, with_steps, with_use};
ghost use Rattle.rely_machine.specs.declared.fault.RunFault.TheVariants as fault;

use crate::lists::{list_of, lists_of};
use crate::spare::Spare;
use crate::{Outcome, RunFault};
use rely_kernel::{Linked, Store, labels};
use sqlite_items::Items;
use std::alloc::{AllocError, Global};
use std::marker::Model;

/// What a run has counted so far. Its steps stay below their limit.
#[derive(Debug, Drop)]
pub struct Tally {
    // one row for each function, one number for each of its labels
    uses: Vec<Items<u64>>,
    entries: Items<u64>,
    steps: u64,
    limit: u64,
    // one for each function, once a call of it has ended
    spares: Vec<Option<Box<Spare>>>,
}

impl Model for Tally {
    ghost use Rattle.std.specs.Prelude.{◌≡◌, ◌<◌, ◌≤◌, length};
    ghost use Rattle.std.specs.List.{All};
    ghost use Rattle.rely_machine.specs.Going.{Counts};

    ghost Value = { Counts };

    ghost view = { λ t. record { uses = t.uses.items; entries = t.entries; steps = t.steps; limit = t.limit } };

    ghost invariant = { λ t. (t.steps < t.limit) × All (All (λ n. n ≤ t.steps)) t.uses.items × (length t.spares.items ≡ length t.entries) };
}

fn zeros(alloc: Global, n: u32) -> Result<Items<u64>, AllocError>
    ensures { IfOk result (λ row. row ≡ replicate n 0) }
{
    let numbers = vec![in alloc; 0u64; n as usize]?;
    Ok(Items::from_vec(numbers))
}

fn rows_of(alloc: Global, l: &Linked) -> Result<Vec<Items<u64>>, AllocError>
    requires { IsLinked l.now }
    ensures { IfOk result (λ rows. rows.items ≡ map (λ k. replicate (labels_of k) 0) (functions l.now)) }
{
    let mut rows = Vec::new(alloc);
    for k in l.inner.as_slice() {
        rows.push(zeros(alloc, labels(k))?)?;
    }
    rows.push(zeros(alloc, labels(&l.kernel))?)?;
    Ok(rows)
}

fn no_spares(alloc: Global, n: usize) -> Result<Vec<Option<Box<Spare>>>, AllocError>
    ensures { IfOk result (λ spares. length spares.items ≡ n) }
{
    let mut spares = Vec::new(alloc);
    for _ in 0..n {
        spares.push(None)?;
    }
    Ok(spares)
}

impl Tally {
    /// Nothing is counted.
    pub fn new(alloc: Global, l: &Linked, limit: u64) -> Result<Tally, RunFault>
        requires { IsLinked l.now }
        ensures ok { IfOk result (λ t. t ≡ record { uses = map (λ k. replicate (labels_of k) 0) (functions l.now); entries = replicate (length l.now.inner) 0; steps = 0; limit = limit }) }
        ensures steps { result ≡ Err fault.Steps → limit ≡ 0 }
    {
        if limit == 0 {
            return Err(RunFault::Steps);
        }
        let entries = vec![in alloc; 0u64; l.inner.len()]?;
        Ok(Tally {
            uses: rows_of(alloc, l)?,
            entries: Items::from_vec(entries),
            steps: 0,
            limit,
            spares: no_spares(alloc, l.inner.len())?,
        })
    }

    /// So many steps more.
    pub fn walk(&mut self, n: u64) -> Result<(), RunFault>
        ensures ok { OnOk result (self.new ≡ with_steps self.old n) }
        ensures steps { result ≡ Err fault.Steps → self.old.limit ≤ self.old.steps + n }
    {
        if n >= self.limit - self.steps {
            return Err(RunFault::Steps);
        }
        self.steps += n;
        Ok(())
    }

    /// A chance step of a function at its label with that number.
    pub fn take(&mut self, function: usize, label: usize) -> Result<(), RunFault>
        requires { label < get_or (map length self.old.uses) function 0 }
        ensures ok { OnOk result (self.new ≡ with_use self.old function label) }
        ensures steps { result ≡ Err fault.Steps → self.old.limit ≤ self.old.steps + 1 }
    {
        let uses = self.uses[function].as_slice()[label];
        self.walk(1)?;
        self.uses[function].set(label, uses + 1);
        Ok(())
    }

    /// A call of a function, which is so many steps.
    pub fn enter(&mut self, function: usize, numbers: u64) -> Result<(), RunFault>
        requires known { function < length self.old.entries }
        requires few { get_or self.old.entries function 0 ≤ self.old.steps }
        ensures ok { OnOk result (self.new ≡ with_entry self.old function numbers) }
        ensures steps { result ≡ Err fault.Steps → self.old.limit ≤ self.old.steps + numbers }
    {
        self.walk(numbers)?;
        let entries = self.entries.as_slice()[function];
        self.entries.set(function, entries + 1);
        Ok(())
    }

    /// The memory of an earlier call of a function, for another.
    pub fn spare(&mut self, function: usize) -> Result<Box<Spare>, AllocError>
        requires { function < length self.old.entries }
        ensures { self.new ≡ self.old }
    {
        match self.spares[function].take() {
            Some(spare) => Ok(spare),
            None => {
                let alloc = self.allocator();
                Ok(Box::new(alloc, Spare::new(alloc))?)
            }
        }
    }

    /// Keeps the memory of a call that has ended.
    pub fn keep(&mut self, function: usize, spare: Box<Spare>)
        requires { function < length self.old.entries }
        ensures { self.new ≡ self.old }
    {
        self.spares[function] = Some(spare);
    }

    pub fn allocator(&self) -> Global {
        *self.uses.allocator()
    }

    /// What was counted, with the store that was left. The last row is the function's own.
    pub fn into_outcome(self, alloc: Global, store: Store) -> Result<Outcome, RunFault>
        requires { 0 < length self.uses }
        ensures ok { IfOk result (λ o. (o.store ≡ store) × (self.uses ≡ o.inner ++ o.uses ∷ []) × (o.entries ≡ self.entries) × (o.steps ≡ self.steps)) }
        ensures below { IfOk result (λ o. o.steps < self.limit) }
        ensures memory { IfErr result (λ e. e ≡ fault.Memory) }
    {
        let last = self.uses.len() - 1;
        Ok(Outcome {
            store,
            uses: list_of(alloc, &self.uses[last])?,
            inner: lists_of(alloc, &self.uses.as_slice()[..last])?,
            entries: list_of(alloc, &self.entries)?,
            steps: self.steps,
        })
    }
}
