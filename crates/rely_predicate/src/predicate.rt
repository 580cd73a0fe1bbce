ghost use Rattle.std.specs.Prelude.{◌≡◌, ◌<◌, ◌↔◌, [], ◌∷◌, ◌++◌, length, map, Err, IfErr, IfOk};
ghost use Rattle.std.specs.List.{All};
ghost use Rattle.rely_predicate.specs.Top.{top};
ghost use Rattle.rely_predicate.specs.Shift.{times, raise};
ghost use Rattle.rely_predicate.specs.Predicates.{IsPredicate, StaysBelow};

use crate::list::{add, copies, copies_into};
use crate::raise::raise_each;
use rely_num::Conj;
use std::alloc::{AllocError, AllocFailed, Global};
use std::marker::Model;
use thiserror::Error;

/// Why a conjunct isn't added.
#[derive(Clone, Copy, Debug, PartialEq, Eq, Error)]
pub enum PredFault {
    /// There would be 257 conjuncts, none of which covers another.
    #[error("more than 256 conjuncts")]
    Wide,
    #[error("out of memory")]
    Memory,
}

impl<T: Drop> From<AllocFailed<T>> for PredFault {
    ghost use Rattle.std.specs.Prelude.{◌≡◌};
    ghost use Rattle.rely_predicate.specs.declared.predicate.PredFault.TheVariants.{Memory};

    ghost from_gives = { λ _ e. e ≡ Memory };

    fn from(_e: AllocFailed<T>) -> PredFault {
        PredFault::Memory
    }
}

impl From<AllocError> for PredFault {
    ghost use Rattle.std.specs.Prelude.{◌≡◌};
    ghost use Rattle.rely_predicate.specs.declared.predicate.PredFault.TheVariants.{Memory};

    ghost from_gives = { λ _ e. e ≡ Memory };

    fn from(_e: AllocError) -> PredFault {
        PredFault::Memory
    }
}

/// Conjuncts that hold together, none of which covers another, with one count for each of so many labels.
#[derive(Debug, Drop)]
pub struct Predicate {
    labels: u32,
    conjs: Vec<Conj>,
}

impl Model for Predicate {
    ghost use Rattle.rely_predicate.specs.Predicates.{Conjuncts, IsPredicate};

    ghost Value = { Conjuncts };

    ghost view = { λ p. record { labels = p.labels; conjs = p.conjs.items } };

    ghost invariant = { λ p. IsPredicate (record { labels = p.labels; conjs = p.conjs.items }) };
}

impl Predicate {
    /// Without a conjunct. It takes no memory.
    pub fn new(alloc: Global, labels: u32) -> Predicate
        ensures { result ≡ record { labels = labels; conjs = [] } }
    {
        Predicate {
            labels,
            conjs: Vec::new(alloc),
        }
    }

    /// Of conjuncts that are a predicate already. It takes no memory.
    pub fn of(labels: u32, conjs: Vec<Conj>) -> Predicate
        requires { IsPredicate (record { labels = labels; conjs = conjs.items }) }
        ensures { result ≡ record { labels = labels; conjs = conjs.items } }
    {
        Predicate { labels, conjs }
    }

    /// Its conjuncts, in order of their sets of variables and then of their counts label by label.
    pub fn conjs(&self) -> &[Conj]
        ensures value { result.now ≡ self.now.conjs }
        ensures valid { IsPredicate self.now }
    {
        self.conjs.as_slice()
    }

    /// Its conjuncts by themselves. It takes no memory.
    pub fn into_conjs(self) -> Vec<Conj>
        ensures value { result.items ≡ self.conjs }
        ensures valid { IsPredicate self }
    {
        self.conjs
    }

    /// The same once more.
    pub fn copy(&self, alloc: Global) -> Result<Predicate, AllocError>
        ensures { IfOk result (λ p. p ≡ self.now) }
    {
        Ok(Predicate {
            labels: self.labels,
            conjs: copies(alloc, self.conjs.as_slice())?,
        })
    }

    /// The same once more, in the memory of another where that is enough.
    pub fn copy_into(&self, alloc: Global, spare: Predicate) -> Result<Predicate, AllocError>
        ensures { IfOk result (λ p. p ≡ self.now) }
    {
        Ok(Predicate {
            labels: self.labels,
            conjs: copies_into(alloc, spare.conjs, self.conjs.as_slice())?,
        })
    }

    /// The number of labels.
    pub fn shape(&self) -> u32
        ensures { result ≡ self.now.labels }
    {
        self.labels
    }

    /// Adds a conjunct, unless one covers it already, and drops those that it covers.
    ///
    /// After a refusal the predicate is as it was. `Wide` comes before anything else that can fail.
    pub fn add(&mut self, c: Conj) -> Result<(), PredFault>
        requires { length c.counts ≡ self.old.labels }
        ensures ok { IfOk result (λ _. self.new ≡ record { labels = self.old.labels; conjs = top (self.old.conjs ++ c ∷ []) }) }
        ensures refused { IfErr result (λ _. self.new ≡ self.old) }
        ensures wide { (result ≡ Err PredFault.Wide) ↔ (256 < length (top (self.old.conjs ++ c ∷ []))) }
    {
        add(&mut self.conjs, c)
    }

    /// Adds `n` times the vector to every conjunct. It takes no memory.
    pub fn raise(&mut self, by: &[u64], n: u64)
        requires counted { length by.now ≡ self.old.labels }
        requires below { All (StaysBelow by.now n) self.old.conjs }
        ensures { self.new ≡ record { labels = self.old.labels; conjs = map (raise (times n by.now)) self.old.conjs } }
    {
        let alloc = *self.conjs.allocator();
        raise_each(alloc, &mut self.conjs, by, n);
    }
}
