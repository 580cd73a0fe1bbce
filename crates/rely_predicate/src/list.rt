//! The conjuncts of a predicate, none of which covers another: what stands there, and how one more is put there.
ghost use Rattle.std.specs.Prelude.{◌≡◌, ◌≤◌, ◌<◌, ◌↔◌, not, length, filter, Err, IfErr, IfOk, OnOk, true, false, vec_len, vec_capacity};
ghost use Rattle.std.specs.List.{list_any, insert, AllPass};
ghost use Rattle.rely_predicate.specs.Top.{covers, put, with_one};

use crate::compare::{covers_any, is_before};
use crate::predicate::PredFault;
use rely_num::{Conj, List};
use std::alloc::{AllocError, Global};
use std::mem::replace;

/// The most conjuncts of a predicate.
pub(crate) const MOST: usize = 256;

// Adds a conjunct to its place and drops those that it covers, unless one covers it.
pub(crate) fn add(conjs: &mut Vec<Conj>, c: Conj) -> Result<(), PredFault>
    requires { length conjs.old.items ≤ 256 }
    ensures ok { IfOk result (λ _. conjs.new.items ≡ with_one c conjs.old.items) }
    ensures refused { IfErr result (λ _. conjs.new.items ≡ conjs.old.items) }
    ensures wide { (result ≡ Err PredFault.Wide) ↔ (256 < length (with_one c conjs.old.items)) }
{
    if is_covered(conjs, &c) {
        return Ok(());
    }
    if is_full(conjs, &c) {
        return Err(PredFault::Wide);
    }
    conjs.try_reserve(1)?;
    drop_covered(conjs, &c);
    let at = place(conjs, &c);
    conjs.insert(at, c)?;
    Ok(())
}

// Whether some conjunct covers `c`.
fn is_covered(conjs: &[Conj], c: &Conj) -> bool
    ensures { result ≡ list_any (λ d. covers d c.now) conjs.now }
{
    conjs.iter().any(|d| covers_any(d, c))
}

// Whether there is no room for `c`. Fewer conjuncts than the most leave room, whatever it covers.
fn is_full(conjs: &[Conj], c: &Conj) -> bool
    ensures full { result ≡ true → length (filter (λ d. not (covers c.now d)) conjs.now) ≡ 256 }
    ensures room { result ≡ false → length conjs.now ≤ 256
        → length (filter (λ d. not (covers c.now d)) conjs.now) < 256 }
{
    conjs.len() >= MOST && kept(conjs, c) == MOST
}

// How many conjuncts `c` doesn't cover.
fn kept(conjs: &[Conj], c: &Conj) -> usize
    ensures { result ≡ length (filter (λ d. not (covers c.now d)) conjs.now) }
{
    conjs.iter().filter(|d| !covers_any(c, d)).count()
}

// Drops the conjuncts that `c` covers, and keeps the memory.
fn drop_covered(conjs: &mut Vec<Conj>, c: &Conj)
    ensures left { conjs.new.items ≡ filter (λ d. not (covers c.now d)) conjs.old.items }
    ensures bound { vec_len conjs.new ≤ vec_len conjs.old }
    ensures room { vec_capacity conjs.new ≡ vec_capacity conjs.old }
{
    conjs.retain(|d| !covers_any(c, d));
}

// Where `c` is put among conjuncts that it doesn't cover.
fn place(conjs: &[Conj], c: &Conj) -> usize
    requires { AllPass (λ d. not (covers c.now d)) conjs.now }
    ensures within { result ≤ length conjs.now }
    ensures put { insert conjs.now result c.now ≡ put c.now conjs.now }
{
    let mut at = 0;
    for d in conjs {
        if !is_before(d, c) {
            return at;
        }
        at += 1;
    }
    at
}

/// Copies of conjuncts.
pub(crate) fn copies(alloc: Global, conjs: &[Conj]) -> Result<Vec<Conj>, AllocError>
    ensures { IfOk result (λ list. list.items ≡ conjs.now) }
{
    let mut list = Vec::new(alloc);
    for c in conjs {
        list.push(copy(alloc, c)?)?;
    }
    Ok(list)
}

fn copy(alloc: Global, c: &Conj) -> Result<Conj, AllocError>
    ensures { IfOk result (λ d. d ≡ c.now) }
{
    let counts = Vec::from_slice(alloc, c.counts.as_slice())?;
    Ok(Conj {
        counts: List::from_vec(counts),
        vars: c.vars,
    })
}

/// Copies of conjuncts, in the memory of other ones as far as that goes.
pub(crate) fn copies_into(
    alloc: Global,
    mut list: Vec<Conj>,
    conjs: &[Conj],
) -> Result<Vec<Conj>, AllocError>
    ensures { IfOk result (λ list. list.items ≡ conjs.now) }
{
    list.truncate(conjs.len());
    let (over, more) = conjs.split_at(list.len());
    overwrite(alloc, &mut list, over)?;
    for c in more {
        list.push(copy(alloc, c)?)?;
    }
    Ok(list)
}

// Puts copies of as many conjuncts in the place of those that stand there.
fn overwrite(alloc: Global, list: &mut [Conj], conjs: &[Conj]) -> Result<(), AllocError>
    requires { length list.old ≡ length conjs.now }
    ensures { OnOk result (list.new ≡ conjs.now) }
{
    for i in 0..list.len() {
        overwrite_one(alloc, &mut list[i], &conjs[i])?;
    }
    Ok(())
}

// It takes memory only where the numbers of labels differ.
fn overwrite_one(alloc: Global, spare: &mut Conj, c: &Conj) -> Result<(), AllocError>
    ensures { OnOk result (spare.new ≡ c.now) }
{
    let counts = c.counts.as_slice();
    let mut room = replace(&mut spare.counts, List::from_vec(Vec::new(alloc))).into_vec();
    if room.len() == counts.len() {
        room.copy_from_slice(counts);
    } else {
        room = Vec::from_slice(alloc, counts)?;
    }
    spare.counts = List::from_vec(room);
    spare.vars = c.vars;
    Ok(())
}
