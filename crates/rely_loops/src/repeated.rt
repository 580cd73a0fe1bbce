//! A vector that is added many times at once.
ghost use Rattle.std.specs.Prelude.{◌≡◌, ◌+◌, ◌*◌, ◌^◌, ◌↔◌, IsTrue, length, map, Err, IfErr, IfOk, nat_le};
ghost use Rattle.std.specs.List.{All, list_any};
ghost use Rattle.rely_predicate.specs.Shift.{plus, times, raise};
ghost use Rattle.rely_loops.specs.Grown.{too_many};

use rely_num::Conj;
use rely_predicate::Predicate;
use thiserror::Error;

/// Why a vector isn't added.
#[derive(Clone, Copy, Debug, PartialEq, Eq, Error)]
pub enum LoopFault {
    /// A count would reach 2^36.
    #[error("a count of 2^36 or more")]
    Count,
}

/// Adds `n` times the vector to every conjunct. It takes no memory.
///
/// After a refusal the predicate is as it was.
pub fn times(p: &mut Predicate, by: &[u64], n: u64) -> Result<(), LoopFault>
    requires { length by.now ≡ p.old.labels }
    ensures ok { IfOk result (λ _. p.new ≡ record { labels = p.old.labels; conjs = map (raise (times n by.now)) p.old.conjs }) }
    ensures refused { IfErr result (λ _. p.new ≡ p.old) }
    ensures count { (result ≡ Err LoopFault.Count) ↔ IsTrue (too_many (map (raise (times n by.now)) p.old.conjs)) }
{
    if is_too_much(p.conjs(), by, n) {
        return Err(LoopFault::Count);
    }
    p.raise(by, n);
    Ok(())
}

// Whether some count would be too large.
fn is_too_much(conjs: &[Conj], by: &[u64], n: u64) -> bool
    requires { All (λ c. length c.counts ≡ length by.now) conjs.now }
    ensures { result ≡ too_many (map (raise (times n by.now)) conjs.now) }
{
    for c in conjs {
        if any_too_large(c.counts.as_slice(), by, n) {
            return true;
        }
    }
    false
}

// Whether one of these counts would be too large.
fn any_too_large(counts: &[u64], by: &[u64], n: u64) -> bool
    requires { length counts.now ≡ length by.now }
    ensures { result ≡ list_any (nat_le (2 ^ 36)) (plus (times n by.now) counts.now) }
{
    by.iter().zip(counts).any(|(v, k)| is_too_large(*k, *v, n))
}

fn is_too_large(count: u64, v: u64, n: u64) -> bool
    ensures { result ≡ nat_le (2 ^ 36) (n * v + count) }
{
    u128::from(n) * u128::from(v) + u128::from(count) >= 1 << 36
}
