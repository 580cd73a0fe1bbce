ghost use Rattle.std.specs.Prelude.{◌≡◌, ℕ, ◌≤◌, ◌<◌, ◌+◌, ◌-◌, ◌*◌, ◌^◌};
ghost use Rattle.rely_num.specs.Bounds.{S};
ghost use Rattle.rely_num.specs.Rounded.{mul_lo, mul_hi, lo_pow, hi_pow};

use crate::Atto;

/// The product, rounded down to a whole atto.
#[tactic(auto, using(crate::proofs::Gaps::mul_lo_within))]
pub fn mul_lo(a: Atto, b: Atto) -> Atto
    ensures value { result ≡ mul_lo a b }
    ensures bound { result ≤ S }
{
    let product = u128::from(a.get()) * u128::from(b.get());
    let quotient = product / u128::from(Atto::ONE.get());
    Atto::from_attos(quotient as u64)
}

/// The product, rounded up to a whole atto.
#[tactic(auto, using(crate::proofs::Gaps::mul_hi_within))]
pub fn mul_hi(a: Atto, b: Atto) -> Atto
    ensures value { result ≡ mul_hi a b }
    ensures bound { result ≤ S }
{
    let product = u128::from(a.get()) * u128::from(b.get());
    let quotient = product.div_ceil(u128::from(Atto::ONE.get()));
    Atto::from_attos(quotient as u64)
}

/// A lower bound on p to the n, by halving the exponent, each product rounded down.
#[tactic(auto, using(crate::proofs::Halving::lo_powers, crate::proofs::RoundedDown::under_lo))]
pub fn lo_pow(p: Atto, n: u64) -> Atto
    ensures value { result ≡ lo_pow p n }
    ensures below { lo_pow p n * S ^ n ≤ p ^ n * S }
    ensures bound { result ≤ S }
{
    match n {
        0 => Atto::ONE,
        1 => p,
        _ => {
            let half = lo_pow(p, n / 2);
            let square = mul_lo(half, half);
            if n % 2 == 0 {
                square
            } else {
                mul_lo(square, p)
            }
        }
    }
}

/// An upper bound on p to the n, by halving the exponent, each product rounded up.
#[tactic(auto, using(crate::proofs::Halving::hi_powers, crate::proofs::RoundedUp::over_hi, crate::proofs::Gaps::pow_gap))]
pub fn hi_pow(p: Atto, n: u64) -> Atto
    ensures value { result ≡ hi_pow p n }
    ensures above { p ^ n * S ≤ hi_pow p n * S ^ n }
    ensures gap { 1 ≤ n → hi_pow p n ≤ lo_pow p n + 2 * (n - 1) }
    ensures bound { result ≤ S }
{
    match n {
        0 => Atto::ONE,
        1 => p,
        _ => {
            let half = hi_pow(p, n / 2);
            let square = mul_hi(half, half);
            if n % 2 == 0 {
                square
            } else {
                mul_hi(square, p)
            }
        }
    }
}
