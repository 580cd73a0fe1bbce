ghost use Rattle.std.specs.Prelude.{◌≡◌, ◌*◌, ◌≤◌, IfOk, length};
ghost use Rattle.chisel_problem.specs.Places.{closed, opened, price_if_named};

use crate::uses::number_at;
use rely_kernel::Slot;
use rely_num::List;
use std::alloc::{AllocError, Global};

/// A place that wants a kind or a memory, with the price of each that it may have.
#[derive(Drop)]
pub(crate) struct Place {
    pub(crate) slot: Slot,
    pub(crate) prices: List<u64>,
}

/// What the named places cost together.
pub(crate) fn closed(places: &[Place]) -> u128
    ensures exact { result ≡ closed places.now }
    ensures bound { result ≤ 18446744073709551615 * length places.now }
{
    let mut total: u128 = 0;
    for place in places {
        total += u128::from(price_if_named(place));
    }
    total
}

fn price_if_named(place: &Place) -> u64
    ensures { result ≡ price_if_named place.now.slot place.now.prices }
{
    match place.slot {
        Slot::Named(number) => number_at(place.prices.as_slice(), usize::from(number)),
        Slot::Free => 0,
    }
}

/// The prices of the open places, in order.
pub(crate) fn opened(alloc: Global, places: &[Place]) -> Result<List<List<u64>>, AllocError>
    ensures { IfOk result (λ rows. rows ≡ opened places.now) }
{
    let mut rows = Vec::new(alloc);
    for place in places {
        if place.slot == Slot::Free {
            let prices = Vec::from_slice(alloc, place.prices.as_slice())?;
            rows.push(List::from_vec(prices))?;
        }
    }
    Ok(List::from_vec(rows))
}
