//! The weights of a decision's options, by their penalties, and the first of the least.
ghost use Rattle.std.specs.Prelude.{ℕ, ◌≡◌, ◌<◌, ◌≤◌, ◌^◌, length, slice_index};
ghost use Rattle.chisel_table.specs.declared.lagrangian.TheConstants.{ENERGY_WEIGHT};
ghost use Rattle.chisel_bound.specs.Weights.{IsLeastPlace, weighed};

use chisel_table::ENERGY_WEIGHT;

/// The first option of the least weight: its energy, times a scale, and its penalty.
pub(crate) fn least_option(scale: u64, energies: &[u64], penalties: &[u128]) -> usize
    requires scale { scale ≤ ENERGY_WEIGHT }
    requires some { 0 < length energies.now }
    requires each { length energies.now ≤ length penalties.now }
    requires below { (o : ℕ) → o < length energies.now → slice_index penalties.now o ≤ 2 ^ 113 }
    ensures { IsLeastPlace (length energies.now) (weighed scale energies.now penalties.now) result }
{
    let mut least = 0;
    for o in 1..energies.len() {
        if weight(scale, energies, penalties, o) < weight(scale, energies, penalties, least) {
            least = o;
        }
    }
    least
}

/// An option's energy, times a scale, and its penalty.
pub(crate) fn weight(scale: u64, energies: &[u64], penalties: &[u128], option: usize) -> u128
    requires scale { scale ≤ ENERGY_WEIGHT }
    requires energy { option < length energies.now }
    requires penalty { option < length penalties.now }
    requires below { slice_index penalties.now option ≤ 2 ^ 113 }
    ensures value { result ≡ weighed scale energies.now penalties.now option }
    ensures bound { result ≤ 2 ^ 114 }
{
    scale as u128 * energies[option] as u128 + penalties[option]
}
