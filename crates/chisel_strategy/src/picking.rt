//! Picks: which open part a search takes next.
ghost use Rattle.std.specs.Prelude.{◌≡◌, ◌<◌, int_lt, length};
ghost use Rattle.chisel_options.specs.declared.strategy.Order.TheVariants.{Best, Deep};
ghost use Rattle.chisel_strategy.specs.Picking.{place};

use chisel_search::Part;

/// The last place of a list.
pub fn deep(parts: &[Part]) -> usize
    requires { 0 < length parts.now }
    ensures inside { result < length parts.now }
    ensures place { result ≡ place Deep parts.now }
{
    parts.len() - 1
}

/// The first place of the least value. A search by `Order::Best` takes the same parts without a walk over the list.
pub fn least(parts: &[Part]) -> usize
    requires { 0 < length parts.now }
    ensures inside { result < length parts.now }
    ensures place { result ≡ place Best parts.now }
{
    let mut least = 0;
    for k in 1..parts.len() {
        if is_less(&parts[k], &parts[least]) {
            least = k;
        }
    }
    least
}

fn is_less(part: &Part, other: &Part) -> bool
    ensures { result ≡ int_lt part.now.value other.now.value }
{
    part.value < other.value
}
