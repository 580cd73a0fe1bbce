//! The options of a search.

ghost use Rattle.std.specs.Prelude.{◌≡◌};
ghost use Rattle.chisel_words.specs.Search.{branch_of, given_by, one_more, order_of, search_of};
ghost use Rattle.chisel_words.specs.Numbers.{number_between};

use crate::number::number_between;
use chisel_options::{Branch, Order, Strategy};
use chisel_outside::Arg;

/// The last number of steps of a search.
const MOST_NODES: u32 = 100_000;

/// The options that were given so far.
#[derive(Clone, Copy)]
struct Given {
    nodes: Option<u32>,
    branch: Option<Branch>,
    order: Option<Order>,
}

fn nodes_of(word: &str) -> Option<u32>
    ensures { result ≡ number_between 1 100000 word.now }
{
    let nodes = number_between(word, 1, u64::from(MOST_NODES))?;
    Some(nodes as u32)
}

fn branch_of(word: &str) -> Option<Branch>
    ensures { result ≡ branch_of word.now }
{
    match word {
        "first" => Some(Branch::First),
        "spread" => Some(Branch::Spread),
        "heavy" => Some(Branch::Heavy),
        _ => None,
    }
}

fn order_of(word: &str) -> Option<Order>
    ensures { result ≡ order_of word.now }
{
    match word {
        "deep" => Some(Order::Deep),
        "best" => Some(Order::Best),
        _ => None,
    }
}

/// One option more, if it wasn't given before.
fn one_more(given: Given, option: &Arg, word: &Arg) -> Option<Given>
    ensures { result ≡ one_more given option.now word.now }
{
    let word = word.as_str();
    match option.as_str() {
        "--nodes" if given.nodes.is_none() => {
            let nodes = Some(nodes_of(word)?);
            Some(Given { nodes, ..given })
        }
        "--branch" if given.branch.is_none() => {
            let branch = Some(branch_of(word)?);
            Some(Given { branch, ..given })
        }
        "--order" if given.order.is_none() => {
            let order = Some(order_of(word)?);
            Some(Given { order, ..given })
        }
        _ => None,
    }
}

/// The options that the words give, behind those that are given already.
fn given_by(given: Given, options: &[Arg]) -> Option<Given>
    ensures { result ≡ given_by options.now given }
{
    match options {
        [] => Some(given),
        [_] => None,
        [option, word, more @ ..] => match one_more(given, option, word) {
            None => None,
            Some(given) => given_by(given, more),
        },
    }
}

/// The options of `optimise`, in any order, each at most once.
pub(crate) fn search_of(options: &[Arg]) -> Option<Strategy>
    ensures { result ≡ search_of options.now }
{
    let nothing = Given {
        nodes: None,
        branch: None,
        order: None,
    };
    let given = given_by(nothing, options)?;
    Some(Strategy {
        nodes: given.nodes.unwrap_or(MOST_NODES),
        branch: given.branch.unwrap_or(Branch::First),
        order: given.order.unwrap_or(Order::Deep),
    })
}
