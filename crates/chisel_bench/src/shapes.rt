//! The tables and the work that words name.
ghost use Rattle.std.specs.Prelude.{IfSome};
ghost use Rattle.chisel_bench.specs.Made.{IsShape};

use crate::made::{ENERGY_SEED, Shape};
use crate::work::{Task, Work};
use chisel_options::{Branch, Order, Strategy};

/// As many parts as a search may take, and a certificate may have nodes.
const MOST_NODES: u32 = 100_000;

/// A few choices.
const SMALL: Shape = Shape {
    decisions: 4,
    options: 3,
    rows: 2,
    seed: 1,
    budget: 301,
};

/// One tight row, which spends what the energies save, with an odd budget that no choice uses up: no search ends soon.
const OPEN: Shape = Shape {
    decisions: 40,
    options: 3,
    rows: 1,
    seed: ENERGY_SEED,
    budget: 2001,
};

/// The same with so small a budget that a search ends, but not at once.
const TIGHT: Shape = Shape {
    decisions: 40,
    options: 3,
    rows: 1,
    seed: ENERGY_SEED,
    budget: 121,
};

/// The largest table, of which one choice alone meets every row.
const WIDE: Shape = Shape {
    decisions: 256,
    options: 16,
    rows: 2048,
    seed: 0,
    budget: 1,
};

/// The largest table, with rows that every choice meets.
const LOOSE: Shape = Shape {
    decisions: 256,
    options: 16,
    rows: 2048,
    seed: 0,
    budget: 400_001,
};

/// The largest table, with rows that are tight enough for a search not to end soon.
const VAST: Shape = Shape {
    decisions: 256,
    options: 16,
    rows: 2048,
    seed: ENERGY_SEED,
    budget: 100_001,
};

/// The task that words name, in any order; what no word names is a whole check of the small table, depth first.
pub(crate) fn task(words: &[String]) -> Task
    ensures { IsShape result.shape }
{
    let mut task = Task {
        shape: SMALL,
        strategy: Strategy {
            branch: Branch::First,
            order: Order::Deep,
            nodes: MOST_NODES,
        },
        work: Work::Check,
    };
    for word in words {
        task = with_word(task, word.as_str());
    }
    task
}

fn with_word(mut task: Task, word: &str) -> Task
    requires { IsShape task.shape }
    ensures { IsShape result.shape }
{
    task.shape = shape_of(word).unwrap_or(task.shape);
    task.work = work_of(word).unwrap_or(task.work);
    task.strategy.order = order_of(word).unwrap_or(task.strategy.order);
    task.strategy.branch = branch_of(word).unwrap_or(task.strategy.branch);
    task
}

fn shape_of(word: &str) -> Option<Shape>
    ensures { IfSome result IsShape }
{
    match word {
        "small" => Some(SMALL),
        "open" => Some(OPEN),
        "tight" => Some(TIGHT),
        "wide" => Some(WIDE),
        "loose" => Some(LOOSE),
        "vast" => Some(VAST),
        _ => None,
    }
}

fn work_of(word: &str) -> Option<Work> {
    match word {
        "make" => Some(Work::Make),
        "ascent" => Some(Work::Ascent),
        "search" => Some(Work::Search),
        "read" => Some(Work::Read),
        "check" => Some(Work::Check),
        _ => None,
    }
}

fn order_of(word: &str) -> Option<Order> {
    match word {
        "deep" => Some(Order::Deep),
        "best" => Some(Order::Best),
        _ => None,
    }
}

fn branch_of(word: &str) -> Option<Branch> {
    match word {
        "first" => Some(Branch::First),
        "spread" => Some(Branch::Spread),
        "heavy" => Some(Branch::Heavy),
        _ => None,
    }
}
