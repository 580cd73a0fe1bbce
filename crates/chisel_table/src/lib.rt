//! Tables of choices, in the manner of Chisel (Misailovic, Carbin, Achour, Qi and Rinard, OOPSLA 2014).
//! Each decision has options with an energy each, and each row is a budget that a choice's debits have to stay within.
//! The least choice is the first, by energy and then by options, of those that meet every row.
//! Lagrangian multipliers (Everett 1963) give bounds on all completions of a partial choice, and rules that close it:
//! `law` has what they say, for searches and for checkers alike.
#![tactic(auto)]

mod choice;
mod closing;
mod grid;
mod lagrangian;
mod law;
mod partial;
mod table;

pub use choice::{
    Choice, before, energy, is_choice, meets, options_energy, options_meet, options_spent,
};
pub use closing::{Close, CloseRule, first_precedes, row_closes, vector_closes};
pub use grid::write_penalties;
pub use lagrangian::{
    ENERGY_WEIGHT, MAX_MULTIPLIER, allowance, excess, penalty, price, row_excess, value,
};
pub use law::{
    better_closes, choices_are_ordered, first_closes, fixing_divides, fixing_grows_bounds,
    relaxation_is_bound, rules_are_sound,
};
pub use partial::{Partial, UNFIXED};
pub use table::{
    MAX_DECISIONS, MAX_OPTIONS, MAX_ROWS, Row, Table, budget_at, debits_of, decision_count,
    energies_of, energy_at, option_count, row_count, spent_at,
};
