//! The limits of the numbers in a text. The numbers of the format's lines are at least 0 or 1, and at most these.

/// The newest version.
pub(crate) const LAST_VERSION: u128 = 2;

pub(crate) const MOST_DECISIONS: u128 = 256;

pub(crate) const MOST_ROWS: u128 = 2048;
/// The last number of an option.
pub(crate) const LAST_OPTION: u128 = 15;

pub(crate) const MOST_ENERGY: u128 = 18_446_744_073_709_551_615;
/// 2^71, below zero.
pub(crate) const MOST_DEFICIT: u128 = 2_361_183_241_434_822_606_848;
/// 2^24, as many as a met budget has.
pub(crate) const MOST_DEBITS: u128 = 16_777_216;
/// 2^40.
pub(crate) const MOST_MULTIPLIER: u128 = 1_099_511_627_776;

pub(crate) const MOST_VECTORS: u128 = 16;

pub(crate) const MOST_NODES: u128 = 100_000;
/// The last number of a decision.
pub(crate) const LAST_DECISION: u128 = 255;

pub(crate) const MOST_CHILDREN: u128 = 16;
/// The last number of a row or a vector.
pub(crate) const LAST_INDEX: u128 = 4_294_967_295;
/// The most branches that stand one under another.
pub(crate) const MOST_DEPTH: u32 = 256;
/// No text has so many lines.
pub(crate) const MOST_LINES: u32 = 1_000_000;
