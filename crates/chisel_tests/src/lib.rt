//! Tests of calls that no worked example of `chisel_cases` shows. Nothing stands on this crate.
#![tactic(auto)]

#[cfg(test)]
mod numbers;
#[cfg(test)]
mod outside;
#[cfg(test)]
mod sources;
#[cfg(test)]
mod trial;
