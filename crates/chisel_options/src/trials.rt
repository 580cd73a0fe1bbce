//! Runs with seeded faults.

/// What is asked of trials.
#[derive(Clone, Copy, Debug)]
pub struct Trials {
    /// The seed of the generator that all trials of a command share.
    pub seed: u64,
    /// How many trials follow the reliable run of each sample, at most 1000.
    pub count: u64,
}
