use rely_kernel::Store;

/// What a trial leaves.
#[derive(Debug, Drop)]
pub struct Tried {
    pub store: Store,
    pub steps: u64,
    /// How many words of the generator it took.
    pub words: u64,
}

/// What is told of a trial whose store isn't kept.
#[derive(Clone, Copy, Debug)]
pub struct Ended {
    pub result: i64,
    pub steps: u64,
}
