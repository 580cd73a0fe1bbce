use rely_kernel::Store;
use rely_num::List;

/// What a run leaves, and what it took. Uses are those of labels, in the order of their numbers; a call is no step of its
/// own, so its label is never used.
#[derive(Debug, Drop)]
pub struct Outcome {
    pub store: Store,
    /// Of the function's own labels.
    pub uses: List<u64>,
    /// Of the labels of each function that it reaches.
    pub inner: List<List<u64>>,
    /// How often each of these was called.
    pub entries: List<u64>,
    pub steps: u64,
}
