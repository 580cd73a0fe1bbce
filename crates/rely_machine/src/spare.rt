use crate::held::Held;
use std::alloc::Global;

/// The memory of a call that has ended, which the next call of its function takes over. What it holds says nothing.
#[derive(Debug, Drop)]
pub struct Spare {
    pub arguments: Vec<i64>,
    pub held: Held,
}

impl Spare {
    pub fn new(alloc: Global) -> Spare {
        Spare {
            arguments: Vec::new(alloc),
            held: Held::new(alloc),
        }
    }
}
