use rely_num::List;

/// Vectors of multipliers, each with a number for each row of a table.
#[derive(Debug, Drop)]
pub struct Pool {
    pub vectors: List<List<u64>>,
}
