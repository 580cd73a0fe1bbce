use chisel_table::Partial;

/// An open partial choice, with the greatest of its values over the vectors of the pool.
#[derive(Clone, Copy)]
pub struct Part {
    pub partial: Partial,
    pub value: i128,
}
