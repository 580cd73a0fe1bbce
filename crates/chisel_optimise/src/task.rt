use crate::certified::Asked;
use chisel_options::Strategy;

/// What is to be done with the choices of a function.
#[derive(Clone, Copy, Debug)]
pub enum Task<'a> {
    /// To find the least.
    Optimise(Strategy),
    /// To judge the certificate of this text.
    Certify(Asked, &'a [u8]),
    /// To measure the search.
    Measure,
}
