//! The words of a command line: which command they ask for, and the files and the function that they name.
//! The layer above uses `read`, which answers exactly the forms of the definitions.
#![tactic(auto)]

mod number;
mod options;
mod search;
mod words;

pub use words::{Asked, CertifiedWords, MakeWords, OptimiseWords, RunWords, VerifyWords, read};
