//! Certificates of a least choice: a proof tree by branch and bound that a stranger may check.
//! They stand in an arena, have a text of their own in two versions, and are valid for a table by a definition
//! that knows of no search. `law` says what validity promises, and that texts and certificates are one to one.
#![tactic(auto)]

mod cert;
mod fault;
mod law;
mod limits;
mod lines;
mod node;
mod reader;
mod rest;
mod writer;

pub use cert::{Cert, Mark, Node, Restated};
pub use fault::{CertFault, CertWhy};
pub use law::{texts_are_one_to_one, valid_is_least};
pub use reader::read;
pub use writer::write;
