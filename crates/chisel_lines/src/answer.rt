use crate::{Grade, Refusal};
use rely_num::List;

/// What a command answers: a text, or the refusal that its work comes to.
#[derive(Debug, Drop)]
pub enum Answer {
    Text(List<u8>, Grade),
    Refused(Refusal),
}
