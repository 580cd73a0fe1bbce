//! What a line of an answer or of a fault is: its text and its status, each once.
//! The layers above make answers of the lines of claims and samples, and write the lines of faults.
#![tactic(auto)]

mod answer;
mod claim;
mod fault;
mod law;
mod reason;
mod refusal;
mod sample;
mod status;
mod version;

pub use answer::Answer;
pub use claim::{callee_line, line};
pub use fault::Fault;
pub use law::memory_is_apart;
pub use reason::{key_text, lack_text, limit_text, reason_text, why_text};
pub use refusal::{Limit, Reason, Refusal, walk_refusal};
pub use sample::{SampleEnd, energy_line, sample_lines};
pub use status::{Grade, Status};
pub use version::version_line;
