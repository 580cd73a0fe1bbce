//! Numbers, spans, operators and lists that every crate of the verifier shares.
#![tactic(auto)]

mod atto;
mod conj;
mod decimal;
mod list;
mod name;
mod op;
mod rounded;
mod span;
mod var_set;
mod word;

pub use atto::{Atto, NumFault};
pub use conj::Conj;
pub use list::List;
pub use name::{is_digit, is_letter, is_name, is_name_byte, is_reserved};
pub use op::Op;
pub use rounded::{hi_pow, lo_pow, mul_hi, mul_lo};
pub use span::Span;
pub use var_set::{VarSet, empty_set_has_none};
pub use word::Word;
