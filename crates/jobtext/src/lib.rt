// The text of a job: its lines, the fields of a line, and what a field can be.
#![tactic(auto)]

mod fault;
mod kind;
mod lines;
mod numbers;
mod parts;
mod token;

pub use crate::fault::TextFault;
pub use crate::kind::{LineKind, line_kind};
pub use crate::lines::Lines;
pub use crate::numbers::number;
pub use crate::parts::{field, field_count};
pub use crate::token::{Token, letter_at, token_at};
