// A whole job text to all its answer lines.
#![tactic(auto)]

mod answer;
mod fault;
mod kind;
mod numbered;
mod open_job;
mod reply;
mod say;

pub use crate::answer::{LONGEST_TEXT, answer_text};
