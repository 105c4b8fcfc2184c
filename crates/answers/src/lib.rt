// Answer lines: a plan, the fewest bits or a fault, each as one line of text in lent bytes.
#![tactic(auto)]

mod fault;
mod line;
mod lines;
mod sink;

pub use crate::fault::AnswerFault;
pub use crate::lines::{LONGEST, bits_line, fault_line, longest_line, plan_line};
