// One line of a job text as one command, or its fault.
#![tactic(auto)]

mod blocks;
mod commands;
mod fault;
mod fields;
mod frame;
mod lines;
mod reading;

pub use crate::commands::{Command, CostKind};
pub use crate::fault::{FieldFault, LineFault};
pub use crate::reading::read_command;
