// Terms of planning, and the bits and the cost of a choice of grades under them.
#![tactic(auto)]

mod choice;
mod fault;
mod ranges;
mod terms;
mod worked;

pub use crate::choice::count_choice;
pub use crate::fault::TermsFault;
pub use crate::ranges::{checked_ceiling, checked_charge, checked_grades};
pub use crate::terms::Terms;
pub use crate::worked::worked_values;
