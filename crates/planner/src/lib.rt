// The planner: one grade for each block of a photograph, so that the bits are at most the budget and the cost is the least.
#![tactic(auto)]

mod call;
mod column;
mod end;
mod fault;
mod planner;
mod row;
mod run;
mod search;
mod sizes;
mod stage;
mod tables;

pub use crate::call::{Call, Question};
pub use crate::fault::PlannerFault;
pub use crate::planner::Planner;
pub use crate::run::{Answers, replay};
