// The trellis: places, the costs that they keep, and the plan that is named for some blocks and a budget.
#![tactic(auto)]

mod named;
mod place;

pub use crate::named::named_plan;
pub use crate::place::Place;
