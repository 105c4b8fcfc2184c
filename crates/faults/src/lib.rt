// What refusals share: the layer that each belongs to, its number, and the check of a number that has limits.
#![tactic(auto)]

mod fault;
mod layer;
mod limits;

pub use crate::fault::{Fault, refusal_number};
pub use crate::layer::Layer;
pub use crate::limits::Limits;
