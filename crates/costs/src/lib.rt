// Cost kinds: what a choice of grades costs, and how costs rank.
#![tactic(auto)]

mod kind;
mod no_kind;
mod numbered;
mod total;
mod worst;

pub use crate::kind::Kind;
pub use crate::no_kind::{TurnedRound, WorstThenTotal, worst_then_total_is_no_kind};
pub use crate::numbered::Numbered;
pub use crate::total::Total;
pub use crate::worst::Worst;
