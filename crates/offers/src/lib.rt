// What a block of a photograph offers: for each grade a rate and a distortion, or nothing.
#![tactic(auto)]

mod either_source;
mod fault;
mod gain;
mod layers;
mod levels;
mod offer;
mod own;
mod ranges;
mod source;

pub use crate::fault::BlockFault;
pub use crate::gain::GainBlock;
pub use crate::layers::{Change, Extended, Extra, Layered, Weight, Weighted};
pub use crate::levels::eighths_table;
pub use crate::offer::Offer;
pub use crate::own::OwnBlock;
pub use crate::ranges::{
    checked_distortion, checked_gain, checked_grade, checked_rate, checked_samples,
};
pub use crate::source::{Block, Source, offers_below};
pub use either::Either;
