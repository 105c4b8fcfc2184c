// A block whose owner sets the offer of each grade.
ghost use Rattle.offers.specs.Offers.{Ranged};

use crate::offer::Offer;

#[derive(Clone, Copy)]
pub struct OwnBlock {
    offers: [Option<Offer>; 16],
    ghost ranged: { Ranged offers },
}

pub mod calls;
