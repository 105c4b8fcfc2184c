// What an own block offers, and how its owner changes it.
ghost use Rattle.std.specs.Prelude.{◌≡◌, ℕ, None, MatchResult};
ghost use Rattle.faults.specs.Refusals.{first, refusal};
ghost use Rattle.offers.specs.Faults.{block_number, set_row, grade_row};
ghost use Rattle.offers.specs.Offers.{offer_of};
ghost use Rattle.offers.specs.Own.{own_means, OnlyAt};
ghost use Rattle.std.proofs.Common.{rules};

use super::OwnBlock;
use crate::fault::BlockFault;
use crate::offer::Offer;
use crate::ranges::{checked_distortion, checked_grade, checked_rate};
use crate::source::Source;

impl OwnBlock {
    // A block that offers nothing.
    pub fn new() -> OwnBlock
        ensures { (grade : ℕ) → own_means result grade ≡ None }
    {
        OwnBlock { offers: [None; 16] }
    }

    // Sets the offer of one grade.
    pub fn set(&mut self, grade: u8, rate: u32, distortion: u32) -> Result<(), BlockFault>
        ensures refused { refusal block_number result ≡ first (set_row grade rate distortion) }
        ensures left { MatchResult result (λ _. OnlyAt self.old self.new grade (offer_of rate distortion)) (λ _. self.new ≡ self.old) }
    {
        let at = checked_grade(grade)?;
        let rate = checked_rate(rate)?;
        let distortion = checked_distortion(distortion)?;
        self.offers[at] = Offer::new(rate, distortion as u64);
        Ok(())
    }

    // Takes the offer of one grade away.
    pub fn clear(&mut self, grade: u8) -> Result<(), BlockFault>
        ensures refused { refusal block_number result ≡ first (grade_row grade) }
        ensures left { MatchResult result (λ _. OnlyAt self.old self.new grade None) (λ _. self.new ≡ self.old) }
    {
        let at = checked_grade(grade)?;
        self.offers[at] = None;
        Ok(())
    }
}

impl Source for OwnBlock {
    ghost means = { own_means };

    ghost none_past = { Prim.search rules };

    ghost in_range = { Prim.search rules };

    fn offer(&self, grade: u8) -> Option<Offer> {
        *self.offers.get(grade as usize)?
    }
}
