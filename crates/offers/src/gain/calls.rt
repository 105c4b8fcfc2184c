// A gain block offers every grade.
ghost use Rattle.std.specs.Prelude.{◌≡◌, IfOk};
ghost use Rattle.faults.specs.Refusals.{first, refusal};
ghost use Rattle.offers.specs.Faults.{block_number, gain_block_row};
ghost use Rattle.offers.specs.Gain.{gain_means};
ghost use Rattle.offers.specs.InRange.{gain_ranged};
ghost use Rattle.std.proofs.Common.{rules};

use super::GainBlock;
use crate::fault::BlockFault;
use crate::levels::Levels;
use crate::offer::Offer;
use crate::ranges::{checked_gain, checked_samples};
use crate::source::Source;

impl GainBlock {
    pub fn new(samples: u32, gain: u32) -> Result<GainBlock, BlockFault>
        ensures refused { refusal block_number result ≡ first (gain_block_row samples gain) }
        ensures holds { IfOk result (λ block. (block.samples ≡ samples) × (block.gain ≡ gain)) }
    {
        let samples = checked_samples(samples)?;
        let gain = checked_gain(gain)?;
        Ok(GainBlock { samples, gain })
    }

    pub fn samples(self) -> u32
        ensures { result ≡ self.samples }
    {
        self.samples
    }

    pub fn gain(self) -> u32
        ensures { result ≡ self.gain }
    {
        self.gain
    }
}

impl Source for GainBlock {
    ghost means = { gain_means };

    ghost none_past = { Prim.search rules };

    ghost in_range = { gain_ranged };

    fn offer(&self, grade: u8) -> Option<Offer> {
        let levels = Levels::of(grade)?;
        let rate = levels.rate(self.samples) as u32;
        let distortion = self.gain * levels.profile();
        Offer::new(rate, distortion as u64)
    }
}
