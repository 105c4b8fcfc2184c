// Layers: sources that lie on any source and change its offers, a weight each distortion and extra bits each rate.
ghost use Rattle.std.specs.Prelude.{◌≡◌, ◌≤◌, Some, None, Option, IfOk};
ghost use Rattle.faults.specs.Refusals.{first, refusal};
ghost use Rattle.offers.specs.declared.offer.Offer.{Offer};
ghost use Rattle.offers.specs.Faults.{block_number, weight_row, extra_row};
ghost use Rattle.offers.specs.Offers.{InRange, weighted, extended};
ghost use Rattle.std.proofs.Common.{rules};

use crate::fault::BlockFault;
use crate::offer::Offer;
use crate::source::Source;
use faults::Limits;

const TIMES: Limits = Limits {
    least: 1,
    most: 255,
};

const BITS: Limits = Limits {
    least: 0,
    most: 1023,
};

pub trait Change: Sized {
    // what becomes of an offer or of none
    ghost changes: { Self → Option Offer → Option Offer };

    // What becomes of an offer: another, or none.
    fn change(&self, offer: Offer) -> Option<Offer>
        ensures { result ≡ changes self.now (Some offer) };

    // Lays the change on a source.
    fn over<S>(self, below: S) -> Layered<Self, S>
        ensures layer { result.layer ≡ self }
        ensures below { result.below ≡ below }
    {
        Layered { layer: self, below }
    }

    // none stays none
    ghost none_stays: { (change : Self) → changes change None ≡ None };

    ghost in_range: { (change : Self) (below : Option Offer) (offer : Offer) → changes change below ≡ Some offer → InRange offer };
}

// A source with a change laid on it.
#[derive(Clone, Copy, Drop)]
pub struct Layered<L, S> {
    layer: L,
    below: S,
}

impl<L: Change, S: Source> Source for Layered<L, S> {
    ghost means = { λ s grade. L.Change.changes s.layer (S.Source.means s.below grade) };

    ghost none_past = { Prim.search rules };

    ghost in_range = { λ s grade. L.Change.in_range s.layer (S.Source.means s.below grade) };

    fn offer(&self, grade: u8) -> Option<Offer> {
        self.layer.change(self.below.offer(grade)?)
    }
}

// A source with each distortion multiplied.
pub type Weighted<S> = Layered<Weight, S>;

// A source with bits added to each rate.
pub type Extended<S> = Layered<Extra, S>;

// A factor for each distortion.
#[derive(Clone, Copy)]
pub struct Weight {
    times: u32,
    ghost some: { 1 ≤ times },
    ghost small: { times ≤ 255 },
}

impl Weight {
    pub fn new(times: u32) -> Result<Weight, BlockFault>
        ensures refused { refusal block_number result ≡ first (weight_row times) }
        ensures holds { IfOk result (λ weight. weight.times ≡ times) }
    {
        let times = TIMES.check(times, BlockFault::WeightRange)?;
        Ok(Weight { times })
    }

    pub fn times(self) -> u32
        ensures { result ≡ self.times }
    {
        self.times
    }
}

impl Change for Weight {
    ghost changes = { λ weight. weighted weight.times };

    ghost none_stays = { Prim.search rules };

    ghost in_range = { Prim.search rules };

    fn change(&self, offer: Offer) -> Option<Offer> {
        let distortion = self.times as u64 * offer.distortion() as u64;
        Offer::new(offer.rate() as u32, distortion)
    }
}

// Bits on top of each rate.
#[derive(Clone, Copy)]
pub struct Extra {
    bits: u32,
    ghost small: { bits ≤ 1023 },
}

impl Extra {
    pub fn new(bits: u32) -> Result<Extra, BlockFault>
        ensures refused { refusal block_number result ≡ first (extra_row bits) }
        ensures holds { IfOk result (λ extra. extra.bits ≡ bits) }
    {
        let bits = BITS.check(bits, BlockFault::ExtraRange)?;
        Ok(Extra { bits })
    }

    pub fn bits(self) -> u32
        ensures { result ≡ self.bits }
    {
        self.bits
    }
}

impl Change for Extra {
    ghost changes = { λ extra. extended extra.bits };

    ghost none_stays = { Prim.search rules };

    ghost in_range = { Prim.search rules };

    fn change(&self, offer: Offer) -> Option<Offer> {
        let rate = offer.rate() as u32 + self.bits;
        Offer::new(rate, offer.distortion() as u64)
    }
}
