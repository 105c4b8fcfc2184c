// The two photographs, with their terms.
ghost use Rattle.std.specs.Prelude.{◌≡◌, ℕ, ◌<◌, [], ◌∷◌, IfOk, if◌then◌else◌, nat_eq};
ghost use Rattle.offers.specs.Offers.{offers_below};
ghost use Rattle.terms.specs.Rules.{Fresh, charge_at};
ghost use Rattle.count.specs.Photographs.{two_offers, layered_offers};

use offers::{Block, BlockFault, Change, Extra, GainBlock, OwnBlock, Weight, offers_below};
use terms::{Terms, TermsFault};

// Two grades, ceiling 10, and 2 bits for each change.
pub fn worked_terms() -> Result<Terms, TermsFault>
    ensures { IfOk result (λ terms. (terms.grades ≡ 2) × (terms.ceiling ≡ 10) × ((from to : ℕ) → from < 16 → to < 16 → charge_at terms from to ≡ (if nat_eq from to then 0 else 2))) }
{
    Terms::flat(2, 10, 2)
}

// An own block with two grades.
fn two_grades(terms: &Terms, coarse: (u32, u32), fine: (u32, u32)) -> Result<Block, BlockFault>
    ensures { IfOk result (λ block. block ≡ offers_below (two_offers coarse fine) terms.now.grades) }
{
    let mut block = OwnBlock::new();
    block.set(0, coarse.0, coarse.1)?;
    block.set(1, fine.0, fine.1)?;
    Ok(offers_below(&block, terms.grades()))
}

// 1 bit for 9 or 4 bits for 1, then 1 bit for 5 or 3 bits for 2.
pub fn worked_photograph(terms: &Terms) -> Result<[Block; 2], BlockFault>
    ensures { IfOk result (λ blocks. blocks ≡ offers_below (two_offers (1, 9) (4, 1)) terms.now.grades ∷ offers_below (two_offers (1, 5) (3, 2)) terms.now.grades ∷ []) }
{
    let first = two_grades(terms, (1, 9), (4, 1))?;
    let second = two_grades(terms, (1, 5), (3, 2))?;
    Ok([first, second])
}

// Four grades, ceiling 400, and 6 bits for each change but 9 from grade 3 to grade 0.
pub fn gain_terms() -> Result<Terms, TermsFault>
    ensures { IfOk result (λ terms. (terms.grades ≡ 4) × (terms.ceiling ≡ 400)) }
{
    let mut terms = Terms::flat(4, 400, 6)?;
    terms.set_pair(3, 0, 9)?;
    Ok(terms)
}

// A gain block and the layers piled on it.
#[derive(Clone, Copy)]
pub struct Pile {
    pub weight: Weight,
    pub extra: Extra,
    pub gain: GainBlock,
}

impl Pile {
    fn new(weight: u32, extra: u32, samples: u32, gain: u32) -> Result<Pile, BlockFault>
        ensures { IfOk result (λ block. (block.weight.times ≡ weight) × (block.extra.bits ≡ extra) × (block.gain.samples ≡ samples) × (block.gain.gain ≡ gain)) }
    {
        let weight = Weight::new(weight)?;
        let extra = Extra::new(extra)?;
        let gain = GainBlock::new(samples, gain)?;
        Ok(Pile {
            weight,
            extra,
            gain,
        })
    }

    // The offers through the extra bits and then the weight.
    pub fn block(&self, terms: &Terms) -> Block
        ensures { result ≡ offers_below (layered_offers self.now.weight self.now.extra self.now.gain) terms.now.grades }
    {
        let source = self.weight.over(self.extra.over(self.gain));
        offers_below(&source, terms.grades())
    }
}

pub(crate) fn gain_layers() -> Result<[Pile; 3], BlockFault> {
    let first = Pile::new(2, 3, 8, 128)?;
    let second = Pile::new(1, 0, 8, 1)?;
    let third = Pile::new(255, 1023, 3, 1)?;
    Ok([first, second, third])
}
