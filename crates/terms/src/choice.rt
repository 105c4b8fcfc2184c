// Counting the bits and the cost of a choice of grades.
ghost use Rattle.std.specs.Prelude.{◌≡◌};
ghost use Rattle.terms.specs.Rules.{rules_of};
ghost use Rattle.terms.specs.Choice.{offered, Counted, CountsOnce};

use crate::terms::Terms;
use costs::Kind;
use offers::{Block, Offer};

// What a block offers at a grade below the number of grades.
fn offered(terms: &Terms, block: &Block, grade: u8) -> Option<Offer>
    ensures { result ≡ offered (rules_of terms.now) block.now grade }
{
    *block[..terms.grades() as usize].get(grade as usize)?
}

// The bits and the cost of the grades as a choice for the blocks; none where they are no choice, or for more than 64 blocks.
#[tactic(auto, using(crate::proofs::Counts::counts_once))]
pub fn count_choice<K: Kind>(terms: &Terms, blocks: &[Block], grades: &[u8]) -> Option<(u32, K)>
    ensures counted { Counted K.Kind.model (rules_of terms.now) blocks.now grades.now result }
    ensures once { CountsOnce K.Kind.model }
{
    if blocks.len() > 64 || grades.len() != blocks.len() {
        return None;
    }
    let mut before = None;
    let mut bits = 0;
    let mut cost = K::start();
    for (block, &grade) in blocks.iter().zip(grades) {
        let offer = offered(terms, block, grade)?;
        bits += terms.charge_into(before, grade) + offer.rate() as u32;
        cost = cost.join(offer.distortion());
        before = Some(grade);
    }
    Some((bits, cost))
}
