// A source of offers: for each grade from 0 to 15 an offer or none.
ghost use Rattle.std.specs.Prelude.{◌≡◌, ℕ, ◌≤◌, Some, None, Option};
ghost use Rattle.offers.specs.declared.offer.Offer.{Offer};
ghost use Rattle.offers.specs.Offers.{InRange, offers_below};

use crate::offer::Offer;

// What a block offers, by grade.
pub type Block = [Option<Offer>; 16];

pub trait Source {
    // what the source means: the offer of each grade
    ghost means: { Self → ℕ → Option Offer };

    // The one question: exactly what the source means at the grade. Asking changes nothing.
    fn offer(&self, grade: u8) -> Option<Offer>
        ensures { result ≡ means self.now grade };

    ghost none_past: { (source : Self) (grade : ℕ) → 16 ≤ grade → means source grade ≡ None };

    ghost in_range: { (source : Self) (grade : ℕ) (offer : Offer) → means source grade ≡ Some offer → InRange offer };
}

// The offers of a source below a number of grades, by grade; none from there on.
pub fn offers_below<S: Source>(source: &S, grades: u8) -> Block
    ensures { result ≡ offers_below (S.Source.means source.now) grades }
{
    std::array::from_fn(|grade| {
        let grade = grade as u8;
        if grade < grades {
            source.offer(grade)
        } else {
            None
        }
    })
}
