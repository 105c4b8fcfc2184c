// How many places a grade and a block take, and the bits of a step.
ghost use Rattle.std.specs.Prelude.{◌≡◌, ◌+◌, ◌≤◌};
ghost use Rattle.terms.specs.Rules.{rules_of, charge_into};
ghost use Rattle.planner.specs.Layout.{width_of, size_of};

use offers::Offer;
use terms::Terms;

// The places of one grade of a block: one for each number of bits through the ceiling.
pub(crate) fn width(terms: &Terms) -> usize
    ensures is { result ≡ width_of terms.now }
    ensures some { 1 ≤ result }
    ensures few { result ≤ 4096 }
{
    terms.ceiling() as usize + 1
}

// The places of a block.
pub(crate) fn size(terms: &Terms) -> usize
    ensures is { result ≡ size_of terms.now }
    ensures some { 1 ≤ result }
    ensures few { result ≤ 65536 }
{
    usize::from(terms.grades()) * width(terms)
}

// The bits that a block of this grade adds: the charge into the grade, and its rate.
pub(crate) fn bits_into(terms: &Terms, before: Option<u8>, grade: u8, offer: Offer) -> usize
    ensures { result ≡ charge_into (rules_of terms.now) before grade + offer.rate }
{
    terms.charge_into(before, grade) as usize + usize::from(offer.rate())
}
