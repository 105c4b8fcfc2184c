// Writing the column of places of a new block.
ghost use Rattle.std.specs.Prelude.{◌≡◌, ℕ, ◌+◌, ◌-◌, ◌*◌, ◌<◌, ◌≤◌, List, [], ◌∷◌, length, drop, slice_index_or, MatchOption};
ghost use Rattle.terms.specs.Choice.{Block as Offers, offer_at};
ghost use Rattle.trellis.specs.Places.{unreached};
ghost use Rattle.planner.specs.Layout.{size_of, width_of, Outside, Column, PlaceRow};

use crate::row::{clear_row, first_row, reach_row};
use crate::sizes::width;
use crate::stage::Stage;
use costs::Kind;
use offers::{Block, Offer};
use terms::Terms;
use trellis::Place;

// Writes the row of one grade of a new block. A grade that is not offered is marked before any earlier grade is looked at.
fn write_row<K: Kind>(
    terms: &Terms,
    prior: &Option<Stage<K>>,
    row: &mut [Place<K>],
    grade: u8,
    offer: Option<Offer>,
)
    requires grade { grade < terms.now.grades }
    requires long { length row.old ≡ width_of terms.now }
    requires same { MatchOption prior.now (Unit {0}) (λ stage. stage.terms.now ≡ terms.now) }
    ensures { (block : Offers) (blocks : List Offers) → offer_at block grade ≡ offer → MatchOption prior.now (blocks ≡ []) (λ stage. (0 < length blocks) × Column K.Kind.model terms.now blocks stage.places.now) → PlaceRow K.Kind.model terms.now (block ∷ blocks) grade row.new }
{
    clear_row(row);
    let Some(offer) = offer else {
        return;
    };
    match prior {
        Some(prior) => reach_row(prior, row, grade, offer),
        None => first_row(terms, row, grade, offer),
    }
}

// Writes the column of a new block, which lies first, by the stage of the block before, where there is one. (Rows by index, as
// nothing is known of what is written through `chunks_exact_mut`.)
fn write_column<K: Kind>(
    terms: &Terms,
    prior: &Option<Stage<K>>,
    column: &mut [Place<K>],
    offers: &Block,
)
    requires long { size_of terms.now ≤ length column.old }
    requires same { MatchOption prior.now (Unit {0}) (λ stage. stage.terms.now ≡ terms.now) }
    ensures later { (k : ℕ) → size_of terms.now ≤ k → slice_index_or column.new k (unreached K.Kind.model) ≡ slice_index_or column.old k (unreached K.Kind.model) }
    ensures column { (blocks : List Offers) → MatchOption prior.now (blocks ≡ []) (λ stage. (0 < length blocks) × Column K.Kind.model terms.now blocks stage.places.now) → Column K.Kind.model terms.now (offers.now ∷ blocks) column.new }
{
    let width = width(terms);
    for grade in 0..terms.grades() {
        let at = usize::from(grade) * width;
        let offer = offers[usize::from(grade)];
        write_row(terms, prior, &mut column[at..at + width], grade, offer);
    }
}

// Writes the places of a new block above those of the blocks that stand, which end at `base`.
pub(crate) fn write_block<K: Kind>(
    terms: &Terms,
    places: &mut [Place<K>],
    base: usize,
    offers: &Block,
)
    requires { base + size_of terms.now ≤ length places.old }
    ensures outside { Outside K.Kind.model base (size_of terms.now) places.old places.new }
    ensures first { base ≡ 0 → Column K.Kind.model terms.now (offers.now ∷ []) (drop base places.new) }
    ensures above { (blocks : List Offers) → 0 < length blocks → size_of terms.now ≤ base → Column K.Kind.model terms.now blocks (drop (base - size_of terms.now) places.old) → Column K.Kind.model terms.now (offers.now ∷ blocks) (drop base places.new) }
{
    let (below, rest) = places.split_at_mut(base);
    let prior = Stage::last_of(terms, below);
    write_column(terms, &prior, rest, offers);
}
