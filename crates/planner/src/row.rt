// Writing one row of places: those of a grade of a new block, one for each number of bits.
ghost use Rattle.std.specs.Prelude.{◌≡◌, ℕ, ◌+◌, ◌<◌, ◌≤◌, List, [], ◌∷◌, length, Some, slice_index_or};
ghost use Rattle.terms.specs.Choice.{Block, offer_at};
ghost use Rattle.trellis.specs.Places.{relaxed, unreached};
ghost use Rattle.planner.specs.Layout.{width_of, Column, PlaceRow};

use crate::sizes::bits_into;
use crate::stage::Stage;
use costs::Kind;
use offers::Offer;
use terms::Terms;
use trellis::Place;

// Marks every place of a row unreached.
pub(crate) fn clear_row<K: Kind>(row: &mut [Place<K>])
    ensures { (b : ℕ) → b < length row.old → slice_index_or row.new b (unreached K.Kind.model) ≡ unreached K.Kind.model }
{
    for place in row.iter_mut() {
        *place = Place::unreached();
    }
}

// Relaxes a row by the row of one earlier grade, whose places lie `step` bits lower. (By index: of what is written through `zip`
// over `iter_mut` a proof knows nothing.)
fn relax_row<K: Kind>(row: &mut [Place<K>], earlier: &[Place<K>], step: usize, distortion: u32)
    requires { length earlier.now ≡ length row.old }
    ensures before { (k : ℕ) → k < step → slice_index_or row.new k (unreached K.Kind.model) ≡ slice_index_or row.old k (unreached K.Kind.model) }
    ensures row { (b : ℕ) → b + step < length row.old → slice_index_or row.new (b + step) (unreached K.Kind.model) ≡ relaxed K.Kind.model distortion (slice_index_or row.old (b + step) (unreached K.Kind.model)) (slice_index_or earlier.now b (unreached K.Kind.model)) }
{
    for bits in step..row.len() {
        let source = earlier[bits - step];
        let target = row[bits];
        row[bits] = target.relaxed(source, distortion);
    }
}

// Relaxes a row of unreached places by every grade of the block before.
pub(crate) fn reach_row<K: Kind>(prior: &Stage<K>, row: &mut [Place<K>], grade: u8, offer: Offer)
    requires grade { grade < prior.now.terms.now.grades }
    requires long { length row.old ≡ width_of prior.now.terms.now }
    requires clear { (b : ℕ) → b < length row.old → slice_index_or row.old b (unreached K.Kind.model) ≡ unreached K.Kind.model }
    ensures { (block : Block) (newest : Block) (blocks : List Block) → offer_at block grade ≡ Some offer → Column K.Kind.model prior.now.terms.now (newest ∷ blocks) prior.now.places.now → PlaceRow K.Kind.model prior.now.terms.now (block ∷ newest ∷ blocks) grade row.new }
{
    for earlier in 0..prior.terms.grades() {
        let step = bits_into(prior.terms, Some(earlier), grade, offer);
        relax_row(row, prior.row(earlier), step, offer.distortion());
    }
}

// Reaches the one place of a first block in a row of unreached places, where its bits are through the ceiling.
pub(crate) fn first_row<K: Kind>(terms: &Terms, row: &mut [Place<K>], grade: u8, offer: Offer)
    requires grade { grade < terms.now.grades }
    requires long { length row.old ≡ width_of terms.now }
    requires clear { (b : ℕ) → b < length row.old → slice_index_or row.old b (unreached K.Kind.model) ≡ unreached K.Kind.model }
    ensures { (block : Block) → offer_at block grade ≡ Some offer → PlaceRow K.Kind.model terms.now (block ∷ []) grade row.new }
{
    let bits = bits_into(terms, None, grade, offer);
    if bits < row.len() {
        row[bits] = Place {
            reached: true,
            cost: K::start().join(offer.distortion()),
        };
    }
}
