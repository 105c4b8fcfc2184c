// The places of one block, for reading.
ghost use Rattle.std.specs.Prelude.{◌≡◌, ◌+◌, ◌-◌, ◌*◌, ◌<◌, ◌≤◌, length, drop, slice_range, MatchOption};
ghost use Rattle.planner.specs.Layout.{width_of, size_of, place_in};

use crate::sizes::{size, width};
use costs::Kind;
use terms::Terms;
use trellis::Place;

// The stage of the trellis that belongs to one block: a row of places for each grade, and in it a place for each number of bits
// through the ceiling.
#[derive(Drop)]
pub(crate) struct Stage<'a, K: Kind> {
    pub(crate) terms: &'a Terms,
    pub(crate) places: &'a [Place<K>],
    ghost whole: { length places.now ≡ size_of terms.now },
}

impl<'a, K: Kind> Stage<'a, K> {
    // The stage that some places end with; none where they are fewer.
    pub(crate) fn last_of(terms: &'a Terms, places: &'a [Place<K>]) -> Option<Stage<'a, K>>
        ensures { MatchOption result (length places.now < size_of terms.now) (λ stage. (size_of terms.now ≤ length places.now) × (stage.terms.now ≡ terms.now) × (stage.places.now ≡ drop (length places.now - size_of terms.now) places.now)) }
    {
        let at = places.len().checked_sub(size(terms))?;
        Some(Stage {
            terms,
            places: &places[at..],
        })
    }

    // The places of a grade.
    pub(crate) fn row(&self, grade: u8) -> &[Place<K>]
        requires { grade < self.now.terms.now.grades }
        ensures long { length result.now ≡ width_of self.now.terms.now }
        ensures part { result.now ≡ slice_range self.now.places.now (grade * width_of self.now.terms.now) (grade * width_of self.now.terms.now + width_of self.now.terms.now) }
    {
        let width = width(self.terms);
        let at = usize::from(grade) * width;
        &self.places[at..at + width]
    }

    // The place of a grade and a number of bits.
    pub(crate) fn at(&self, grade: u8, bits: usize) -> Place<K>
        requires grade { grade < self.now.terms.now.grades }
        requires bits { bits ≤ self.now.terms.now.ceiling }
        ensures { result ≡ place_in K.Kind.model self.now.terms.now self.now.places.now grade bits }
    {
        let places = self.places;
        places[usize::from(grade) * width(self.terms) + bits]
    }
}
