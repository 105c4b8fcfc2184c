// The walk back from an end of the last block.
ghost use Rattle.std.specs.Prelude.{◌≡◌, ℕ, ◌+◌, ◌-◌, ◌<◌, ◌≤◌, List, ◌∷◌, reverse, length, take, slice_index, MatchOption};
ghost use Rattle.terms.specs.Rules.{rules_of};
ghost use Rattle.trellis.specs.Named.{Kept, WayBack};
ghost use Rattle.planner.specs.Layout.{Column};
ghost use Rattle.planner.specs.Standing.{block_count, blocks_to};

use super::Planner;
use crate::end::End;
use crate::sizes::{bits_into, size};
use crate::stage::Stage;
use costs::Kind;
use trellis::Place;

impl<'a, K: Kind> Planner<'a, K> {
    // The last of the standing blocks, counted from 0.
    pub(super) fn newest(&self) -> Option<usize>
        ensures { MatchOption result (block_count self.now.tables ≡ 0) (λ n. n + 1 ≡ block_count self.now.tables) }
    {
        self.tables.blocks.len().checked_sub(1)
    }

    // The places of block n.
    pub(super) fn stage(&self, n: usize) -> Stage<'_, K>
        requires { n < block_count self.now.tables }
        ensures terms { result.terms.now ≡ self.now.tables.terms }
        ensures holds { Column K.Kind.model self.now.tables.terms (blocks_to self.now.tables n) result.places.now }
    {
        let terms = &self.tables.terms;
        let size = size(terms);
        let places: &[Place<K>] = self.places;
        Stage {
            terms,
            places: &places[n * size..n * size + size],
        }
    }

    // The end of the block before block n, on the way back from an end of block n.
    fn step_back(&self, n: usize, end: End<K>) -> End<K>
        requires later { 0 < n }
        requires stands { n < block_count self.now.tables }
        requires grade { end.grade < self.now.tables.terms.grades }
        requires bits { end.bits ≤ self.now.tables.terms.ceiling }
        requires kept { Kept K.Kind.model (rules_of self.now.tables.terms) (blocks_to self.now.tables n) end.grade end.bits end.cost }
        ensures grade { result.grade < self.now.tables.terms.grades }
        ensures bits { result.bits ≤ self.now.tables.terms.ceiling }
        ensures kept { Kept K.Kind.model (rules_of self.now.tables.terms) (blocks_to self.now.tables (n - 1)) result.grade result.bits result.cost }
        ensures back { (gs : List ℕ) → WayBack K.Kind.model (rules_of self.now.tables.terms) (blocks_to self.now.tables (n - 1)) (result.grade ∷ gs) result.bits result.cost → WayBack K.Kind.model (rules_of self.now.tables.terms) (blocks_to self.now.tables n) (end.grade ∷ result.grade ∷ gs) end.bits end.cost }
    {
        let offer = self.tables.blocks[n][usize::from(end.grade)].unwrap();
        let prior = self.stage(n - 1);
        let grade = prior.grade_before(end, offer).unwrap();
        let bits = end.bits - bits_into(&self.tables.terms, Some(grade), end.grade, offer);
        let cost = prior.at(grade, bits).cost;
        End { bits, grade, cost }
    }

    // Writes the grades of the way back from an end of block n into the list, one for each block up to it.
    pub(super) fn walk_back(&self, n: usize, end: End<K>, grades: &mut [u8])
        requires stands { n < block_count self.now.tables }
        requires long { n < length grades.old }
        requires grade { end.grade < self.now.tables.terms.grades }
        requires bits { end.bits ≤ self.now.tables.terms.ceiling }
        requires kept { Kept K.Kind.model (rules_of self.now.tables.terms) (blocks_to self.now.tables n) end.grade end.bits end.cost }
        ensures later { (k : ℕ) → n < k → slice_index grades.new k ≡ slice_index grades.old k }
        ensures last { slice_index grades.new n ≡ end.grade }
        ensures way { WayBack K.Kind.model (rules_of self.now.tables.terms) (blocks_to self.now.tables n) (reverse (take (n + 1) grades.new)) end.bits end.cost }
    {
        grades[n] = end.grade;
        if n > 0 {
            let before = self.step_back(n, end);
            self.walk_back(n - 1, before, grades);
        }
    }
}
