// The planner.
ghost use Rattle.std.specs.Prelude.{◌≡◌, ◌*◌, ◌≤◌, [], reverse, length, take, MatchResult};
ghost use Rattle.faults.specs.Refusals.{first, refusal};
ghost use Rattle.offers.specs.Offers.{offers_below};
ghost use Rattle.terms.specs.Rules.{rules_of};
ghost use Rattle.planner.specs.Faults.{planner_number, add_row, take_back_row, plan_row};
ghost use Rattle.planner.specs.Layout.{size_of};
ghost use Rattle.planner.specs.Standing.{standing_blocks, block_count, Sound, Added, Dropped, Unchanged};
ghost use Rattle.planner.specs.Answers.{FewestOf, Planned, OnlyRefuses, PlanFrame};

use crate::column::write_block;
use crate::fault::PlannerFault;
use crate::sizes::size;
use crate::tables::Tables;
use arrayvec::ArrayVec;
use costs::Kind;
use offers::{Source, offers_below};
use terms::Terms;
use trellis::Place;

mod walk;

// A planner over lent places. It holds no cost beside them. At most 64 blocks stand, and their places hold what they should,
// whatever was called before. The clauses `same` say that the slice is still the caller's own, so that the caller knows what its
// memory holds when the planner ends.
#[derive(Drop)]
pub struct Planner<'a, K: Kind> {
    tables: Tables,
    places: &'a mut [Place<K>],
    ghost few: { block_count tables ≤ 64 },
    ghost fits: { block_count tables * size_of tables.terms ≤ length places.now },
    ghost sound: { Sound K.Kind.model tables places.now },
}

impl<'a, K: Kind> Planner<'a, K> {
    // A planner with no block, whatever the places hold and however many they are.
    pub fn open(terms: Terms, places: &'a mut [Place<K>]) -> Self
        ensures terms { result.tables.terms ≡ terms }
        ensures standing { standing_blocks result.tables ≡ [] }
        ensures places { result.places.now ≡ places.old }
        ensures same { result.places.ghost_name ≡ places.entry.ghost_name }
    {
        let tables = Tables {
            terms,
            blocks: ArrayVec::new(),
        };
        Planner { tables, places }
    }

    // Asks the source for its offers below the number of grades, and adds them as the last block.
    pub fn add<S: Source>(&mut self, source: &S) -> Result<(), PlannerFault>
        ensures refused { refusal planner_number result ≡ first (add_row self.old.tables.terms (length self.old.places.now) (block_count self.old.tables) (offers_below (S.Source.means source.now) self.old.tables.terms.grades)) }
        ensures left { MatchResult result
            (λ _. Added K.Kind.model (offers_below (S.Source.means source.now) self.old.tables.terms.grades) self.old.tables self.new.tables self.old.places.now self.new.places.now)
            (λ _. Unchanged self.old.tables self.new.tables self.old.places.now self.new.places.now) }
        ensures long { length self.new.places.now ≡ length self.old.places.now }
        ensures same { self.new.places.ghost_name ≡ self.old.places.ghost_name }
    {
        if self.tables.blocks.is_full() {
            return Err(PlannerFault::TooManyBlocks);
        }
        let size = size(&self.tables.terms);
        let base = self.standing() * size;
        if base + size > self.places.len() {
            return Err(PlannerFault::TooFewPlaces);
        }
        let block = offers_below(source, self.tables.terms.grades());
        let places = std::mem::take(&mut self.places);
        write_block(&self.tables.terms, places, base, &block);
        self.places = places;
        self.tables.blocks.push(block);
        Ok(())
    }

    // Takes the last block back. No place is written.
    pub fn take_back(&mut self) -> Result<(), PlannerFault>
        ensures refused { refusal planner_number result ≡ first (take_back_row (block_count self.old.tables)) }
        ensures left { MatchResult result (λ _. Dropped self.old.tables self.new.tables) (λ _. self.new.tables ≡ self.old.tables) }
        ensures places { self.new.places.now ≡ self.old.places.now }
        ensures same { self.new.places.ghost_name ≡ self.old.places.ghost_name }
    {
        self.tables.blocks.pop().ok_or(PlannerFault::NoBlock)?;
        Ok(())
    }

    // The plan for a budget: its bits and its cost, and its grades in the first entries of the list.
    pub fn plan(&self, budget: u32, grades: &mut [u8]) -> Result<(u32, K), PlannerFault>
        ensures frame { PlanFrame (plan_row self.now.tables.terms (block_count self.now.tables) budget (length grades.old)) (block_count self.now.tables) grades.old grades.new result }
        ensures answer { Planned K.Kind.model (rules_of self.now.tables.terms) (standing_blocks self.now.tables) budget (reverse (take (block_count self.now.tables) grades.new)) result }
    {
        if budget > self.tables.terms.ceiling() {
            return Err(PlannerFault::OverCeiling);
        }
        if grades.len() < self.standing() {
            return Err(PlannerFault::ShortList);
        }
        let Some(newest) = self.newest() else {
            return Ok((0, K::start()));
        };
        let Some(end) = self.stage(newest).best_end(budget as usize) else {
            return Err(PlannerFault::NothingFits);
        };
        self.walk_back(newest, end, grades);
        Ok((end.bits as u32, end.cost))
    }

    // The fewest bits at which a choice is within the bound.
    pub fn fewest(&self, bound: K) -> Result<u32, PlannerFault>
        ensures refused { OnlyRefuses 36 result }
        ensures answer { FewestOf K.Kind.model (rules_of self.now.tables.terms) self.now.tables.terms.ceiling (standing_blocks self.now.tables) bound result }
    {
        let fewest = match self.newest() {
            Some(newest) => self.stage(newest).first_within(bound),
            None => K::start().no_dearer(bound).then_some(0),
        };
        fewest.ok_or(PlannerFault::NoneWithin)
    }

    // The terms that it plans under.
    pub fn terms(&self) -> Terms
        ensures { result ≡ self.now.tables.terms }
    {
        self.tables.terms
    }

    // How many blocks stand.
    pub fn standing(&self) -> usize
        ensures standing { result ≡ length (standing_blocks self.now.tables) }
        ensures few { result ≤ 64 }
    {
        self.tables.blocks.len()
    }
}
