// Searches over the places of a block.
ghost use Rattle.std.specs.Prelude.{◌≡◌, ◌<◌, ◌≤◌, true, false};
ghost use Rattle.planner.specs.Search.{FirstWithin, Leads, LowestLeads, better, Seen};

use crate::end::End;
use crate::sizes::{bits_into, width};
use crate::stage::Stage;
use costs::Kind;
use offers::Offer;

// The better of two ends; the older one where they rank alike.
fn better<K: Kind>(best: Option<End<K>>, new: End<K>) -> Option<End<K>>
    ensures { result ≡ better K.Kind.model best new }
{
    match best {
        Some(end) if end.cost.no_dearer(new.cost) => Some(end),
        _ => Some(new),
    }
}

impl<'a, K: Kind> Stage<'a, K> {
    // The fewest bits at which a place is reached and within the bound. (Two loops that a label leaves: the form was asked for.)
    pub(crate) fn first_within(&self, bound: K) -> Option<u32>
        ensures { FirstWithin K.Kind.model self.now.terms.now self.now.places.now bound result }
    {
        let grades = self.terms.grades();
        let mut fewest = None;
        'seek: for bits in 0..width(self.terms) {
            for grade in 0..grades {
                let place = self.at(grade, bits);
                if place.reached && place.cost.no_dearer(bound) {
                    fewest = Some(bits as u32);
                    break 'seek;
                }
            }
        }
        fewest
    }

    // The reached place within the budget of least cost, then fewest bits, then lowest grade.
    pub(crate) fn best_end(&self, budget: usize) -> Option<End<K>>
        requires { budget ≤ self.now.terms.now.ceiling }
        ensures { Seen K.Kind.model self.now.terms.now self.now.places.now (λ b g. (b ≤ budget) × (g < self.now.terms.now.grades)) result }
    {
        let grades = self.terms.grades();
        let mut best = None;
        for bits in 0..budget + 1 {
            for grade in 0..grades {
                let place = self.at(grade, bits);
                if place.reached {
                    let cost = place.cost;
                    best = better(best, End { bits, grade, cost });
                }
            }
        }
        best
    }

    // Whether the place of an earlier grade leads to the end.
    fn leads(&self, end: End<K>, offer: Offer, earlier: u8) -> bool
        requires grade { end.grade < self.now.terms.now.grades }
        requires bits { end.bits ≤ self.now.terms.now.ceiling }
        requires earlier { earlier < self.now.terms.now.grades }
        ensures does { result ≡ true → Leads K.Kind.model self.now.terms.now self.now.places.now end offer earlier }
        ensures not { result ≡ false → Leads K.Kind.model self.now.terms.now self.now.places.now end offer earlier → ⊥ }
    {
        let step = bits_into(self.terms, Some(earlier), end.grade, offer);
        let Some(bits) = end.bits.checked_sub(step) else {
            return false;
        };
        let Some(cost) = self.at(earlier, bits).kept() else {
            return false;
        };
        cost.join(offer.distortion()).no_dearer(end.cost)
    }

    // The lowest earlier grade whose place leads to the end. (A loop: of `find` over the grades the proof did not close.)
    pub(crate) fn grade_before(&self, end: End<K>, offer: Offer) -> Option<u8>
        requires grade { end.grade < self.now.terms.now.grades }
        requires bits { end.bits ≤ self.now.terms.now.ceiling }
        ensures { LowestLeads K.Kind.model self.now.terms.now self.now.places.now end offer result }
    {
        for earlier in 0..self.terms.grades() {
            if self.leads(end, offer, earlier) {
                return Some(earlier);
            }
        }
        None
    }
}
