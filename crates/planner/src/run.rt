// A whole run of a planner.
ghost use Rattle.std.specs.Prelude.{[], length};
ghost use Rattle.planner.specs.Runs.{after_calls, most_standing};
ghost use Rattle.planner.specs.Promise.{Promise};

use crate::call::{Call, Question};
use crate::fault::PlannerFault;
use crate::planner::Planner;
use costs::Kind;
use offers::Source;
use terms::Terms;
use trellis::Place;

// The two answers at the end of a run.
#[derive(Drop)]
pub struct Answers<K> {
    pub plan: Result<(u32, K), PlannerFault>,
    pub fewest: Result<u32, PlannerFault>,
}

// Asks a question and discards the answer. A plan goes into a list of its own, of which 64 entries are used at most.
fn ask<K: Kind>(planner: &Planner<K>, question: &Question<K>) {
    match question {
        Question::Plan { budget, entries } => {
            let mut grades = [0; 64];
            let used = (*entries).min(64);
            let _ = planner.plan(*budget, &mut grades[..used]);
        }
        Question::Fewest(bound) => {
            let _ = planner.fewest(*bound);
        }
    }
}

// Opens a planner over the places, makes the calls, refused ones included, and then asks for the plan at the budget into the
// grade list and for the fewest bits within the bound.
pub fn replay<K: Kind, S: Source>(
    terms: Terms,
    places: &mut [Place<K>],
    calls: &[Call<S, K>],
    budget: u32,
    bound: K,
    grades: &mut [u8],
) -> Answers<K>
    ensures { Promise K.Kind.model terms (after_calls S.Source.means terms (length places.old) calls.now []) (most_standing S.Source.means terms (length places.old) calls.now []) places.old places.new budget bound grades.old grades.new result.plan result.fewest }
{
    let mut planner = Planner::open(terms, places);
    for call in calls {
        match call {
            Call::Add(source) => {
                let _ = planner.add(source);
            }
            Call::TakeBack => {
                let _ = planner.take_back();
            }
            Call::Ask(question) => ask(&planner, question),
        }
    }
    let plan = planner.plan(budget, grades);
    let fewest = planner.fewest(bound);
    Answers { plan, fewest }
}
