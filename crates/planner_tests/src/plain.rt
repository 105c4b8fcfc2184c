// Cost kinds and answers in plain numbers.
use costs::{Numbered, Total, Worst};
use faults::Fault;
use planner::{Planner, PlannerFault};

// A kind with a joining of its own, in plain numbers.
pub(crate) trait Plain: Numbered {
    fn plain_join(cost: u32, distortion: u32) -> u32;
}

impl Plain for Total {
    fn plain_join(cost: u32, distortion: u32) -> u32 {
        cost.saturating_add(distortion)
    }
}

impl Plain for Worst {
    fn plain_join(cost: u32, distortion: u32) -> u32 {
        cost.max(distortion)
    }
}

// Bits and cost, or the number of the refusal.
pub(crate) fn plan_numbers<K: Plain>(
    answer: Result<(u32, K), PlannerFault>,
) -> Result<(u32, u32), u32> {
    answer
        .map(|(bits, cost)| (bits, cost.number()))
        .map_err(|fault| fault.number())
}

// Bits, or the number of the refusal.
pub(crate) fn fewest_number(answer: Result<u32, PlannerFault>) -> Result<u32, u32> {
    answer.map_err(|fault| fault.number())
}

// The plan into a list of so many entries, at most 3, that held 7: the answer, and the list with the entries that were not lent.
pub(crate) fn plan_in<K: Plain>(
    planner: &Planner<K>,
    budget: u32,
    entries: usize,
) -> (Result<(u32, u32), u32>, [u8; 3]) {
    let mut list = [7; 3];
    let answer = plan_numbers(planner.plan(budget, &mut list[..entries.min(3)]));
    (answer, list)
}
