// Steps of a test: a call, and what it should answer.
use crate::plain::{Plain, fewest_number, plan_in};
use costs::Total;
use faults::refusal_number;
use offers::{BlockFault, OwnBlock};
use planner::Planner;
use std::process::Abort;
use std::test::Fail;
use terms::{Terms, TermsFault};
use trellis::Place;

// The rate and the distortion of grades 0 and 1, where they are offered.
pub(crate) type Offers = [Option<(u32, u32)>; 2];

#[derive(Clone, Copy)]
pub(crate) enum Step {
    Add(Offers),
    AddRefused(Offers, u32),
    TakeBack,
    TakeBackRefused(u32),
    Standing(usize),
    // the budget, the entries of the list, bits and cost or a refusal, and the list after it
    Plan(u32, usize, Result<(u32, u32), u32>, [u8; 3]),
    // the bound, and bits or a refusal
    Fewest(u32, Result<u32, u32>),
}

pub(crate) fn block_of(offers: Offers) -> Result<OwnBlock, BlockFault> {
    let mut block = OwnBlock::new();
    for (grade, offer) in (0..2).zip(offers) {
        if let Some((rate, distortion)) = offer {
            block.set(grade, rate, distortion)?;
        }
    }
    Ok(block)
}

fn follow_one<K: Plain>(rt: &impl Abort, planner: &mut Planner<K>, step: Step) -> Result<(), Fail> {
    match step {
        Step::Add(offers) => {
            assert_eq!(rt; refusal_number(planner.add(&block_of(offers)?)), None);
            Ok(())
        }
        Step::AddRefused(offers, number) => {
            assert_eq!(rt;
                refusal_number(planner.add(&block_of(offers)?)),
                Some(number)
            );
            Ok(())
        }
        Step::TakeBack => {
            assert_eq!(rt; refusal_number(planner.take_back()), None);
            Ok(())
        }
        Step::TakeBackRefused(number) => {
            assert_eq!(rt; refusal_number(planner.take_back()), Some(number));
            Ok(())
        }
        Step::Standing(blocks) => {
            assert_eq!(rt; planner.standing(), blocks);
            Ok(())
        }
        Step::Plan(budget, entries, answer, list) => {
            assert_eq!(rt; plan_in(planner, budget, entries), (answer, list));
            Ok(())
        }
        Step::Fewest(bound, answer) => {
            assert_eq!(rt; fewest_number(planner.fewest(K::of(bound))), answer);
            Ok(())
        }
    }
}

pub(crate) fn follow<K: Plain>(
    rt: &impl Abort,
    planner: &mut Planner<K>,
    steps: &[Step],
) -> Result<(), Fail> {
    for step in steps {
        follow_one(rt, planner, *step)?;
    }
    Ok(())
}

// Opens a planner and takes the steps with it.
pub(crate) fn open_and_follow<K: Plain>(
    rt: &impl Abort,
    terms: Result<Terms, TermsFault>,
    places: &mut [Place<K>],
    steps: &[Step],
) -> Result<(), Fail> {
    let mut planner = Planner::open(terms?, places);
    follow(rt, &mut planner, steps)
}

// A place that no choice reaches, with the start value in it.
pub(crate) const CLEAR: Place<Total> = Place {
    reached: false,
    cost: Total(0),
};

// A place that some choice reaches at this total.
pub(crate) fn reached(total: u32) -> Place<Total> {
    Place {
        reached: true,
        cost: Total(total),
    }
}
