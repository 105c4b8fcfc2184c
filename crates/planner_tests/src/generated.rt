// Plans and fewest bits held to an enumeration of all choices, over generated photographs.
use crate::all_choices::Blocks;
use crate::photographs::{Dice, Photograph};
use crate::plain::Plain;
use costs::{Total, Worst};
use faults::Fault;
use planner::Planner;
use std::process::Abort;
use std::test::Fail;
use trellis::Place;

const PHOTOGRAPHS: usize = 300;

// A list of 5 entries with these grades in the first ones and 9 in the others.
fn listed(blocks: usize, grades: [usize; 4]) -> [usize; 5] {
    let listed = &grades[..blocks.min(4)];
    std::array::from_fn(|n| listed.get(n).copied().unwrap_or(9))
}

// One plan: the cost is the least of all choices within the budget, and ties go as they should; nothing fits where no choice does.
fn plan_holds<K: Plain>(
    rt: &impl Abort,
    blocks: Blocks,
    planner: &Planner<K>,
    budget: u32,
) -> Result<(), Fail> {
    let mut grades = [9; 5];
    let answer = planner.plan(budget, &mut grades);
    let grades = grades.map(usize::from);
    match (answer, blocks.best_within::<K>(budget)) {
        (Ok((bits, cost)), Some(end)) => {
            assert!(rt; bits <= budget);
            assert_eq!(rt; bits, end.bits);
            assert_eq!(rt; cost.number(), end.cost);
            assert_eq!(rt; grades, listed(blocks.count, blocks.way_back::<K>(end)));
            let chosen = [grades[0], grades[1], grades[2], grades[3]];
            let Some(counted) = blocks.count::<K>(chosen) else {
                return Err(Fail::new("the plan is no choice"));
            };
            assert_eq!(rt; counted.bits, bits);
            assert_eq!(rt; counted.cost, cost.number());
            Ok(())
        }
        (Err(fault), None) => {
            assert_eq!(rt; fault.number(), 35);
            assert_eq!(rt; grades, [9; 5]);
            Ok(())
        }
        (Ok(_), None) => Err(Fail::new("a plan where nothing fits")),
        (Err(_), Some(_)) => Err(Fail::new("no plan where a choice fits")),
    }
}

// Fewest bits at one bound: those of all choices, and at most a budget exactly where the plan there is within the bound.
fn fewest_holds<K: Plain>(
    rt: &impl Abort,
    blocks: Blocks,
    planner: &Planner<K>,
    bound: u32,
) -> Result<(), Fail> {
    let expected = blocks.fewest_within::<K>(bound);
    match (planner.fewest(K::of(bound)), expected) {
        (Ok(bits), Some(least)) => assert_eq!(rt; bits, least),
        (Err(fault), None) => assert_eq!(rt; fault.number(), 36),
        (Ok(_), None) => return Err(Fail::new("bits where no choice is within the bound")),
        (Err(_), Some(_)) => return Err(Fail::new("no bits where a choice is within the bound")),
    }
    for budget in 0..blocks.photograph.ceiling.saturating_add(1) {
        let enough = expected.is_some_and(|bits| bits <= budget);
        let within = planner
            .plan(budget, &mut [0; 4])
            .is_ok_and(|(_, cost)| cost.number() <= bound);
        assert_eq!(rt; within, enough);
    }
    Ok(())
}

// Every budget through the ceiling, and bounds below and over every cost.
fn answers_hold<K: Plain>(
    rt: &impl Abort,
    blocks: Blocks,
    planner: &Planner<K>,
) -> Result<(), Fail> {
    assert_eq!(rt; planner.standing(), blocks.count);
    for budget in 0..blocks.photograph.ceiling.saturating_add(1) {
        plan_holds(rt, blocks, planner, budget)?;
    }
    for bound in 0..13 {
        fewest_holds(rt, blocks, planner, bound)?;
    }
    Ok(())
}

// The answers with no block, after each add, and after a take back and another add.
fn photograph_holds<K: Plain>(
    rt: &impl Abort,
    photograph: &Photograph,
    places: &mut [Place<K>],
) -> Result<(), Fail> {
    let first = |count| Blocks { photograph, count };
    let mut planner = Planner::open(photograph.terms()?, places);
    answers_hold(rt, first(0), &planner)?;
    for n in 0..photograph.blocks() {
        planner.add(&photograph.block(n)?)?;
        answers_hold(rt, first(n.saturating_add(1)), &planner)?;
    }
    let last = photograph.blocks().saturating_sub(1);
    planner.take_back()?;
    answers_hold(rt, first(last), &planner)?;
    planner.add(&photograph.block(last)?)?;
    answers_hold(rt, first(photograph.blocks()), &planner)
}

// A few hundred photographs, one after the other. The places keep what the photograph before left in them.
fn photographs_hold<K: Plain>(
    rt: &impl Abort,
    seed: u32,
    places: &mut [Place<K>],
) -> Result<(), Fail> {
    let mut dice = Dice::new(seed);
    for _ in 0..PHOTOGRAPHS {
        photograph_holds(rt, &Photograph::any(&mut dice), places)?;
    }
    Ok(())
}

#[test]
fn totals_are_those_of_all_choices(rt: HostRuntime) -> Result<(), Fail> {
    let place = Place {
        reached: true,
        cost: Total(1),
    };
    photographs_hold(&rt, 2463534242, &mut [place; 496])
}

#[test]
fn worsts_are_those_of_all_choices(rt: HostRuntime) -> Result<(), Fail> {
    let place = Place {
        reached: true,
        cost: Worst(0),
    };
    photographs_hold(&rt, 88172645, &mut [place; 496])
}
