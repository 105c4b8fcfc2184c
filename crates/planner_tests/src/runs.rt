// Whole runs, refused calls counted in.
use crate::plain::{Plain, fewest_number, plan_numbers};
use crate::steps::{Offers, block_of, reached};
use costs::{Total, Worst};
use offers::OwnBlock;
use planner::{Call, Question, replay};
use std::process::Abort;
use std::test::Fail;
use terms::Terms;
use trellis::Place;

const FIRST: Offers = [Some((1, 9)), Some((4, 1))];

const SECOND: Offers = [Some((1, 5)), Some((3, 2))];

const FREE: Offers = [Some((0, 0)), Some((0, 0))];

// What a run ends with: the plan's bits and cost and the fewest bits, each or its refusal, and a list of 3 entries that held 7 and
// of which so many were lent.
type Ends = (Result<(u32, u32), u32>, Result<u32, u32>, [u8; 3]);

// A run over two grades, ceiling 10 and 2 bits for each change.
fn ends<K: Plain>(
    places: &mut [Place<K>],
    calls: &[Call<OwnBlock, K>],
    budget: u32,
    bound: u32,
    entries: usize,
) -> Result<Ends, Fail> {
    let mut list = [7; 3];
    let lent = entries.min(3);
    let terms = Terms::flat(2, 10, 2)?;
    let answers = replay(
        terms,
        places,
        calls,
        budget,
        K::of(bound),
        &mut list[..lent],
    );
    Ok((
        plan_numbers(answers.plan),
        fewest_number(answers.fewest),
        list,
    ))
}

// The worked job among refused calls: a take back too many, an add too many, questions of every kind.
#[test]
fn a_run_with_refused_calls(rt: HostRuntime) -> Result<(), Fail> {
    let first = block_of(FIRST)?;
    let second = block_of(SECOND)?;
    let free = block_of(FREE)?;
    let calls = [
        Call::TakeBack,
        Call::Ask(Question::Fewest(Total(0))),
        Call::Add(first),
        Call::Add(free),
        Call::TakeBack,
        Call::Ask(Question::Plan {
            budget: 11,
            entries: 99,
        }),
        Call::Ask(Question::Plan {
            budget: 7,
            entries: 0,
        }),
        Call::Add(second),
        Call::Add(free),
        Call::Ask(Question::Plan {
            budget: 1,
            entries: 2,
        }),
        Call::Ask(Question::Plan {
            budget: 7,
            entries: 2,
        }),
        Call::Ask(Question::Fewest(Total(2))),
    ];
    let mut places = [reached(3); 50];
    let said = ends(&mut places, &calls, 6, 13, 3)?;
    assert_eq!(rt; said, (Ok((6, 11)), Ok(6), [0, 1, 7]));
    for (k, place) in places.into_iter().enumerate() {
        assert!(rt; k < 44 || place == reached(3));
    }
    Ok(())
}

// One run after the other over the same places.
fn runs_end(rt: &impl Abort, places: &mut [Place<Total>]) -> Result<(), Fail> {
    let calls = [Call::Add(block_of(FIRST)?), Call::Add(block_of(SECOND)?)];
    for (budget, bound, entries, expected) in [
        (1, 2, 2, (Err(35), Err(36), [7, 7, 7])),
        (11, 3, 2, (Err(33), Ok(7), [7, 7, 7])),
        (11, 3, 1, (Err(33), Ok(7), [7, 7, 7])),
        (10, 3, 1, (Err(34), Ok(7), [7, 7, 7])),
        (1, 2, 1, (Err(34), Err(36), [7, 7, 7])),
        (2, 14, 2, (Ok((2, 14)), Ok(2), [0, 0, 7])),
        (7, 3, 3, (Ok((7, 3)), Ok(7), [1, 1, 7])),
    ] {
        assert_eq!(rt; ends(places, &calls, budget, bound, entries)?, expected);
    }
    Ok(())
}

#[test]
fn runs_that_end_in_refusals(rt: HostRuntime) -> Result<(), Fail> {
    runs_end(&rt, &mut [reached(3); 44])
}

#[test]
fn a_run_of_worsts(rt: HostRuntime) -> Result<(), Fail> {
    let calls = [
        Call::Add(block_of(FIRST)?),
        Call::Add(block_of(FREE)?),
        Call::TakeBack,
        Call::Add(block_of(SECOND)?),
    ];
    let place = Place {
        reached: true,
        cost: Worst(3),
    };
    let said = ends(&mut [place; 44], &calls, 6, 5, 3)?;
    assert_eq!(rt; said, (Ok((2, 9)), Ok(7), [0, 0, 7]));
    Ok(())
}
