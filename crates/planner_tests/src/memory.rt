// What the places and the grade list hold after each call, and after a refused one.
use crate::steps::{CLEAR, Offers, Step, open_and_follow, reached};
use costs::Total;
use std::process::Abort;
use std::test::Fail;
use terms::Terms;
use trellis::Place;

// 2 grades, ceiling 4 and a charge of 1: a block takes 10 places. The first block is reached at 1 bit in grade 0 and at 4 bits in
// grade 1; the second at 1 + 2 bits in grade 0, and in grade 1, with the charge, at 1 + 1 + 1 bits.
const FIRST: Offers = [Some((1, 9)), Some((4, 1))];

const SECOND: Offers = [Some((2, 5)), Some((1, 6))];

fn follow_in(rt: &impl Abort, places: &mut [Place<Total>], steps: &[Step]) -> Result<(), Fail> {
    open_and_follow(rt, Terms::flat(2, 4, 1), places, steps)
}

#[test]
fn places_lie_by_block_and_grade_and_bits(rt: HostRuntime) -> Result<(), Fail> {
    let mut places = [reached(77); 25];
    follow_in(&rt, &mut places, &[Step::Add(FIRST), Step::Add(SECOND)])?;
    for (k, place) in places.into_iter().enumerate() {
        let expected = match k {
            1 => reached(9),
            9 => reached(1),
            13 => reached(14),
            18 => reached(15),
            20..=24 => reached(77),
            _ => CLEAR,
        };
        assert_eq!(rt; place, expected);
    }
    Ok(())
}

// Grade 1 is not offered, and grade 0 at a rate over the ceiling: every place is marked and holds the start value.
#[test]
fn an_unreached_place_holds_the_start_value(rt: HostRuntime) -> Result<(), Fail> {
    let mut places = [reached(77); 20];
    follow_in(
        &rt,
        &mut places,
        &[
            Step::Add([Some((5, 3)), None]),
            Step::Add([Some((0, 5)), Some((0, 6))]),
        ],
    )?;
    for place in places {
        assert_eq!(rt; place, CLEAR);
    }
    Ok(())
}

// Opening, taking back, asking and refused calls write no place.
#[test]
fn only_an_add_writes_places(rt: HostRuntime) -> Result<(), Fail> {
    let mut undisturbed = [reached(77); 25];
    follow_in(
        &rt,
        &mut undisturbed,
        &[Step::Add(FIRST), Step::Add(SECOND)],
    )?;
    let mut places = [reached(77); 25];
    follow_in(
        &rt,
        &mut places,
        &[
            Step::TakeBackRefused(32),
            Step::Add(FIRST),
            Step::Plan(0, 3, Err(35), [7, 7, 7]),
            Step::Plan(5, 3, Err(33), [7, 7, 7]),
            Step::Plan(4, 0, Err(34), [7, 7, 7]),
            Step::Plan(4, 3, Ok((4, 1)), [1, 7, 7]),
            Step::Fewest(0, Err(36)),
            Step::Fewest(9, Ok(1)),
            Step::Standing(1),
            Step::Add(SECOND),
            Step::AddRefused([Some((0, 0)), Some((0, 0))], 31),
            Step::AddRefused([None, None], 31),
            Step::Standing(2),
            Step::Plan(4, 3, Ok((3, 14)), [0, 0, 7]),
            Step::TakeBack,
        ],
    )?;
    assert_eq!(rt; places, undisturbed);
    Ok(())
}

// What a block taken back had written stays, until the next block writes over it.
#[test]
fn another_block_takes_the_places_of_one_taken_back(rt: HostRuntime) -> Result<(), Fail> {
    let mut straight = [reached(77); 25];
    follow_in(&rt, &mut straight, &[Step::Add(FIRST), Step::Add(SECOND)])?;
    let mut places = [reached(77); 25];
    follow_in(
        &rt,
        &mut places,
        &[
            Step::Add(FIRST),
            Step::Add([Some((0, 1)), Some((1, 0))]),
            Step::Plan(2, 3, Ok((1, 10)), [0, 0, 7]),
            Step::TakeBack,
            Step::Plan(4, 3, Ok((4, 1)), [1, 7, 7]),
            Step::Add(SECOND),
            Step::Plan(4, 3, Ok((3, 14)), [0, 0, 7]),
        ],
    )?;
    assert_eq!(rt; places, straight);
    Ok(())
}
