// The worked job: two grades, ceiling 10 and 2 bits for each change; 1 bit for 9 or 4 bits for 1, then 1 bit for 5 or 3 bits for 2.
use crate::steps::{Step, open_and_follow, reached};
use costs::Worst;
use std::test::Fail;
use terms::Terms;
use trellis::Place;

#[test]
fn totals_of_the_worked_job(rt: HostRuntime) -> Result<(), Fail> {
    open_and_follow(
        &rt,
        Terms::flat(2, 10, 2),
        &mut [reached(3); 44],
        &[
            Step::Add([Some((1, 9)), Some((4, 1))]),
            Step::Add([Some((1, 5)), Some((3, 2))]),
            Step::Plan(1, 3, Err(35), [7, 7, 7]),
            Step::Plan(6, 3, Ok((6, 11)), [0, 1, 7]),
            Step::Plan(7, 3, Ok((7, 3)), [1, 1, 7]),
            Step::Fewest(13, Ok(6)),
            Step::Fewest(2, Err(36)),
            Step::TakeBack,
            Step::Plan(7, 3, Ok((4, 1)), [1, 7, 7]),
            Step::Plan(11, 3, Err(33), [7, 7, 7]),
        ],
    )
}

#[test]
fn worsts_of_the_worked_job(rt: HostRuntime) -> Result<(), Fail> {
    let place = Place {
        reached: true,
        cost: Worst(3),
    };
    open_and_follow(
        &rt,
        Terms::flat(2, 10, 2),
        &mut [place; 44],
        &[
            Step::Add([Some((1, 9)), Some((4, 1))]),
            Step::Add([Some((1, 5)), Some((3, 2))]),
            Step::Plan(1, 3, Err(35), [7, 7, 7]),
            Step::Plan(6, 3, Ok((2, 9)), [0, 0, 7]),
            Step::Plan(7, 3, Ok((7, 2)), [1, 1, 7]),
            Step::Fewest(8, Ok(7)),
            Step::Fewest(1, Err(36)),
        ],
    )
}
