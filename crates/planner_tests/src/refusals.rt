// Each refusal of the planner at its edge, their order, and how faults are shown.
use crate::plain::Plain;
use crate::steps::{Step, follow, open_and_follow, reached};
use costs::{Total, Worst};
use faults::{Fault, Layer};
use planner::{Planner, PlannerFault};
use std::process::Abort;
use std::test::Fail;
use terms::Terms;
use trellis::Place;

#[test]
fn planner_faults_have_numbers_30_to_36(rt: HostRuntime) {
    for (fault, number) in [
        (PlannerFault::TooManyBlocks, 30),
        (PlannerFault::TooFewPlaces, 31),
        (PlannerFault::NoBlock, 32),
        (PlannerFault::OverCeiling, 33),
        (PlannerFault::ShortList, 34),
        (PlannerFault::NothingFits, 35),
        (PlannerFault::NoneWithin, 36),
    ] {
        assert_eq!(rt; fault.number(), number);
        assert_eq!(rt; fault.layer(), Layer::Planner);
    }
}

#[test]
fn faults_are_shown_as_layer_and_number(rt: HostRuntime) -> Result<(), Fail> {
    let first = format!(in rt.alloc(); "{}", PlannerFault::TooManyBlocks)?;
    assert_eq!(rt; first.as_str(), "planner 30");
    let fits = format!(in rt.alloc(); "{}", PlannerFault::NothingFits)?;
    assert_eq!(rt; fits.as_str(), "planner 35");
    Ok(())
}

// One grade and ceiling 0: a block takes one place. 64 blocks stand, and a 65th is refused with a place to spare and with none.
fn sixty_four_stand(rt: &impl Abort, places: &mut [Place<Total>]) -> Result<(), Fail> {
    let block = [Some((0, 2)), None];
    let mut planner = Planner::open(Terms::flat(1, 0, 0)?, places);
    for n in 0..64usize {
        follow(rt, &mut planner, &[Step::Standing(n), Step::Add(block)])?;
    }
    follow(
        rt,
        &mut planner,
        &[
            Step::AddRefused(block, 30),
            Step::Standing(64),
            Step::Fewest(127, Err(36)),
            Step::Fewest(128, Ok(0)),
            Step::TakeBack,
            Step::Fewest(126, Ok(0)),
            Step::Add(block),
            Step::AddRefused(block, 30),
            Step::Standing(64),
        ],
    )
}

#[test]
fn a_65th_block_is_refused(rt: HostRuntime) -> Result<(), Fail> {
    sixty_four_stand(&rt, &mut [reached(5); 65])?;
    sixty_four_stand(&rt, &mut [reached(5); 64])
}

// 4 grades and ceiling 3: a block takes 16 places.
#[test]
fn a_block_takes_a_place_for_each_grade_and_number_of_bits(rt: HostRuntime) -> Result<(), Fail> {
    let block = [Some((1, 1)), None];
    let none = [Step::AddRefused(block, 31), Step::Standing(0)];
    let one = [
        Step::Add(block),
        Step::AddRefused(block, 31),
        Step::Standing(1),
    ];
    open_and_follow(&rt, Terms::flat(4, 3, 0), &mut [reached(5); 0], &none)?;
    open_and_follow(&rt, Terms::flat(4, 3, 0), &mut [reached(5); 15], &none)?;
    open_and_follow(&rt, Terms::flat(4, 3, 0), &mut [reached(5); 16], &one)?;
    open_and_follow(&rt, Terms::flat(4, 3, 0), &mut [reached(5); 31], &one)?;
    open_and_follow(
        &rt,
        Terms::flat(4, 3, 0),
        &mut [reached(5); 32],
        &[
            Step::Add(block),
            Step::Add(block),
            Step::AddRefused(block, 31),
            Step::Standing(2),
        ],
    )
}

#[test]
fn taking_back_wants_a_block(rt: HostRuntime) -> Result<(), Fail> {
    open_and_follow(
        &rt,
        Terms::flat(2, 1, 0),
        &mut [reached(5); 4],
        &[
            Step::TakeBackRefused(32),
            Step::Standing(0),
            Step::Add([Some((1, 1)), None]),
            Step::TakeBack,
            Step::TakeBackRefused(32),
            Step::Standing(0),
        ],
    )
}

// A plan of 10 bits: 10 for the first block and 0 for the second.
#[test]
fn a_budget_goes_through_the_ceiling(rt: HostRuntime) -> Result<(), Fail> {
    open_and_follow(
        &rt,
        Terms::flat(2, 10, 2),
        &mut [reached(5); 44],
        &[
            // with no block too, and before the list is looked at
            Step::Plan(11, 0, Err(33), [7, 7, 7]),
            Step::Add([Some((10, 1)), None]),
            Step::Add([Some((0, 1)), None]),
            Step::Plan(9, 2, Err(35), [7, 7, 7]),
            Step::Plan(10, 2, Ok((10, 2)), [0, 0, 7]),
            Step::Plan(11, 2, Err(33), [7, 7, 7]),
            Step::Plan(11, 1, Err(33), [7, 7, 7]),
            Step::Plan(4294967295, 2, Err(33), [7, 7, 7]),
            Step::Standing(2),
        ],
    )
}

#[test]
fn the_list_has_an_entry_for_each_block(rt: HostRuntime) -> Result<(), Fail> {
    open_and_follow(
        &rt,
        Terms::flat(2, 10, 2),
        &mut [reached(5); 44],
        &[
            Step::Plan(10, 0, Ok((0, 0)), [7, 7, 7]),
            Step::Add([Some((6, 1)), None]),
            Step::Add([Some((4, 1)), None]),
            Step::Plan(10, 0, Err(34), [7, 7, 7]),
            Step::Plan(10, 1, Err(34), [7, 7, 7]),
            // where nothing fits too
            Step::Plan(9, 1, Err(34), [7, 7, 7]),
            Step::Plan(9, 2, Err(35), [7, 7, 7]),
            Step::Plan(10, 2, Ok((10, 2)), [0, 0, 7]),
            Step::Plan(10, 3, Ok((10, 2)), [0, 0, 7]),
        ],
    )
}

// A block that offers nothing leaves no choice, and neither does a rate over the ceiling.
#[test]
fn nothing_fits_without_a_choice(rt: HostRuntime) -> Result<(), Fail> {
    open_and_follow(
        &rt,
        Terms::flat(2, 10, 2),
        &mut [reached(5); 44],
        &[
            Step::Add([None, None]),
            Step::Plan(10, 3, Err(35), [7, 7, 7]),
            Step::Fewest(4294967295, Err(36)),
            Step::TakeBack,
            Step::Add([Some((11, 0)), Some((65535, 0))]),
            Step::Plan(10, 3, Err(35), [7, 7, 7]),
            Step::Fewest(4294967295, Err(36)),
            Step::TakeBack,
            Step::Add([Some((10, 0)), None]),
            Step::Plan(10, 3, Ok((10, 0)), [0, 7, 7]),
            Step::Fewest(0, Ok(10)),
        ],
    )
}

// 3 bits at 9, or 5 bits at 4.
#[test]
fn fewest_goes_by_the_bound(rt: HostRuntime) -> Result<(), Fail> {
    let place = Place {
        reached: true,
        cost: Worst(0),
    };
    open_and_follow(
        &rt,
        Terms::flat(2, 10, 2),
        &mut [place; 22],
        &[
            Step::Fewest(0, Ok(0)),
            Step::Add([Some((3, 9)), Some((5, 4))]),
            Step::Fewest(3, Err(36)),
            Step::Fewest(4, Ok(5)),
            Step::Fewest(8, Ok(5)),
            Step::Fewest(9, Ok(3)),
            Step::Fewest(4294967295, Ok(3)),
        ],
    )
}

#[test]
fn with_no_block_the_plan_is_empty(rt: HostRuntime) -> Result<(), Fail> {
    open_and_follow(
        &rt,
        Terms::flat(16, 4095, 255),
        &mut [reached(5); 0],
        &[
            Step::Standing(0),
            Step::Plan(0, 3, Ok((0, 0)), [7, 7, 7]),
            Step::Plan(4095, 3, Ok((0, 0)), [7, 7, 7]),
            Step::Fewest(0, Ok(0)),
            Step::AddRefused([Some((0, 0)), None], 31),
        ],
    )
}
