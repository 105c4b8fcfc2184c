// Counting choices: their bits and their costs, and what is no choice.
use crate::answers::two_grades;
use costs::{Total, Worst};
use faults::refusal_number;
use offers::{Block, GainBlock, offers_below};
use std::array::from_fn;
use std::test::Fail;
use terms::{Terms, count_choice, worked_values};

#[test]
fn the_four_choices_of_two_blocks(rt: HostRuntime) -> Result<(), Fail> {
    let terms = Terms::flat(2, 10, 2)?;
    let blocks = [two_grades((1, 9), (4, 1))?, two_grades((1, 5), (3, 2))?];
    for (grades, bits, total, worst) in [
        ([0, 0], 2, 14, 9),
        ([0, 1], 6, 11, 9),
        ([1, 0], 7, 6, 5),
        ([1, 1], 7, 3, 2),
    ] {
        assert_eq!(rt;
            count_choice::<Total>(&terms, &blocks, &grades),
            Some((bits, Total(total)))
        );
        assert_eq!(rt;
            count_choice::<Worst>(&terms, &blocks, &grades),
            Some((bits, Worst(worst)))
        );
    }
    assert_eq!(rt; worked_values(), 14);
    Ok(())
}

#[test]
fn charges_count_by_their_direction(rt: HostRuntime) -> Result<(), Fail> {
    let mut terms = Terms::flat(2, 10, 20)?;
    assert_eq!(rt; refusal_number(terms.set_pair(0, 1, 100)), None);
    let blocks = [two_grades((1, 9), (4, 1))?; 3];
    for (grades, bits) in [
        ([0, 0, 0], 3),
        ([0, 0, 1], 106),
        ([0, 1, 0], 126),
        ([0, 1, 1], 109),
        ([1, 0, 0], 26),
        ([1, 0, 1], 129),
        ([1, 1, 0], 29),
        ([1, 1, 1], 12),
    ] {
        let counted = count_choice::<Total>(&terms, &blocks, &grades);
        assert_eq!(rt; counted.map(|(bits, _)| bits), Some(bits));
    }
    Ok(())
}

// Three grades are offered, and the terms have two.
#[test]
fn what_is_no_choice_counts_nothing(rt: HostRuntime) -> Result<(), Fail> {
    let terms = Terms::flat(2, 10, 0)?;
    let full = offers_below(&GainBlock::new(8, 1)?, 3);
    let none: Block = [None; 16];
    let mut second = none;
    second[1] = full[1];
    let cases: [(&[Block], &[u8], Option<(u32, Total)>); 10] = [
        (&[], &[], Some((0, Total(0)))),
        (&[full, second], &[0, 1], Some((8, Total(81920)))),
        (&[full, second], &[0, 0], None),
        (&[second, full], &[0, 0], None),
        (&[none], &[0], None),
        (&[full, full], &[1, 2], None),
        (&[full, full], &[255, 1], None),
        (&[full, full], &[1], None),
        (&[full], &[1, 1], None),
        (&[], &[0], None),
    ];
    for (blocks, grades, counted) in cases {
        assert_eq!(rt; count_choice::<Total>(&terms, blocks, grades), counted);
    }
    Ok(())
}

#[test]
fn sixteen_grades_are_the_most(rt: HostRuntime) -> Result<(), Fail> {
    let terms = Terms::flat(16, 10, 0)?;
    let blocks = [offers_below(&GainBlock::new(8, 1)?, 16)];
    assert_eq!(rt;
        count_choice::<Worst>(&terms, &blocks, &[15]),
        Some((64, Worst(1)))
    );
    assert_eq!(rt; count_choice::<Worst>(&terms, &blocks, &[16]), None);
    assert_eq!(rt; count_choice::<Worst>(&terms, &blocks, &[255]), None);
    Ok(())
}

// Grades 0 and 1 in turn, 64 of them.
fn alternating() -> [u8; 64] {
    from_fn(|n| (n % 2) as u8)
}

#[test]
fn sixty_four_blocks_count_and_sixty_five_do_not(rt: HostRuntime) -> Result<(), Fail> {
    let terms = Terms::flat(2, 10, 255)?;
    let block = two_grades((65535, 16777215), (65535, 16777215))?;
    // 64 rates and 63 charges
    let most = Some((4210305, Total(1073741760)));
    assert_eq!(rt;
        count_choice::<Total>(&terms, &[block; 64], &alternating()),
        most
    );
    assert_eq!(rt; count_choice::<Total>(&terms, &[block; 65], &[0; 65]), None);
    Ok(())
}
