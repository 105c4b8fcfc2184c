// Terms: their ranges, in which order calls refuse, what each call changes, and what a refused one leaves.
use crate::answers::charges;
use faults::refusal_number;
use std::test::Fail;
use terms::Terms;

#[test]
fn fresh_terms_have_one_grade_ceiling_0_and_no_charge(rt: HostRuntime) {
    let terms = Terms::new();
    assert_eq!(rt; (terms.grades(), terms.ceiling()), (1, 0));
    assert_eq!(rt; charges(&terms), [[0; 16]; 16]);
}

// Calls in turn, each with its refusal and the number of grades and the ceiling afterwards.
#[test]
fn grades_run_from_1_to_16_and_ceilings_end_at_4095(rt: HostRuntime) {
    let mut terms = Terms::new();
    for (grades, ceiling, refused, grades_left, ceiling_left) in [
        (0, 5, Some(10), 1, 0),
        (1, 5, None, 1, 5),
        (16, 4095, None, 16, 4095),
        (17, 5, Some(10), 16, 4095),
        (258, 5, Some(10), 16, 4095),
        (2, 4096, Some(11), 16, 4095),
        (2, 4294967295, Some(11), 16, 4095),
        // the number of grades is refused before the ceiling
        (0, 4096, Some(10), 16, 4095),
        (17, 4096, Some(10), 16, 4095),
        (16, 4096, Some(11), 16, 4095),
        (2, 0, None, 2, 0),
    ] {
        assert_eq!(rt; refusal_number(terms.reset(grades, ceiling)), refused);
        assert_eq!(rt;
            (terms.grades(), terms.ceiling()),
            (grades_left, ceiling_left)
        );
    }
}

#[test]
fn flat_charges_end_at_255_and_staying_is_free(rt: HostRuntime) -> Result<(), Fail> {
    let mut terms = Terms::flat(3, 7, 0)?;
    for (charge, refused, left) in [
        (1, None, 1),
        (255, None, 255),
        (256, Some(12), 255),
        (4294967295, Some(12), 255),
        (0, None, 0),
    ] {
        assert_eq!(rt; refusal_number(terms.set_flat(charge)), refused);
        for from in 0..16u8 {
            for to in 0..16u8 {
                let expected = if from == to { 0 } else { left };
                assert_eq!(rt; terms.charge_into(Some(from), to), expected);
            }
        }
    }
    assert_eq!(rt; (terms.grades(), terms.ceiling()), (3, 7));
    Ok(())
}

// Each call on terms of so many grades with a flat charge of 9, its refusal, and the charge there and back afterwards.
#[test]
fn pairs_are_of_two_grades_below_the_number(rt: HostRuntime) -> Result<(), Fail> {
    for (grades, from, to, charge, refused, there, back) in [
        (4, 1, 2, 255, None, 255, 9),
        (4, 1, 2, 256, Some(12), 9, 9),
        (4, 1, 2, 4294967295, Some(12), 9, 9),
        (4, 2, 0, 0, None, 0, 9),
        (4, 3, 2, 5, None, 5, 9),
        (4, 2, 3, 5, None, 5, 9),
        (4, 3, 3, 5, Some(13), 0, 0),
        (4, 4, 2, 5, Some(13), 9, 9),
        (4, 2, 4, 5, Some(13), 9, 9),
        (4, 255, 0, 5, Some(13), 0, 0),
        (4, 0, 255, 5, Some(13), 0, 0),
        (1, 0, 0, 5, Some(13), 0, 0),
        (1, 0, 1, 5, Some(13), 9, 9),
        (16, 15, 14, 5, None, 5, 9),
        (16, 14, 15, 5, None, 5, 9),
        (16, 16, 14, 5, Some(13), 0, 0),
        (16, 14, 16, 5, Some(13), 0, 0),
        // the pair is refused before the charge
        (4, 1, 1, 256, Some(13), 0, 0),
        (4, 4, 1, 256, Some(13), 9, 9),
        (4, 1, 4, 256, Some(13), 9, 9),
        (4, 1, 3, 256, Some(12), 9, 9),
    ] {
        let mut terms = Terms::flat(grades, 7, 9)?;
        assert_eq!(rt; refusal_number(terms.set_pair(from, to, charge)), refused);
        assert_eq!(rt; terms.charge_into(Some(from), to), there);
        assert_eq!(rt; terms.charge_into(Some(to), from), back);
    }
    Ok(())
}

#[test]
fn a_refused_call_leaves_the_terms(rt: HostRuntime) -> Result<(), Fail> {
    let mut terms = Terms::flat(5, 77, 8)?;
    assert_eq!(rt; refusal_number(terms.set_pair(1, 2, 3)), None);
    let before = charges(&terms);
    assert_eq!(rt; (before[1][2], before[2][1]), (3, 8));
    assert_eq!(rt; refusal_number(terms.reset(17, 1)), Some(10));
    assert_eq!(rt; refusal_number(terms.reset(3, 4096)), Some(11));
    assert_eq!(rt; refusal_number(terms.set_flat(256)), Some(12));
    assert_eq!(rt; charges(&terms), before);
    for (from, to, charge, refused) in [
        (1, 2, 256, 12),
        (2, 2, 1, 13),
        (5, 2, 1, 13),
        (2, 5, 1, 13),
    ] {
        assert_eq!(rt;
            refusal_number(terms.set_pair(from, to, charge)),
            Some(refused)
        );
        assert_eq!(rt; charges(&terms), before);
    }
    assert_eq!(rt; (terms.grades(), terms.ceiling()), (5, 77));
    Ok(())
}

#[test]
fn reset_clears_every_charge_and_flat_overwrites_pairs(rt: HostRuntime) -> Result<(), Fail> {
    let mut terms = Terms::flat(5, 77, 9)?;
    assert_eq!(rt; refusal_number(terms.set_pair(1, 2, 3)), None);
    assert_eq!(rt; refusal_number(terms.set_flat(8)), None);
    assert_eq!(rt;
        (terms.charge_into(Some(1), 2), terms.charge_into(Some(2), 1)),
        (8, 8)
    );
    assert_eq!(rt; refusal_number(terms.reset(5, 77)), None);
    assert_eq!(rt; charges(&terms), [[0; 16]; 16]);
    Ok(())
}

#[test]
fn the_first_block_and_grades_over_15_pay_nothing(rt: HostRuntime) -> Result<(), Fail> {
    let terms = Terms::flat(16, 7, 8)?;
    for (before, grade, charge) in [
        (None, 3, 0),
        (None, 16, 0),
        (Some(15), 3, 8),
        (Some(16), 3, 0),
        (Some(3), 15, 8),
        (Some(3), 16, 0),
        (Some(255), 255, 0),
    ] {
        assert_eq!(rt; terms.charge_into(before, grade), charge);
    }
    Ok(())
}
