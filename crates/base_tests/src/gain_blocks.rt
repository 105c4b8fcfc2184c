// Gain blocks: their ranges, and the rate and the distortion of each grade.
use crate::answers::numbers;
use faults::refusal_number;
use offers::{GainBlock, Source, eighths_table};
use std::test::Fail;

#[test]
fn samples_run_from_1_to_256_and_gains_from_1_to_255(rt: HostRuntime) -> Result<(), Fail> {
    for (samples, gain, refused) in [
        (0, 9, Some(22)),
        (1, 9, None),
        (256, 9, None),
        (257, 9, Some(22)),
        (4294967295, 9, Some(22)),
        (9, 0, Some(23)),
        (9, 1, None),
        (9, 255, None),
        (9, 256, Some(23)),
        (9, 4294967295, Some(23)),
        // the samples are refused before the gain
        (0, 0, Some(22)),
        (0, 256, Some(22)),
        (257, 0, Some(22)),
        (257, 256, Some(22)),
        (256, 256, Some(23)),
        (256, 255, None),
    ] {
        assert_eq!(rt; refusal_number(GainBlock::new(samples, gain)), refused);
    }
    assert_eq!(rt; GainBlock::new(256, 255)?.samples(), 256);
    assert_eq!(rt; GainBlock::new(256, 255)?.gain(), 255);
    Ok(())
}

#[test]
fn every_grade_is_offered_and_none_from_16_on(rt: HostRuntime) -> Result<(), Fail> {
    let least = GainBlock::new(1, 1)?;
    let most = GainBlock::new(256, 255)?;
    for grade in 0..255u8 {
        assert_eq!(rt; least.offer(grade).is_some(), grade < 16);
        assert_eq!(rt; most.offer(grade).is_some(), grade < 16);
    }
    assert_eq!(rt; numbers(least.offer(255)), None);
    assert_eq!(rt; numbers(most.offer(255)), None);
    Ok(())
}

#[test]
fn eight_samples_take_the_eighths_and_gain_1_the_profile(rt: HostRuntime) -> Result<(), Fail> {
    let block = GainBlock::new(8, 1)?;
    let expected = [
        (0, 65536),
        (8, 16384),
        (13, 7281),
        (16, 4096),
        (21, 1820),
        (24, 1024),
        (29, 455),
        (32, 256),
        (37, 113),
        (40, 64),
        (45, 28),
        (48, 16),
        (53, 7),
        (56, 4),
        (61, 1),
        (64, 1),
    ];
    for (grade, offered) in (0..16u8).zip(expected) {
        assert_eq!(rt; numbers(block.offer(grade)), Some(offered));
    }
    Ok(())
}

#[test]
fn bits_are_rounded_up_once_and_gains_multiply(rt: HostRuntime) -> Result<(), Fail> {
    for (samples, gain, grade, rate, distortion) in [
        (8, 1, 2, 13, 7281),
        (3, 1, 2, 5, 7281),
        (1, 1, 2, 2, 7281),
        (1, 1, 0, 0, 65536),
        (1, 1, 1, 1, 16384),
        (5, 7, 4, 14, 12740),
        (256, 255, 0, 0, 16711680),
        (256, 255, 2, 416, 1856655),
        (256, 255, 15, 2048, 255),
    ] {
        let block = GainBlock::new(samples, gain)?;
        assert_eq!(rt; numbers(block.offer(grade)), Some((rate, distortion)));
    }
    Ok(())
}

#[test]
fn the_table_of_eighths_where_powers_of_two_lie(rt: HostRuntime) {
    let table = eighths_table();
    assert_eq!(rt; table[0], 0);
    assert_eq!(rt; table[1], 8);
    assert_eq!(rt; table[2], 13);
    assert_eq!(rt; table[127], 56);
    assert_eq!(rt; table[128], 57);
    assert_eq!(rt; table[254], 64);
}
