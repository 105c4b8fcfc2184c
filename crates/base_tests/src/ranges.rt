// The checks of one number at a time, at both edges of each range.
use crate::answers::numbers;
use faults::refusal_number;
use offers::{
    BlockFault, Extra, Offer, Weight, checked_distortion, checked_gain, checked_grade,
    checked_rate, checked_samples,
};
use std::test::Fail;
use terms::{TermsFault, checked_ceiling, checked_charge, checked_grades};

#[test]
fn numbers_of_own_blocks(rt: HostRuntime) {
    for (grade, answer) in [
        (0, Ok(0)),
        (15, Ok(15)),
        (16, Err(BlockFault::GradeRange)),
        (255, Err(BlockFault::GradeRange)),
    ] {
        assert_eq!(rt; checked_grade(grade), answer);
    }
    for (rate, answer) in [
        (0, Ok(0)),
        (65535, Ok(65535)),
        (65536, Err(BlockFault::RateRange)),
        (4294967295, Err(BlockFault::RateRange)),
    ] {
        assert_eq!(rt; checked_rate(rate), answer);
    }
    for (distortion, answer) in [
        (0, Ok(0)),
        (16777215, Ok(16777215)),
        (16777216, Err(BlockFault::DistortionRange)),
        (4294967295, Err(BlockFault::DistortionRange)),
    ] {
        assert_eq!(rt; checked_distortion(distortion), answer);
    }
}

#[test]
fn numbers_of_gain_blocks(rt: HostRuntime) {
    for (samples, answer) in [
        (0, Err(BlockFault::SamplesRange)),
        (1, Ok(1)),
        (256, Ok(256)),
        (257, Err(BlockFault::SamplesRange)),
    ] {
        assert_eq!(rt; checked_samples(samples), answer);
    }
    for (gain, answer) in [
        (0, Err(BlockFault::GainRange)),
        (1, Ok(1)),
        (255, Ok(255)),
        (256, Err(BlockFault::GainRange)),
    ] {
        assert_eq!(rt; checked_gain(gain), answer);
    }
}

#[test]
fn numbers_of_layers(rt: HostRuntime) -> Result<(), Fail> {
    for (times, refused) in [
        (0, Some(24)),
        (1, None),
        (255, None),
        (256, Some(24)),
        (4294967295, Some(24)),
    ] {
        assert_eq!(rt; refusal_number(Weight::new(times)), refused);
    }
    for (bits, refused) in [
        (0, None),
        (1023, None),
        (1024, Some(25)),
        (4294967295, Some(25)),
    ] {
        assert_eq!(rt; refusal_number(Extra::new(bits)), refused);
    }
    assert_eq!(rt; Weight::new(255)?.times(), 255);
    assert_eq!(rt; Extra::new(1023)?.bits(), 1023);
    Ok(())
}

#[test]
fn numbers_of_offers(rt: HostRuntime) {
    for (rate, distortion, offered) in [
        (0, 0, Some((0, 0))),
        (65535, 16777215, Some((65535, 16777215))),
        (65536, 16777215, None),
        (65535, 16777216, None),
        (4294967295, 0, None),
        (0, 18446744073709551615, None),
        // one more than 2 to the power 32, which a narrower number would take for 1
        (0, 4294967297, None),
    ] {
        assert_eq!(rt; numbers(Offer::new(rate, distortion)), offered);
    }
}

#[test]
fn numbers_of_terms(rt: HostRuntime) {
    for (grades, answer) in [
        (0, Err(TermsFault::GradesRange)),
        (1, Ok(1)),
        (16, Ok(16)),
        (17, Err(TermsFault::GradesRange)),
        (257, Err(TermsFault::GradesRange)),
    ] {
        assert_eq!(rt; checked_grades(grades), answer);
    }
    for (ceiling, answer) in [
        (0, Ok(0)),
        (4095, Ok(4095)),
        (4096, Err(TermsFault::CeilingRange)),
        (4294967295, Err(TermsFault::CeilingRange)),
    ] {
        assert_eq!(rt; checked_ceiling(ceiling), answer);
    }
    for (charge, answer) in [
        (0, Ok(0)),
        (255, Ok(255)),
        (256, Err(TermsFault::ChargeRange)),
        (4294967295, Err(TermsFault::ChargeRange)),
    ] {
        assert_eq!(rt; checked_charge(charge), answer);
    }
}
