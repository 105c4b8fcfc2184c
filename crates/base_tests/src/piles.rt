// Layers, piles of them in both orders, one of two sources, and the list of offers below a number of grades.
use crate::answers::{numbers, one_offer};
use offers::{Change, Either, Extra, GainBlock, OwnBlock, Source, Weight, offers_below};
use std::test::Fail;

#[test]
fn extra_bits_end_at_a_rate_of_65535(rt: HostRuntime) -> Result<(), Fail> {
    for (rate, bits, offered) in [
        (64512, 1023, Some((65535, 9))),
        (64513, 1023, None),
        (65535, 1023, None),
        (64513, 1, Some((64514, 9))),
        (65534, 1, Some((65535, 9))),
        (65535, 1, None),
        (65535, 0, Some((65535, 9))),
        (0, 0, Some((0, 9))),
    ] {
        let extended = Extra::new(bits)?.over(one_offer(3, rate, 9)?);
        assert_eq!(rt; numbers(extended.offer(3)), offered);
        assert_eq!(rt; numbers(extended.offer(4)), None);
        assert_eq!(rt; numbers(extended.offer(16)), None);
    }
    Ok(())
}

#[test]
fn weights_end_at_a_distortion_of_16777215(rt: HostRuntime) -> Result<(), Fail> {
    for (distortion, times, offered) in [
        (65793, 255, Some((7, 16777215))),
        (65794, 255, None),
        // more than 2 to the power 31
        (16777215, 255, None),
        (8388607, 2, Some((7, 16777214))),
        (8388608, 2, None),
        (16777215, 1, Some((7, 16777215))),
        (0, 255, Some((7, 0))),
    ] {
        let weighted = Weight::new(times)?.over(one_offer(3, 7, distortion)?);
        assert_eq!(rt; numbers(weighted.offer(3)), offered);
        assert_eq!(rt; numbers(weighted.offer(4)), None);
        assert_eq!(rt; numbers(weighted.offer(16)), None);
    }
    Ok(())
}

#[test]
fn weight_2_hides_grade_0_of_gain_128(rt: HostRuntime) -> Result<(), Fail> {
    let weight = Weight::new(2)?;
    let loud = weight.over(GainBlock::new(4, 128)?);
    assert_eq!(rt; numbers(loud.offer(0)), None);
    assert_eq!(rt; numbers(loud.offer(1)), Some((4, 4194304)));
    let soft = weight.over(GainBlock::new(4, 127)?);
    assert_eq!(rt; numbers(soft.offer(0)), Some((0, 16646144)));
    assert_eq!(rt; numbers(soft.offer(16)), None);
    Ok(())
}

#[test]
fn weight_and_extra_bits_pile_in_both_orders(rt: HostRuntime) -> Result<(), Fail> {
    let weight = Weight::new(2)?;
    let extra = Extra::new(3)?;
    for (rate, distortion, offered) in [
        (5, 6, Some((8, 12))),
        (65532, 8388607, Some((65535, 16777214))),
        (65533, 8388607, None),
        (65532, 8388608, None),
        (65533, 8388608, None),
    ] {
        let block = one_offer(3, rate, distortion)?;
        let above = weight.over(extra.over(block));
        let below = extra.over(weight.over(block));
        assert_eq!(rt; numbers(above.offer(3)), offered);
        assert_eq!(rt; numbers(below.offer(3)), offered);
        assert_eq!(rt; offers_below(&below, 16), offers_below(&above, 16));
    }
    Ok(())
}

#[test]
fn layers_pile_on_their_own_kind(rt: HostRuntime) -> Result<(), Fail> {
    let block = GainBlock::new(8, 1)?;
    let six = Weight::new(2)?.over(Weight::new(3)?.over(block));
    assert_eq!(rt; numbers(six.offer(2)), Some((13, 43686)));
    let long = Extra::new(1000)?.over(Extra::new(1023)?.over(block));
    assert_eq!(rt; numbers(long.offer(2)), Some((2036, 7281)));
    let between = Weight::new(4)?.over(Extra::new(20)?.over(Weight::new(5)?.over(block)));
    assert_eq!(rt; numbers(between.offer(2)), Some((33, 145620)));
    Ok(())
}

#[test]
fn blocks_of_both_sources_stand_in_one_list(rt: HostRuntime) -> Result<(), Fail> {
    let own = one_offer(2, 40, 50)?;
    let gain = GainBlock::new(8, 1)?;
    let blocks: [Either<OwnBlock, GainBlock>; 2] = [Either::Left(own), Either::Right(gain)];
    let weight = Weight::new(3)?;
    for (grade, first, second) in [
        (2, Some((40, 150)), Some((13, 21843))),
        (3, None, Some((16, 12288))),
        (16, None, None),
    ] {
        assert_eq!(rt; numbers(weight.over(blocks[0]).offer(grade)), first);
        assert_eq!(rt; numbers(weight.over(blocks[1]).offer(grade)), second);
    }
    assert_eq!(rt; numbers(blocks[0].offer(2)), Some((40, 50)));
    assert_eq!(rt; numbers(blocks[1].offer(2)), Some((13, 7281)));
    Ok(())
}

#[test]
fn offers_from_the_number_of_grades_on_are_hidden(rt: HostRuntime) -> Result<(), Fail> {
    let block = GainBlock::new(8, 1)?;
    for grades in 0..20u8 {
        let offers = offers_below(&block, grades);
        for (grade, offer) in (0..16u8).zip(offers) {
            assert_eq!(rt; offer.is_some(), grade < grades);
        }
    }
    let two = offers_below(&block, 2);
    assert_eq!(rt; numbers(two[0]), Some((0, 65536)));
    assert_eq!(rt; numbers(two[1]), Some((8, 16384)));
    assert_eq!(rt; numbers(two[2]), None);
    assert_eq!(rt; numbers(offers_below(&block, 16)[15]), Some((64, 1)));
    assert_eq!(rt; offers_below(&block, 255), offers_below(&block, 16));
    Ok(())
}
