// Own blocks: what their owner may set and clear, in which order calls refuse, and what a refused call leaves.
use crate::answers::numbers;
use faults::refusal_number;
use offers::{OwnBlock, Source, offers_below};

#[test]
fn a_new_block_offers_nothing(rt: HostRuntime) {
    let block = OwnBlock::new();
    for grade in 0..255u8 {
        assert_eq!(rt; numbers(block.offer(grade)), None);
    }
    assert_eq!(rt; numbers(block.offer(255)), None);
}

// Calls of one block in turn, each with its refusal and what its grade offers afterwards.
#[test]
fn set_at_the_edges_of_its_ranges(rt: HostRuntime) {
    let mut block = OwnBlock::new();
    for (grade, rate, distortion, refused, left) in [
        (3, 0, 7, None, Some((0, 7))),
        (3, 65535, 7, None, Some((65535, 7))),
        (3, 65536, 8, Some(20), Some((65535, 7))),
        (3, 4294967295, 8, Some(20), Some((65535, 7))),
        (4, 7, 0, None, Some((7, 0))),
        (4, 7, 16777215, None, Some((7, 16777215))),
        (4, 8, 16777216, Some(21), Some((7, 16777215))),
        (4, 8, 4294967295, Some(21), Some((7, 16777215))),
        (0, 1, 2, None, Some((1, 2))),
        (15, 3, 4, None, Some((3, 4))),
        (16, 5, 6, Some(26), None),
        (255, 5, 6, Some(26), None),
    ] {
        assert_eq!(rt; refusal_number(block.set(grade, rate, distortion)), refused);
        assert_eq!(rt; numbers(block.offer(grade)), left);
    }
    assert_eq!(rt; numbers(block.offer(0)), Some((1, 2)));
    assert_eq!(rt; numbers(block.offer(3)), Some((65535, 7)));
    assert_eq!(rt; numbers(block.offer(15)), Some((3, 4)));
}

#[test]
fn clear_at_the_edges_of_its_range(rt: HostRuntime) {
    let mut block = OwnBlock::new();
    for grade in 0..16u8 {
        assert_eq!(rt; refusal_number(block.set(grade, 8, 9)), None);
    }
    for (grade, refused, left) in [
        (16, Some(26), 16),
        (255, Some(26), 16),
        (15, None, 15),
        (15, None, 15),
        (0, None, 14),
        (7, None, 13),
    ] {
        assert_eq!(rt; refusal_number(block.clear(grade)), refused);
        assert_eq!(rt; numbers(block.offer(grade)), None);
        let offered = (0..16u8).filter(|other| block.offer(*other).is_some());
        assert_eq!(rt; offered.count(), left);
    }
    assert_eq!(rt; numbers(block.offer(1)), Some((8, 9)));
}

#[test]
fn the_grade_is_refused_before_the_rate_and_that_before_the_distortion(rt: HostRuntime) {
    let mut block = OwnBlock::new();
    for (grade, rate, distortion, refused) in [
        (16, 65536, 16777216, Some(26)),
        (16, 65536, 0, Some(26)),
        (16, 0, 16777216, Some(26)),
        (15, 65536, 16777216, Some(20)),
        (15, 65535, 16777216, Some(21)),
        (15, 65535, 16777215, None),
    ] {
        assert_eq!(rt; refusal_number(block.set(grade, rate, distortion)), refused);
    }
}

// Calls of one block in turn, each with what grades 2, 3 and 4 offer afterwards.
#[test]
fn a_call_changes_its_grade_alone(rt: HostRuntime) {
    let mut block = OwnBlock::new();
    for (grade, rate, distortion, second, third, fourth) in [
        (3, 10, 20, None, Some((10, 20)), None),
        (4, 30, 40, None, Some((10, 20)), Some((30, 40))),
        (2, 30, 40, Some((30, 40)), Some((10, 20)), Some((30, 40))),
        (3, 50, 60, Some((30, 40)), Some((50, 60)), Some((30, 40))),
    ] {
        assert_eq!(rt; refusal_number(block.set(grade, rate, distortion)), None);
        let left = [
            numbers(block.offer(2)),
            numbers(block.offer(3)),
            numbers(block.offer(4)),
        ];
        assert_eq!(rt; left, [second, third, fourth]);
    }
    assert_eq!(rt; refusal_number(block.clear(3)), None);
    let left = [
        numbers(block.offer(2)),
        numbers(block.offer(3)),
        numbers(block.offer(4)),
    ];
    assert_eq!(rt; left, [Some((30, 40)), None, Some((30, 40))]);
}

#[test]
fn a_refused_call_leaves_every_offer(rt: HostRuntime) {
    let mut block = OwnBlock::new();
    for grade in 0..16u8 {
        assert_eq!(rt;
            refusal_number(block.set(grade, 100 + grade as u32, 200)),
            None
        );
    }
    let before = offers_below(&block, 16);
    assert_eq!(rt; numbers(before[7]), Some((107, 200)));
    for (grade, rate, distortion, refused) in [
        (16, 1, 2, 26),
        (255, 1, 2, 26),
        (7, 65536, 2, 20),
        (7, 1, 16777216, 21),
    ] {
        assert_eq!(rt;
            refusal_number(block.set(grade, rate, distortion)),
            Some(refused)
        );
        assert_eq!(rt; offers_below(&block, 16), before);
    }
    assert_eq!(rt; refusal_number(block.clear(16)), Some(26));
    assert_eq!(rt; offers_below(&block, 16), before);
    assert_eq!(rt; refusal_number(block.clear(7)), None);
    assert_ne!(rt; offers_below(&block, 16), before);
}
