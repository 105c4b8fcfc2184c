// Rooms that are too small by much or by one byte, rooms that just fit, and larger ones.
use crate::room_checks::{check_refused, check_rooms};
use answers::{AnswerFault, LONGEST, bits_line, fault_line, plan_line};
use faults::{Fault, Layer};
use std::test::Fail;

#[test]
fn five_bytes_are_refused_and_left_alone(rt: HostRuntime) -> Result<(), Fail> {
    let mut room = [b'.'; 5];
    let answer = bits_line(&mut room, 7, 13, 6);
    check_refused(&rt, &room, answer)?;
    let answer = plan_line(&mut room, 5, 6, 6, 11, &[0, 1]);
    check_refused(&rt, &room, answer)?;
    let answer = fault_line(&mut room, 4, 0, Layer::Planner, 35);
    check_refused(&rt, &room, answer)
}

// With its line feed the line has 12 bytes.
#[test]
fn a_line_of_bits_in_rooms_of_0_to_19_bytes(rt: HostRuntime) -> Result<(), Fail> {
    check_rooms(&rt, [b'.'; 20], "bits,7,13,6\n", |room| {
        bits_line(room, 7, 13, 6)
    })
}

// With its line feed the line has 18 bytes.
#[test]
fn a_plan_in_rooms_of_0_to_29_bytes(rt: HostRuntime) -> Result<(), Fail> {
    check_rooms(&rt, [b'.'; 30], "plan,5,6,6,11,0,1\n", |room| {
        plan_line(room, 5, 6, 6, 11, &[0, 1])
    })
}

// With its line feed the line has 21 bytes.
#[test]
fn a_fault_in_rooms_of_0_to_29_bytes(rt: HostRuntime) -> Result<(), Fail> {
    check_rooms(&rt, [b'.'; 30], "fault,4,0,planner,35\n", |room| {
        fault_line(room, 4, 0, Layer::Planner, 35)
    })
}

#[test]
fn the_longest_plan_wants_all_of_the_longest_room(rt: HostRuntime) -> Result<(), Fail> {
    let most = 4294967295;
    let mut bytes = [b'.'; LONGEST];
    let answer = plan_line(&mut bytes[1..], most, most, most, most, &[15; 64]);
    check_refused(&rt, &bytes, answer)
}

#[test]
fn the_fault_has_its_number_its_layer_and_its_words(rt: HostRuntime) -> Result<(), Fail> {
    assert_eq!(rt; AnswerFault::RoomShort.number(), 40);
    assert_eq!(rt; AnswerFault::RoomShort.layer(), Layer::Answer);
    let shown = format!(in rt.alloc(); "{}", AnswerFault::RoomShort)?;
    assert_eq!(rt; shown.as_str(), "answer 40");
    Ok(())
}
