// Lines written out, each into more room than it needs.
use crate::room_checks::check_written;
use answers::{LONGEST, bits_line, fault_line, longest_line, plan_line};
use faults::Layer;
use std::test::Fail;

#[test]
fn plans(rt: HostRuntime) -> Result<(), Fail> {
    for (line, budget, bits, cost, grades, text) in [
        (5, 6, 6, 11, [0, 1].as_slice(), "plan,5,6,6,11,0,1\n"),
        (10, 7, 4, 1, &[1], "plan,10,7,4,1,1\n"),
        (
            1,
            2,
            3,
            4,
            &[9, 10, 15, 99, 100, 255],
            "plan,1,2,3,4,9,10,15,99,100,255\n",
        ),
    ] {
        let mut room = [b'.'; 40];
        let answer = plan_line(&mut room, line, budget, bits, cost, grades);
        check_written(&rt, &room, answer, text)?;
    }
    Ok(())
}

#[test]
fn a_plan_of_no_blocks_ends_after_the_cost(rt: HostRuntime) -> Result<(), Fail> {
    let mut room = [b'.'; 40];
    let answer = plan_line(&mut room, 2, 0, 0, 0, &[]);
    check_written(&rt, &room, answer, "plan,2,0,0,0\n")
}

#[test]
fn fewest_bits(rt: HostRuntime) -> Result<(), Fail> {
    for (line, bound, bits, text) in [
        (7, 13, 6, "bits,7,13,6\n"),
        (1, 0, 0, "bits,1,0,0\n"),
        (9, 10, 11, "bits,9,10,11\n"),
        (99, 100, 101, "bits,99,100,101\n"),
        (20, 1000, 4095, "bits,20,1000,4095\n"),
        (1, 4294967295, 0, "bits,1,4294967295,0\n"),
    ] {
        let mut room = [b'.'; 40];
        let answer = bits_line(&mut room, line, bound, bits);
        check_written(&rt, &room, answer, text)?;
    }
    Ok(())
}

#[test]
fn faults_of_each_layer(rt: HostRuntime) -> Result<(), Fail> {
    for (line, field, layer, number, text) in [
        (4, 0, Layer::Planner, 35, "fault,4,0,planner,35\n"),
        (0, 0, Layer::Text, 5, "fault,0,0,text,5\n"),
        (1, 3, Layer::Terms, 10, "fault,1,3,terms,10\n"),
        (12, 4, Layer::Block, 20, "fault,12,4,block,20\n"),
        (3, 0, Layer::Answer, 40, "fault,3,0,answer,40\n"),
    ] {
        let mut room = [b'.'; 40];
        let answer = fault_line(&mut room, line, field, layer, number);
        check_written(&rt, &room, answer, text)?;
    }
    Ok(())
}

// The longest line of each kind. That of a plan for 64 blocks takes as many bytes as any line can.
#[test]
fn the_largest_numbers(rt: HostRuntime) -> Result<(), Fail> {
    let most = 4294967295;
    let mut room = [b'.'; LONGEST];
    let answer = bits_line(&mut room, most, most, most);
    check_written(
        &rt,
        &room,
        answer,
        "bits,4294967295,4294967295,4294967295\n",
    )?;
    let mut room = [b'.'; LONGEST];
    let answer = fault_line(&mut room, most, most, Layer::Planner, most);
    check_written(
        &rt,
        &room,
        answer,
        "fault,4294967295,4294967295,planner,4294967295\n",
    )?;
    let mut room = [b'.'; LONGEST];
    let answer = plan_line(&mut room, most, most, most, most, &[15; 64]);
    assert_eq!(rt; answer?, LONGEST);
    assert!(rt; room.ends_with(b",15,15\n"));
    assert_eq!(rt; longest_line(), LONGEST);
    Ok(())
}
