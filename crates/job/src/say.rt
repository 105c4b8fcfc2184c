// Answer lines at the end of an output that grows.
ghost use Rattle.std.specs.Prelude.{◌≡◌, ◌++◌, OnOk};
ghost use Rattle.answers.specs.Room.{LineIn};
ghost use Rattle.answers.specs.Texts.{plan_text, bits_text};
ghost use Rattle.job.specs.Faults.{said_by};
ghost use Rattle.job.specs.Replies.{said_text};

use crate::fault::JobFault;
use crate::reply::{PlanGrades, Reply};
use answers::{LONGEST, bits_line, fault_line, plan_line};
use faults::Fault;
use std::alloc::AllocError;

// Each of these writes a line at the front of a room for the longest one, and answers how long the line is.
fn write_plan(
    room: &mut [u8; LONGEST],
    line: u32,
    budget: u32,
    bits: u32,
    cost: u32,
    grades: &PlanGrades,
) -> usize
    ensures { LineIn (plan_text line budget bits cost grades.now.list.items) room.old room.new result }
{
    plan_line(room, line, budget, bits, cost, &grades.list).unwrap()
}

fn write_bits(room: &mut [u8; LONGEST], line: u32, bound: u32, bits: u32) -> usize
    ensures { LineIn (bits_text line bound bits) room.old room.new result }
{
    bits_line(room, line, bound, bits).unwrap()
}

fn write_answer(room: &mut [u8; LONGEST], line: u32, answer: Result<Reply, JobFault>) -> usize
    ensures { LineIn (said_text line (said_by answer)) room.old room.new result }
{
    match answer {
        Ok(Reply::Nothing) => 0,
        Ok(
            Reply::Plan {
                budget,
                bits,
                cost,
                grades,
            },
        ) => write_plan(room, line, budget, bits, cost, &grades),
        Ok(Reply::Bits { bound, bits }) => write_bits(room, line, bound, bits),
        Err(fault) => fault_line(room, line, fault.field(), fault.layer(), fault.number()).unwrap(),
    }
}

// Appends the answer to a line.
pub(crate) fn say(
    out: &mut Vec<u8>,
    line: u32,
    answer: Result<Reply, JobFault>,
) -> Result<(), AllocError>
    ensures { OnOk result (out.new.items ≡ out.old.items ++ said_text line (said_by answer)) }
{
    let mut room = [0; LONGEST];
    let count = write_answer(&mut room, line, answer);
    out.extend_from_slice(&room[..count])
}
