// The answer lines. Each call writes one line with its line feed from the first byte of the room on, answers how many bytes
// that took, and leaves the bytes after them alone; where the room is too small for the whole line it writes none of it.
ghost use Rattle.std.specs.Prelude.{◌≡◌};
ghost use Rattle.faults.specs.Refusals.{first, refusal};
ghost use Rattle.answers.specs.Faults.{answer_number, line_row};
ghost use Rattle.answers.specs.Texts.{plan_text, bits_text, fault_text};
ghost use Rattle.answers.specs.Room.{Answered};
ghost use Rattle.answers.specs.Longest.{longest, EveryLineFits};

use crate::fault::AnswerFault;
use crate::line::{Line, put_number, put_numbers, write_line};
use crate::sink::Sink;
use faults::Layer;

// Room for any answer line of at most 64 grades below 100: the longest has four numbers of ten digits and 64 grades of two.
pub const LONGEST: usize = 241;

// The byte that ends every line.
const LINE_FEED: &[u8] = b"\n";

// `plan,line,budget,bits,cost`, and a comma and a grade for each block, oldest first.
#[derive(Drop)]
struct PlanLine<'a> {
    line: u32,
    budget: u32,
    bits: u32,
    cost: u32,
    grades: &'a [u8],
}

impl Line for PlanLine<'_> {
    ghost text = { λ l. plan_text l.line l.budget l.bits l.cost l.grades.now };

    fn put<S: Sink>(&self, out: &mut S) {
        out.put(b"plan");
        put_numbers(out, &[self.line, self.budget, self.bits, self.cost]);
        put_numbers(out, self.grades);
        out.put(LINE_FEED);
    }
}

// `bits,line,bound,bits`.
#[derive(Drop)]
struct BitsLine {
    line: u32,
    bound: u32,
    bits: u32,
}

impl Line for BitsLine {
    ghost text = { λ l. bits_text l.line l.bound l.bits };

    fn put<S: Sink>(&self, out: &mut S) {
        out.put(b"bits");
        put_numbers(out, &[self.line, self.bound, self.bits]);
        out.put(LINE_FEED);
    }
}

// `fault,line,field,layer,number`, the layer by its word.
#[derive(Drop)]
struct FaultLine {
    line: u32,
    field: u32,
    layer: Layer,
    number: u32,
}

impl Line for FaultLine {
    ghost text = { λ l. fault_text l.line l.field l.layer l.number };

    fn put<S: Sink>(&self, out: &mut S) {
        out.put(b"fault");
        put_numbers(out, &[self.line, self.field]);
        out.put(b",");
        out.put(self.layer.name().as_bytes());
        put_number(out, self.number);
        out.put(LINE_FEED);
    }
}

// Writes the line of a plan; with no grades it ends after the cost.
pub fn plan_line(
    room: &mut [u8],
    line: u32,
    budget: u32,
    bits: u32,
    cost: u32,
    grades: &[u8],
) -> Result<usize, AnswerFault>
    ensures refused { refusal answer_number result ≡ first (line_row (plan_text line budget bits cost grades.now) room.old) }
    ensures answered { Answered (plan_text line budget bits cost grades.now) room.old room.new result }
{
    write_line(
        room,
        &PlanLine {
            line,
            budget,
            bits,
            cost,
            grades,
        },
    )
}

// Writes the line of the fewest bits within a bound.
pub fn bits_line(room: &mut [u8], line: u32, bound: u32, bits: u32) -> Result<usize, AnswerFault>
    ensures refused { refusal answer_number result ≡ first (line_row (bits_text line bound bits) room.old) }
    ensures answered { Answered (bits_text line bound bits) room.old room.new result }
{
    write_line(room, &BitsLine { line, bound, bits })
}

// Writes the line of a fault.
pub fn fault_line(
    room: &mut [u8],
    line: u32,
    field: u32,
    layer: Layer,
    number: u32,
) -> Result<usize, AnswerFault>
    ensures refused { refusal answer_number result ≡ first (line_row (fault_text line field layer number) room.old) }
    ensures answered { Answered (fault_text line field layer number) room.old room.new result }
{
    write_line(
        room,
        &FaultLine {
            line,
            field,
            layer,
            number,
        },
    )
}

// A room of this many bytes is never too small for a fault, for bits, or for a plan of at most 64 grades below 100.
#[tactic(auto, using(crate::proofs::Fits::every_line_fits))]
pub fn longest_line() -> usize
    ensures value { result ≡ longest }
    ensures enough { EveryLineFits result }
{
    LONGEST
}
