// A whole job text to all its answer lines.
ghost use Rattle.std.specs.Prelude.{ℕ, ◌≤◌, [], length, IfOk, OnOk};
ghost use Rattle.jobtext.specs.Parts.{text_lines};
ghost use Rattle.command.specs.Instructions.{FlatCharge};
ghost use Rattle.job.specs.Transcript.{idle, busy, Transcript, Output, OneOutput};
ghost use Rattle.job.specs.Steps.{AnswersTo, Grown};

use crate::fault::JobFault;
use crate::kind::JobKind;
use crate::numbered::NumberedLines;
use crate::open_job::OpenJob;
use crate::say::say;
use command::{Command, CostKind, FieldFault, LineFault, read_command};
use costs::{Total, Worst};
use jobtext::TextFault;
use std::alloc::{AllocError, Global};
use terms::Terms;
use trellis::Place;

// The longest text that is read.
pub const LONGEST_TEXT: usize = 32768;

// Opens a job of a kind and answers the lines that are left.
fn answer_job<K: JobKind>(
    heap: Global,
    places: usize,
    terms: Terms,
    lines: NumberedLines,
    out: &mut Vec<u8>,
) -> Result<(), AllocError>
    ensures { (charge : ℕ) → FlatCharge charge terms → OnOk result (Grown out.old.items out.new.items (AnswersTo places (busy K.kind terms.grades terms.ceiling charge []) lines.entry)) }
{
    let mut lent = vec![in heap; Place::<K>::unreached(); places]?;
    let mut job = OpenJob::open(terms, &mut lent);
    for (number, line) in lines {
        let answer = job.respond(line);
        say(out, number, answer)?;
    }
    Ok(())
}

// Answers the lines of a text that is not too long.
fn answer_lines(
    heap: Global,
    text: &[u8],
    places: usize,
    out: &mut Vec<u8>,
) -> Result<(), AllocError>
    requires { length text.now ≤ 32768 }
    ensures { OnOk result (Grown out.old.items out.new.items (Transcript places idle 1 (text_lines text.now))) }
{
    let mut lines = NumberedLines::of(text);
    while let Some((number, line)) = lines.next() {
        if line.is_empty() {
            continue;
        }
        match read_command(line, None) {
            Ok(Command::Open { kind, terms }) => {
                return match kind {
                    CostKind::Total => answer_job::<Total>(heap, places, terms, lines, out),
                    CostKind::Worst => answer_job::<Worst>(heap, places, terms, lines, out),
                };
            }
            Ok(_) => unreachable(),
            Err(fault) => say(out, number, Err(JobFault::Line(fault)))?,
        }
    }
    Ok(())
}

// The answer lines to a whole job text, planned in so many places. The only other outcome is want of memory. `once`: no text
// has two outputs.
#[tactic(auto, using(crate::proofs::Onlys::one_output))]
pub fn answer_text(heap: Global, text: &[u8], places: usize) -> Result<Vec<u8>, AllocError>
    ensures output { IfOk result (λ out. Output places text.now out.items) }
    ensures once { OneOutput }
{
    let mut out = Vec::new(heap);
    if text.len() > LONGEST_TEXT {
        // no line is read
        let fault = LineFault::Text(TextFault::TooLong);
        let found = JobFault::Line(FieldFault { field: 0, fault });
        say(&mut out, 0, Err(found))?;
        return Ok(out);
    }
    answer_lines(heap, text, places, &mut out)?;
    Ok(out)
}
