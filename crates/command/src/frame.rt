// The checks of a line before its fields are looked at: its letter, its place, and how many fields it has.
ghost use Rattle.std.specs.Prelude.{◌≡◌, length, MatchResult};
ghost use Rattle.jobtext.specs.Parts.{line_fields};
ghost use Rattle.jobtext.specs.declared.fault.TextFault.TheVariants.{UnknownFirst};
ghost use Rattle.command.specs.Demands.{By};
ghost use Rattle.command.specs.Faults.{fault_number, fault_layer};
ghost use Rattle.command.specs.Lines.{in_place, right_count, Begins, Framed, Refused};

use crate::fault::{FieldFault, LineFault};
use jobtext::{LineKind, TextFault, field_count, letter_at, line_kind};

// A fault of the text itself.
fn refuse(field: u32, fault: TextFault) -> FieldFault
    ensures field { result.field ≡ field }
    ensures by { By fault (fault_layer result.fault) (fault_number result.fault) }
{
    FieldFault {
        field,
        fault: LineFault::Text(fault),
    }
}

// The kind of a line, by its first field.
fn kind_of(line: &[u8]) -> Result<LineKind, FieldFault>
    ensures { MatchResult result (λ kind. Begins (line_fields line.now) kind) (λ found. (found.field ≡ 1) × By UnknownFirst (fault_layer found.fault) (fault_number found.fault) × ((kind : LineKind) → Begins (line_fields line.now) kind → ⊥)) }
{
    letter_at(line, 0)
        .and_then(|letter| line_kind(letter))
        .ok_or(refuse(1, TextFault::UnknownFirst))
}

// Whether such a line may come now: a job is opened while none is open, and the rest is asked of an open job.
fn is_in_place(kind: LineKind, is_open: bool) -> bool
    ensures { result ≡ in_place kind is_open }
{
    (kind == LineKind::Job) != is_open
}

// Whether a line may have so many fields, in a job of so many grades.
fn is_right_count(kind: LineKind, grades: u8, count: usize) -> bool
    ensures { result ≡ right_count kind grades count }
{
    let right = match kind {
        LineKind::Job | LineKind::Gain => 5,
        LineKind::Own => 3 + 2 * usize::from(grades),
        LineKind::TakeBack => 1,
        LineKind::Plan | LineKind::Fewest => 2,
    };
    count == right
}

// The kind of a line that may come now and has as many fields as it should.
pub(crate) fn frame(line: &[u8], job: Option<u8>) -> Result<LineKind, FieldFault>
    ensures { MatchResult result (λ kind. Framed job (line_fields line.now) kind) (λ found. Refused job (line_fields line.now) found.field (fault_layer found.fault) (fault_number found.fault)) }
{
    let kind = kind_of(line)?;
    if !is_in_place(kind, job.is_some()) {
        return Err(refuse(1, TextFault::OutOfPlace));
    }
    if !is_right_count(kind, job.unwrap_or(0), field_count(line)) {
        return Err(refuse(0, TextFault::WrongCount));
    }
    Ok(kind)
}
