// The fields after the letter, from left to right, for each kind of line.
ghost use Rattle.std.specs.Prelude.{◌≡◌, ◌+◌, ◌*◌, ◌≤◌, true, length, Some, None, MatchResult};
ghost use Rattle.faults.specs.Refusals.{first};
ghost use Rattle.jobtext.specs.Parts.{line_fields};
ghost use Rattle.jobtext.specs.declared.kind.LineKind.TheVariants.{Job, Own, Gain, Plan, Fewest};
ghost use Rattle.terms.specs.Faults.{terms_number, grades_row, ceiling_row, charge_row};
ghost use Rattle.terms.specs.Rules.{Fresh, Flat};
ghost use Rattle.command.specs.Lines.{Begins, right_count, Shaped, ReadAfter};

use crate::blocks::own_block;
use crate::commands::Command;
use crate::fault::FieldFault;
use crate::fields::Field;
use jobtext::LineKind;
use offers::{Either, Extra, GainBlock, Weight, checked_samples};
use terms::{Terms, TermsFault, checked_grades};

// Terms of so many grades and a ceiling. The grades are in range, so only the ceiling can be refused.
fn uncharged(grades: u8, ceiling: u32) -> Result<Terms, TermsFault>
    requires { first (grades_row grades) ≡ None }
    ensures { MatchResult result (λ terms. Fresh grades ceiling terms × (first (ceiling_row ceiling) ≡ None)) (λ fault. first (ceiling_row ceiling) ≡ Some (terms_number fault)) }
{
    let mut terms = Terms::new();
    terms.reset(u32::from(grades), ceiling)?;
    Ok(terms)
}

// The terms, with a flat charge.
fn charged(mut terms: Terms, charge: u32) -> Result<Terms, TermsFault>
    ensures { MatchResult result (λ after. Flat terms charge after × (first (charge_row charge) ≡ None)) (λ fault. first (charge_row charge) ≡ Some (terms_number fault)) }
{
    terms.set_flat(charge)?;
    Ok(terms)
}

// `J,kind,grades,ceiling,charge`
fn job_line(line: &[u8]) -> Result<Command, FieldFault>
    requires { Shaped (line_fields line.now) Job 5 }
    ensures { ReadAfter (line_fields line.now) Job 0 result }
{
    let kind = Field::of(line, 2).cost_kind()?;
    let grades = Field::of(line, 3).read(|n| checked_grades(n))?;
    let terms = Field::of(line, 4).read(|ceiling| uncharged(grades, ceiling))?;
    let terms = Field::of(line, 5).read(|charge| charged(terms, charge))?;
    Ok(Command::Open { kind, terms })
}

// `O,weight,extra,` and a rate and a distortion for each grade
fn own_line(line: &[u8], grades: u8) -> Result<Command, FieldFault>
    requires { (grades ≤ 16) × (Shaped (line_fields line.now) Own (3 + 2 * grades)) }
    ensures { ReadAfter (line_fields line.now) Own grades result }
{
    let weight = Field::of(line, 2).read(Weight::new)?;
    let extra = Field::of(line, 3).read(Extra::new)?;
    let block = Either::Left(own_block(line, grades)?);
    Ok(Command::Add {
        weight,
        extra,
        block,
    })
}

// `G,weight,extra,samples,gain`
fn gain_line(line: &[u8]) -> Result<Command, FieldFault>
    requires { Shaped (line_fields line.now) Gain 5 }
    ensures { ReadAfter (line_fields line.now) Gain 0 result }
{
    let weight = Field::of(line, 2).read(Weight::new)?;
    let extra = Field::of(line, 3).read(Extra::new)?;
    let samples = Field::of(line, 4).read(|n| checked_samples(n))?;
    let gain = Field::of(line, 5).read(|gain| GainBlock::new(samples, gain))?;
    let block = Either::Right(gain);
    Ok(Command::Add {
        weight,
        extra,
        block,
    })
}

// `B,budget`
fn plan_line(line: &[u8]) -> Result<Command, FieldFault>
    requires { Shaped (line_fields line.now) Plan 2 }
    ensures { ReadAfter (line_fields line.now) Plan 0 result }
{
    let budget = Field::of(line, 2).number()?;
    Ok(Command::Plan(budget))
}

// `D,bound`
fn fewest_line(line: &[u8]) -> Result<Command, FieldFault>
    requires { Shaped (line_fields line.now) Fewest 2 }
    ensures { ReadAfter (line_fields line.now) Fewest 0 result }
{
    let bound = Field::of(line, 2).number()?;
    Ok(Command::Fewest(bound))
}

// A line whose letter and whose count of fields are known.
pub(crate) fn read_fields(line: &[u8], kind: LineKind, grades: u8) -> Result<Command, FieldFault>
    requires { (grades ≤ 16) × ((Begins (line_fields line.now) kind) × (right_count kind grades (length (line_fields line.now)) ≡ true)) }
    ensures { ReadAfter (line_fields line.now) kind grades result }
{
    match kind {
        LineKind::Job => job_line(line),
        LineKind::Own => own_line(line, grades),
        LineKind::Gain => gain_line(line),
        LineKind::TakeBack => Ok(Command::TakeBack),
        LineKind::Plan => plan_line(line),
        LineKind::Fewest => fewest_line(line),
    }
}
