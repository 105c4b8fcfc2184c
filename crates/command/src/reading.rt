// The one call that reads a line.
ghost use Rattle.jobtext.specs.Parts.{line_fields};
ghost use Rattle.command.specs.Lines.{grades_of, Read, ReadOnce};

use crate::commands::Command;
use crate::fault::FieldFault;
use crate::frame::frame;
use crate::lines::read_fields;
use terms::Terms;

// The command that a line asks for, or its first fault. The terms are those of the open job, none while no job is open.
pub fn read_command(line: &[u8], job: Option<&Terms>) -> Result<Command, FieldFault>
    ensures read { Read (grades_of job.entry) (line_fields line.now) result }
    ensures once { ReadOnce }
{
    let grades = job.map(Terms::grades);
    let kind = frame(line, grades)?;
    read_fields(line, kind, grades.unwrap_or(0))
}
