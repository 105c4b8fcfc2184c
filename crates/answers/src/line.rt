// Lines of text, and how one is written into lent bytes.
ghost use Rattle.std.specs.Prelude.{◌≡◌, ℕ, List, ◌∷◌};
ghost use Rattle.std.specs.List.{flat_map};
ghost use Rattle.faults.specs.Refusals.{first, refusal};
ghost use Rattle.answers.specs.Faults.{answer_number, line_row};
ghost use Rattle.answers.specs.Room.{Answered};

use crate::fault::AnswerFault;
use crate::sink::{Left, Sink, Written};
use itoa::{Buffer, Integer};

// A line of text, with its line feed.
pub(crate) trait Line {
    ghost text: { Self → List ℕ };

    fn put<S: Sink>(&self, out: &mut S)
        ensures { S.takes out.old (text self.now) out.new };
}

// Puts a comma and a number.
pub(crate) fn put_number<S: Sink, N: Integer>(out: &mut S, number: N)
    ensures { S.takes out.old (44 ∷ N.text number) out.new }
{
    out.put(b",");
    out.put(Buffer::new().format(number).as_bytes());
}

// Puts a comma and a number for each of them, and looks at no more of them once the sink is full.
pub(crate) fn put_numbers<S: Sink, N: Integer>(out: &mut S, numbers: &[N])
    ensures { S.takes out.old (flat_map (λ number. 44 ∷ N.text number) numbers.now) out.new }
{
    for number in numbers {
        if out.is_full() {
            return;
        }
        put_number(out, *number);
    }
}

// Writes a line, or nothing at all where it does not fit.
pub(crate) fn write_line<L: Line>(room: &mut [u8], line: &L) -> Result<usize, AnswerFault>
    ensures refused { refusal answer_number result ≡ first (line_row (L.text line.now) room.old) }
    ensures answered { Answered (L.text line.now) room.old room.new result }
{
    let mut left = Left {
        bytes: Some(room.len()),
    };
    line.put(&mut left);
    left.bytes.ok_or(AnswerFault::RoomShort)?;
    let mut written = Written { room, count: 0 };
    line.put(&mut written);
    Ok(written.count)
}
