// What is refused of an answer line, with its number and its layer.
ghost use Rattle.std.specs.Prelude.{◌≡◌, Some};
ghost use Rattle.faults.specs.Layers.{shown_fault};
ghost use Rattle.answers.specs.Faults.{answer_number, answer_layer};

use faults::{Fault, Layer};
use std::error::Error;
use std::fmt;

// `RoomShort`: the line and its line feed want more bytes than the room has.
#[derive(Clone, Copy, PartialEq, Eq, Debug)]
pub enum AnswerFault {
    RoomShort = 40,
}

impl Fault for AnswerFault {
    ghost layers = { answer_layer };

    ghost numbers = { answer_number };

    fn layer(self) -> Layer {
        Layer::Answer
    }

    fn number(self) -> u32 {
        self as u32
    }
}

// The layer and the number, `answer 40`.
impl fmt::Display for AnswerFault {
    ghost output = { λ fault. Some (shown_fault (answer_layer fault) (answer_number fault)) };

    fn fmt<W: fmt::Write>(&self, f: &mut fmt::Formatter<W>) -> fmt::Result {
        write!(f, "{} {}", self.layer(), self.number())
    }
}

impl Error for AnswerFault {}
