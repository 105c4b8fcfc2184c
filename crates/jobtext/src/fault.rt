// What is refused of a text as such, and the number of each case.
ghost use Rattle.std.specs.Prelude.{Some};
ghost use Rattle.faults.specs.Layers.{shown_fault};
ghost use Rattle.jobtext.specs.Faults.{text_number, text_layer};

use faults::{Fault, Layer};
use std::error::Error;
use std::fmt;

#[derive(Clone, Copy, PartialEq, Eq, Debug)]
pub enum TextFault {
    // a field is not what is asked for in its place
    WrongForm = 1,
    // a line has too few or too many fields
    WrongCount,
    // a line begins with none of the letters
    UnknownFirst,
    // a job is opened while one is open, or something else is asked while none is
    OutOfPlace,
    // the text has more bytes than are read
    TooLong,
}

impl Fault for TextFault {
    ghost layers = { text_layer };

    ghost numbers = { text_number };

    fn layer(self) -> Layer {
        Layer::Text
    }

    fn number(self) -> u32 {
        self as u32
    }
}

// The layer and the number, as `text 1`.
impl fmt::Display for TextFault {
    ghost output = { λ fault. Some (shown_fault (text_layer fault) (text_number fault)) };

    fn fmt<W: fmt::Write>(&self, f: &mut fmt::Formatter<W>) -> fmt::Result {
        write!(f, "{} {}", self.layer(), self.number())
    }
}

impl Error for TextFault {}
