// What is refused of terms, and the number and the layer of each case.
ghost use Rattle.std.specs.Prelude.{Some};
ghost use Rattle.faults.specs.Layers.{shown_fault};
ghost use Rattle.terms.specs.Faults.{terms_number, terms_layer};

use faults::{Fault, Layer};
use std::error::Error;
use std::fmt;

#[derive(Clone, Copy, PartialEq, Eq, Debug)]
pub enum TermsFault {
    GradesRange = 10,
    CeilingRange = 11,
    ChargeRange = 12,
    PairRange = 13,
}

impl Fault for TermsFault {
    ghost layers = { terms_layer };

    ghost numbers = { terms_number };

    fn layer(self) -> Layer {
        Layer::Terms
    }

    fn number(self) -> u32 {
        self as u32
    }
}

// The layer and the number, as `terms 10`.
impl fmt::Display for TermsFault {
    ghost output = { λ fault. Some (shown_fault (terms_layer fault) (terms_number fault)) };

    fn fmt<W: fmt::Write>(&self, f: &mut fmt::Formatter<W>) -> fmt::Result {
        write!(f, "{} {}", self.layer(), self.number())
    }
}

impl Error for TermsFault {}
