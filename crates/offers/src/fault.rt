// What is refused of a block, and the number and the layer of each case.
ghost use Rattle.std.specs.Prelude.{Some};
ghost use Rattle.faults.specs.Layers.{shown_fault};
ghost use Rattle.offers.specs.Faults.{block_number, block_layer};

use faults::{Fault, Layer};
use std::error::Error;
use std::fmt;

#[derive(Clone, Copy, PartialEq, Eq, Debug)]
pub enum BlockFault {
    RateRange = 20,
    DistortionRange = 21,
    SamplesRange = 22,
    GainRange = 23,
    WeightRange = 24,
    ExtraRange = 25,
    GradeRange = 26,
}

impl Fault for BlockFault {
    ghost layers = { block_layer };

    ghost numbers = { block_number };

    fn layer(self) -> Layer {
        Layer::Block
    }

    fn number(self) -> u32 {
        self as u32
    }
}

// The layer and the number, as `block 20`.
impl fmt::Display for BlockFault {
    ghost output = { λ fault. Some (shown_fault (block_layer fault) (block_number fault)) };

    fn fmt<W: fmt::Write>(&self, f: &mut fmt::Formatter<W>) -> fmt::Result {
        write!(f, "{} {}", self.layer(), self.number())
    }
}

impl Error for BlockFault {}
