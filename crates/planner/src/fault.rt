// What the planner refuses, and the number and the layer of each case.
ghost use Rattle.std.specs.Prelude.{Some};
ghost use Rattle.faults.specs.Layers.{shown_fault};
ghost use Rattle.planner.specs.Faults.{planner_number, planner_layer};

use faults::{Fault, Layer};
use std::error::Error;
use std::fmt;

#[derive(Clone, Copy, PartialEq, Eq, Debug)]
pub enum PlannerFault {
    TooManyBlocks = 30,
    TooFewPlaces = 31,
    NoBlock = 32,
    OverCeiling = 33,
    ShortList = 34,
    NothingFits = 35,
    NoneWithin = 36,
}

impl Fault for PlannerFault {
    ghost layers = { planner_layer };

    ghost numbers = { planner_number };

    fn layer(self) -> Layer {
        Layer::Planner
    }

    fn number(self) -> u32 {
        self as u32
    }
}

// The layer and the number, as `planner 35`.
impl fmt::Display for PlannerFault {
    ghost output = { λ fault. Some (shown_fault (planner_layer fault) (planner_number fault)) };

    fn fmt<W: fmt::Write>(&self, f: &mut fmt::Formatter<W>) -> fmt::Result {
        write!(f, "{} {}", self.layer(), self.number())
    }
}

impl Error for PlannerFault {}
