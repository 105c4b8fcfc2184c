// Why a line is refused: a fault of the text, of terms or of a block, and the field where it was found.
ghost use Rattle.std.specs.Prelude.{◌≡◌, Some};
ghost use Rattle.faults.specs.Layers.{shown_fault};
ghost use Rattle.command.specs.declared.fault.LineFault.TheVariants.{Text, Terms, Block};
ghost use Rattle.command.specs.Faults.{fault_number, fault_layer};

use faults::{Fault, Layer};
use jobtext::TextFault;
use offers::BlockFault;
use std::error::Error;
use std::fmt;
use terms::TermsFault;

// A fault of the layer that found it, whole.
#[derive(Clone, Copy, PartialEq, Eq, Debug)]
pub enum LineFault {
    Text(TextFault),
    Terms(TermsFault),
    Block(BlockFault),
}

impl Fault for LineFault {
    ghost layers = { fault_layer };

    ghost numbers = { fault_number };

    fn layer(self) -> Layer {
        match self {
            LineFault::Text(fault) => fault.layer(),
            LineFault::Terms(fault) => fault.layer(),
            LineFault::Block(fault) => fault.layer(),
        }
    }

    fn number(self) -> u32 {
        match self {
            LineFault::Text(fault) => fault.number(),
            LineFault::Terms(fault) => fault.number(),
            LineFault::Block(fault) => fault.number(),
        }
    }
}

// The layer and the number, as `block 20`.
impl fmt::Display for LineFault {
    ghost output = { λ fault. Some (shown_fault (fault_layer fault) (fault_number fault)) };

    fn fmt<W: fmt::Write>(&self, f: &mut fmt::Formatter<W>) -> fmt::Result {
        write!(f, "{} {}", self.layer(), self.number())
    }
}

impl Error for LineFault {}

impl From<TextFault> for LineFault {
    ghost from_gives = { λ fault r. r ≡ Text fault };

    fn from(fault: TextFault) -> LineFault {
        LineFault::Text(fault)
    }
}

impl From<TermsFault> for LineFault {
    ghost from_gives = { λ fault r. r ≡ Terms fault };

    fn from(fault: TermsFault) -> LineFault {
        LineFault::Terms(fault)
    }
}

impl From<BlockFault> for LineFault {
    ghost from_gives = { λ fault r. r ≡ Block fault };

    fn from(fault: BlockFault) -> LineFault {
        LineFault::Block(fault)
    }
}

// A fault with its field: counted from 1, and 0 where the line as a whole is at fault.
#[derive(Clone, Copy, PartialEq, Eq, Debug)]
pub struct FieldFault {
    pub field: u32,
    pub fault: LineFault,
}
