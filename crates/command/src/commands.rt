// What a line of a job text asks for.
ghost use Rattle.std.specs.Prelude.{◌≡◌, ◌≢◌, MatchResult};
ghost use Rattle.jobtext.specs.declared.fault.TextFault.TheVariants.{WrongForm};
ghost use Rattle.command.specs.Demands.{cost_letter};

use jobtext::TextFault;
use offers::{Either, Extra, GainBlock, OwnBlock, Weight};
use terms::Terms;

// The kind of cost that a job counts in.
#[derive(Clone, Copy, PartialEq, Eq, Debug)]
pub enum CostKind {
    Total,
    Worst,
}

// The kind of cost that a letter stands for.
impl TryFrom<char> for CostKind {
    ghost use Rattle.command.specs.declared.commands.CostKind.{CostKind};

    type Error = TextFault;

    ghost try_from_gives = { λ letter r. MatchResult r (λ kind. letter ≡ cost_letter kind) (λ fault. (fault ≡ WrongForm) × ((kind : CostKind) → letter ≢ cost_letter kind)) };

    fn try_from(letter: char) -> Result<CostKind, TextFault> {
        match letter {
            'T' => Ok(CostKind::Total),
            'W' => Ok(CostKind::Worst),
            _ => Err(TextFault::WrongForm),
        }
    }
}

#[derive(Clone, Copy)]
pub enum Command {
    // open a job
    Open {
        kind: CostKind,
        terms: Terms,
    },
    // add a block under its extra bits, and the weight above those
    Add {
        weight: Weight,
        extra: Extra,
        block: Either<OwnBlock, GainBlock>,
    },
    // take the last block back
    TakeBack,
    // plan within a budget
    Plan(u32),
    // find the fewest bits within a bound
    Fewest(u32),
}
