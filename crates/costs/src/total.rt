// The total distortion.
ghost use Rattle.std.specs.Prelude.{codes};
ghost use Rattle.costs.specs.Kinds.{total_of, total_model};
ghost use Rattle.std.proofs.Common.{rules};

use crate::kind::Kind;
use crate::numbered::Numbered;

// The sum of the distortions, which stops at the largest number.
#[derive(Clone, Copy, PartialEq, Eq, PartialOrd, Ord, Debug)]
pub struct Total(pub u32);

impl Kind for Total {
    ghost model = { total_model };

    ghost ordered = { Prim.search rules };

    ghost alike_same = { Prim.search rules };

    fn start() -> Total {
        Total(0)
    }

    fn join(self, distortion: u32) -> Total {
        Total(self.0.saturating_add(distortion))
    }

    fn no_dearer(self, other: Total) -> bool {
        self <= other
    }
}

impl Numbered for Total {
    ghost named = { codes "total" };

    ghost of_number = { total_of };

    ghost number_of = { λ cost. cost.0 };

    ghost same_cost = { Prim.search rules };

    ghost same_number = { Prim.search rules };

    fn name() -> &'static str {
        "total"
    }

    fn of(number: u32) -> Total {
        Total(number)
    }

    fn number(self) -> u32 {
        self.0
    }
}
