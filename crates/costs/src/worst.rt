// The worst distortion.
ghost use Rattle.std.specs.Prelude.{codes};
ghost use Rattle.costs.specs.Kinds.{worst_of, worst_model};
ghost use Rattle.std.proofs.Common.{rules};

use crate::kind::Kind;
use crate::numbered::Numbered;

// The greatest of the distortions.
#[derive(Clone, Copy, PartialEq, Eq, PartialOrd, Ord, Debug)]
pub struct Worst(pub u32);

impl Kind for Worst {
    ghost model = { worst_model };

    ghost ordered = { Prim.search rules };

    ghost alike_same = { Prim.search rules };

    fn start() -> Worst {
        Worst(0)
    }

    fn join(self, distortion: u32) -> Worst {
        Worst(self.0.max(distortion))
    }

    fn no_dearer(self, other: Worst) -> bool {
        self <= other
    }
}

impl Numbered for Worst {
    ghost named = { codes "worst" };

    ghost of_number = { worst_of };

    ghost number_of = { λ cost. cost.0 };

    ghost same_cost = { Prim.search rules };

    ghost same_number = { Prim.search rules };

    fn name() -> &'static str {
        "worst"
    }

    fn of(number: u32) -> Worst {
        Worst(number)
    }

    fn number(self) -> u32 {
        self.0
    }
}
