// What a line is answered with.
ghost use Rattle.std.specs.Prelude.{◌<◌};
ghost use Rattle.std.specs.List.{All};

use arrayvec::ArrayVec;

// The grades of a plan, first block first.
#[derive(Drop)]
pub(crate) struct PlanGrades {
    pub(crate) list: ArrayVec<u8, 64>,
    ghost low: { All (λ grade. grade < 100) list.items },
}

#[derive(Drop)]
pub(crate) enum Reply {
    Nothing,
    Plan {
        budget: u32,
        bits: u32,
        cost: u32,
        grades: PlanGrades,
    },
    Bits {
        bound: u32,
        bits: u32,
    },
}
