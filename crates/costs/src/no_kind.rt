// Worst first and total second is no cost kind.
ghost use Rattle.std.specs.Prelude.{◌≡◌};
ghost use Rattle.costs.specs.NoKind.{turned_round, Turns, NoLaws};

// A worst distortion, and a total among equal worsts.
#[derive(Clone, Copy, PartialEq, Eq, Debug)]
pub struct WorstThenTotal {
    pub worst: u32,
    pub total: u32,
}

// Two values and a distortion that turns their ranking round.
#[derive(Clone, Copy, Debug)]
pub struct TurnedRound {
    pub cheaper: WorstThenTotal,
    pub dearer: WorstThenTotal,
    pub distortion: u32,
}

// The example of why no planner may rank so: joining the same distortion to both values turns their ranking round.
#[tactic(auto, using(crate::proofs::Turning::no_laws))]
pub fn worst_then_total_is_no_kind() -> TurnedRound
    ensures is { result ≡ turned_round }
    ensures turns { Turns result }
    ensures none { NoLaws }
{
    let cheaper = WorstThenTotal { worst: 5, total: 9 };
    let dearer = WorstThenTotal { worst: 6, total: 6 };
    TurnedRound {
        cheaper,
        dearer,
        distortion: 7,
    }
}
