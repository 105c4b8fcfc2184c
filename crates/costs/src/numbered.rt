// Kinds whose costs are numbers, as a job text writes them.
ghost use Rattle.std.specs.Prelude.{◌≡◌, ℕ, List};

use crate::kind::Kind;

pub trait Numbered: Kind {
    // the word for the kind, the cost of a number, and the number of a cost
    ghost named: { List ℕ };

    ghost of_number: { ℕ → Self };

    ghost number_of: { Self → ℕ };

    // The word for the kind.
    fn name() -> &'static str
        ensures { result.now ≡ named };

    // The cost that the number stands for.
    fn of(number: u32) -> Self
        ensures { result ≡ of_number number };

    // The number that stands for the cost.
    fn number(self) -> u32
        ensures { result ≡ number_of self };

    // each cost is the cost of its number
    ghost same_cost: { (cost : Self) → of_number (number_of cost) ≡ cost };

    // each number is the number of its cost
    ghost same_number: { (number : ℕ) → number_of (of_number number) ≡ number };
}
