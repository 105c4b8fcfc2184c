// What every fault gives.
ghost use Rattle.std.specs.Prelude.{◌≡◌, ℕ};
ghost use Rattle.faults.specs.declared.layer.Layer.{Layer as Part};
ghost use Rattle.faults.specs.Refusals.{refusal};

use crate::layer::Layer;

// Why a call is refused: the part of the product that refuses, and the number of the case.
pub trait Fault: Copy {
    // the layer and the number of a fault
    ghost layers: { Self → Part };

    ghost numbers: { Self → ℕ };

    // The part of the product that refuses.
    fn layer(self) -> Layer
        ensures { result ≡ layers self };

    // The number of the case.
    fn number(self) -> u32
        ensures { result ≡ numbers self };
}

// The number of a refusal, none where the call did not refuse.
pub fn refusal_number<T: Drop, F: Fault>(answer: Result<T, F>) -> Option<u32>
    ensures { result ≡ refusal F.Fault.numbers answer }
{
    answer.err().map(|fault| fault.number())
}
