// What every cost kind gives and keeps. The kind is the type of its cost values.
ghost use Rattle.std.specs.Prelude.{◌≡◌};
ghost use Rattle.costs.specs.Model.{Model, Ordered, AlikeSame};

pub trait Kind: Copy {
    // the start value, the joining with one distortion, and the ranking
    ghost model: { Model Self };

    // The cost of no block.
    fn start() -> Self
        ensures { result ≡ model.start };

    // The cost with one more block of this distortion.
    fn join(self, distortion: u32) -> Self
        ensures { result ≡ model.joined self distortion };

    // Whether this cost is no dearer than the other.
    fn no_dearer(self, other: Self) -> bool
        ensures { result ≡ model.ranks self other };

    // any two values compare, the ranking is transitive, and joining keeps it
    ghost ordered: { Ordered model };

    // values that rank alike are the same
    ghost alike_same: { AlikeSame model };
}
