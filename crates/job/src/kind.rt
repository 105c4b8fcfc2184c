// The kinds of cost that a job text names.
ghost use Rattle.command.specs.declared.commands.CostKind.{CostKind as Named};
ghost use Rattle.command.specs.declared.commands.CostKind.TheVariants as named;
ghost use Rattle.job.specs.Steps.{pricing, Means};

use costs::{Numbered, Total, Worst};

pub(crate) trait JobKind: Numbered {
    // the kind by its name
    ghost kind: { Named };

    // what a job of that name does is told by the kind's costs and their numbers
    ghost means: { Means kind (pricing Self.model Self.of_number Self.number_of) };
}

impl JobKind for Total {
    ghost kind = { named.Total };

    ghost means = { λ rules ceiling lent blocks instruction after said does. does };
}

impl JobKind for Worst {
    ghost kind = { named.Worst };

    ghost means = { λ rules ceiling lent blocks instruction after said does. does };
}
