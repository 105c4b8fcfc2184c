// A source that is one of two, so that blocks of both stand in one list.
ghost use Rattle.either.specs.Either.{either};
ghost use Rattle.either.specs.declared.Either.TheVariants.{Left, Right};

use crate::offer::Offer;
use crate::source::Source;
use either::Either;

impl<A: Source, B: Source> Source for Either<A, B> {
    ghost means = { either A.Source.means B.Source.means };

    ghost none_past = { elim [ Left a ↦ A.Source.none_past a | Right b ↦ B.Source.none_past b ] };

    ghost in_range = { elim [ Left a ↦ A.Source.in_range a | Right b ↦ B.Source.in_range b ] };

    fn offer(&self, grade: u8) -> Option<Offer> {
        match self {
            Either::Left(a) => a.offer(grade),
            Either::Right(b) => b.offer(grade),
        }
    }
}
