// The blocks of the jobs: own and gain blocks of one type, through extra bits and then a weight.
ghost use Rattle.std.specs.Prelude.{◌≡◌, IfOk};

use offers::{BlockFault, Change, Either, Extended, Extra, GainBlock, OwnBlock, Weight, Weighted};

pub(crate) type Source = Weighted<Extended<Either<OwnBlock, GainBlock>>>;

fn layered(
    weight: u32,
    extra: u32,
    block: Either<OwnBlock, GainBlock>,
) -> Result<Source, BlockFault>
    ensures { IfOk result (λ source. (source.layer.times ≡ weight) × (source.below.layer.bits ≡ extra) × (source.below.below ≡ block)) }
{
    let weight = Weight::new(weight)?;
    let extra = Extra::new(extra)?;
    Ok(weight.over(extra.over(block)))
}

// An own block that offers grades 0 and 1, each by its rate and distortion.
pub(crate) fn own(
    weight: u32,
    extra: u32,
    coarse: (u32, u32),
    fine: (u32, u32),
) -> Result<Source, BlockFault> {
    let mut block = OwnBlock::new();
    block.set(0, coarse.0, coarse.1)?;
    block.set(1, fine.0, fine.1)?;
    layered(weight, extra, Either::Left(block))
}

pub(crate) fn gain(weight: u32, extra: u32, samples: u32, gain: u32) -> Result<Source, BlockFault> {
    let block = GainBlock::new(samples, gain)?;
    layered(weight, extra, Either::Right(block))
}
