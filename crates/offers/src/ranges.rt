// The checks of one number at a time, for whoever reads a block field by field.
ghost use Rattle.std.specs.Prelude.{◌≡◌, IfOk};
ghost use Rattle.faults.specs.Refusals.{first, refusal};
ghost use Rattle.offers.specs.Faults.{block_number, grade_row, rate_row, distortion_row, samples_row, gain_row};

use crate::fault::BlockFault;
use faults::Limits;

const GRADE: Limits = Limits { least: 0, most: 15 };

const RATE: Limits = Limits {
    least: 0,
    most: 65535,
};

const DISTORTION: Limits = Limits {
    least: 0,
    most: 16777215,
};

const SAMPLES: Limits = Limits {
    least: 1,
    most: 256,
};

const GAIN: Limits = Limits {
    least: 1,
    most: 255,
};

// A grade as an index.
pub fn checked_grade(grade: u8) -> Result<usize, BlockFault>
    ensures refused { refusal block_number result ≡ first (grade_row grade) }
    ensures same { IfOk result (λ x. x ≡ grade) }
{
    let grade = GRADE.check(grade as u32, BlockFault::GradeRange)?;
    Ok(grade as usize)
}

pub fn checked_rate(rate: u32) -> Result<u32, BlockFault>
    ensures refused { refusal block_number result ≡ first (rate_row rate) }
    ensures same { IfOk result (λ x. x ≡ rate) }
{
    RATE.check(rate, BlockFault::RateRange)
}

pub fn checked_distortion(distortion: u32) -> Result<u32, BlockFault>
    ensures refused { refusal block_number result ≡ first (distortion_row distortion) }
    ensures same { IfOk result (λ x. x ≡ distortion) }
{
    DISTORTION.check(distortion, BlockFault::DistortionRange)
}

pub fn checked_samples(samples: u32) -> Result<u32, BlockFault>
    ensures refused { refusal block_number result ≡ first (samples_row samples) }
    ensures same { IfOk result (λ x. x ≡ samples) }
{
    SAMPLES.check(samples, BlockFault::SamplesRange)
}

pub fn checked_gain(gain: u32) -> Result<u32, BlockFault>
    ensures refused { refusal block_number result ≡ first (gain_row gain) }
    ensures same { IfOk result (λ x. x ≡ gain) }
{
    GAIN.check(gain, BlockFault::GainRange)
}
