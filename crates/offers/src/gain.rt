// A block of samples with a gain.
ghost use Rattle.std.specs.Prelude.{◌≤◌};

#[derive(Clone, Copy)]
pub struct GainBlock {
    samples: u32,
    gain: u32,
    ghost some: { 1 ≤ samples },
    ghost few: { samples ≤ 256 },
    ghost heard: { 1 ≤ gain },
    ghost soft: { gain ≤ 255 },
}

pub mod calls;
