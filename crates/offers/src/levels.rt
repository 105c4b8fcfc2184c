// How many levels each grade stands for, and the bits and the distortion of so many levels.
ghost use Rattle.std.specs.Prelude.{◌≡◌, ◌<◌, ◌≤◌, MatchOption};
ghost use Rattle.offers.specs.Levels.{levels, eighths, profile, rate_of, EighthsTable};

// The levels of grades 0 to 15.
const LEVELS: [u8; 16] = [1, 2, 3, 4, 6, 8, 12, 16, 24, 32, 48, 64, 96, 128, 192, 255];

// The eighths of 1 to 255 levels.
static EIGHTHS: [u8; 255] = [
    0, 8, 13, 16, 19, 21, 23, 24, 26, 27, 28, 29, 30, 31, 32, 32, 33, 34, 34, 35, 36, 36, 37, 37,
    38, 38, 39, 39, 39, 40, 40, 40, 41, 41, 42, 42, 42, 42, 43, 43, 43, 44, 44, 44, 44, 45, 45, 45,
    45, 46, 46, 46, 46, 47, 47, 47, 47, 47, 48, 48, 48, 48, 48, 48, 49, 49, 49, 49, 49, 50, 50, 50,
    50, 50, 50, 50, 51, 51, 51, 51, 51, 51, 52, 52, 52, 52, 52, 52, 52, 52, 53, 53, 53, 53, 53, 53,
    53, 53, 54, 54, 54, 54, 54, 54, 54, 54, 54, 55, 55, 55, 55, 55, 55, 55, 55, 55, 55, 56, 56, 56,
    56, 56, 56, 56, 56, 56, 56, 56, 57, 57, 57, 57, 57, 57, 57, 57, 57, 57, 57, 58, 58, 58, 58, 58,
    58, 58, 58, 58, 58, 58, 58, 58, 59, 59, 59, 59, 59, 59, 59, 59, 59, 59, 59, 59, 59, 60, 60, 60,
    60, 60, 60, 60, 60, 60, 60, 60, 60, 60, 60, 60, 60, 61, 61, 61, 61, 61, 61, 61, 61, 61, 61, 61,
    61, 61, 61, 61, 61, 62, 62, 62, 62, 62, 62, 62, 62, 62, 62, 62, 62, 62, 62, 62, 62, 62, 62, 63,
    63, 63, 63, 63, 63, 63, 63, 63, 63, 63, 63, 63, 63, 63, 63, 63, 63, 63, 64, 64, 64, 64, 64, 64,
    64, 64, 64, 64, 64, 64, 64, 64, 64, 64, 64, 64, 64, 64, 64,
];

// The table of eighths, with its rule over all of it.
pub fn eighths_table() -> &'static [u8; 255]
    ensures { EighthsTable result.now }
{
    &EIGHTHS
}

// A number of levels.
#[derive(Clone, Copy)]
pub(crate) struct Levels {
    count: u8,
    ghost some: { 1 ≤ count },
}

impl Levels {
    // The levels of a grade, none from 16 on.
    pub(crate) fn of(grade: u8) -> Option<Levels>
        ensures { MatchOption result (16 ≤ grade) (λ found. (grade < 16) × (found.count ≡ levels grade)) }
    {
        let count = *LEVELS.get(grade as usize)?;
        Some(Levels { count })
    }

    // The smallest number whose power of 2 is at least the eighth power of the levels.
    fn eighths(self) -> u8
        ensures { result ≡ eighths self.count }
    {
        eighths_table()[(self.count - 1) as usize]
    }

    // 65,536 divided by the square of the levels.
    pub(crate) fn profile(self) -> u32
        ensures is { result ≡ profile self.count }
        ensures small { result ≤ 65536 }
    {
        let count = self.count as u32;
        65536 / (count * count)
    }

    // The bits of so many samples at these levels, rounded up once.
    pub(crate) fn rate(self, samples: u32) -> u16
        requires { samples ≤ 256 }
        ensures { result ≡ rate_of samples self.count }
    {
        let eighths = self.eighths() as u32;
        (samples * eighths).div_ceil(8) as u16
    }
}
