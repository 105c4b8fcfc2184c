// Terms of planning: the number of grades, the ceiling in bits, and the charge from each grade to each other. Terms that
// exist are good.
ghost use Rattle.std.specs.Prelude.{◌≡◌, ℕ, ◌<◌, ◌≤◌, [], slice_index, slice_index_or};

#[derive(Clone, Copy)]
pub struct Terms {
    grades: u8,
    ceiling: u32,
    charges: [[u8; 16]; 16],
    ghost some: { 1 ≤ grades },
    ghost few: { grades ≤ 16 },
    ghost low: { ceiling ≤ 4095 },
    ghost stay: { (grade : ℕ) → grade < 16 → slice_index (slice_index_or charges grade []) grade ≡ 0 },
}

mod calls;
