// Where a plan, or a part of it, ends.

// A grade of a block, the bits up to there, and what the place of these keeps.
#[derive(Clone, Copy)]
pub(crate) struct End<K> {
    pub(crate) bits: usize,
    pub(crate) grade: u8,
    pub(crate) cost: K,
}
