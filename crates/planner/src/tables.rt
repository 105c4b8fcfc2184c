// What a planner knows beside its places: the terms and the standing blocks.
use arrayvec::ArrayVec;
use offers::Block;
use terms::Terms;

// The blocks stand in the order in which they were added.
#[derive(Drop)]
pub(crate) struct Tables {
    pub(crate) terms: Terms,
    pub(crate) blocks: ArrayVec<Block, 64>,
}
