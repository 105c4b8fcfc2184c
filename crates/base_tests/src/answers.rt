// Answers as plain numbers, so that a test says what it expects in numbers alone, and blocks to ask.
use offers::{Block, BlockFault, Offer, OwnBlock, offers_below};
use terms::Terms;

// The rate and the distortion of an offer.
pub(crate) fn numbers(offer: Option<Offer>) -> Option<(u16, u32)> {
    offer.map(|offer| (offer.rate(), offer.distortion()))
}

// The charge of every change of grade, by the grade before and the grade after.
pub(crate) fn charges(terms: &Terms) -> [[u32; 16]; 16] {
    let mut charges = [[0; 16]; 16];
    for (from, row) in (0..16u8).zip(&mut charges) {
        for (to, charge) in (0..16u8).zip(row) {
            *charge = terms.charge_into(Some(from), to);
        }
    }
    charges
}

// A block that offers one grade.
pub(crate) fn one_offer(grade: u8, rate: u32, distortion: u32) -> Result<OwnBlock, BlockFault> {
    let mut block = OwnBlock::new();
    block.set(grade, rate, distortion)?;
    Ok(block)
}

// A block of two grades, each offered at a rate and a distortion.
pub(crate) fn two_grades(first: (u32, u32), second: (u32, u32)) -> Result<Block, BlockFault> {
    let mut block = OwnBlock::new();
    block.set(0, first.0, first.1)?;
    block.set(1, second.0, second.1)?;
    Ok(offers_below(&block, 2))
}
