// Small photographs in plain numbers, made by a generator, and the terms and blocks of those numbers.
ghost use Rattle.std.specs.Prelude.{◌≤◌};

use arrayvec::ArrayVec;
use offers::{BlockFault, OwnBlock};
use terms::{Terms, TermsFault};

// A generator of numbers, the same on every run.
#[derive(Clone, Copy)]
pub(crate) struct Dice {
    state: u32,
}

impl Dice {
    pub(crate) fn new(seed: u32) -> Dice {
        Dice { state: seed }
    }

    // The next number, below the number of sides.
    pub(crate) fn roll(&mut self, sides: u32) -> u32
        ensures { result ≤ sides }
    {
        let mut x = self.state;
        x ^= x << 13;
        x ^= x >> 17;
        x ^= x << 5;
        self.state = x;
        if sides == 0 { 0 } else { x % sides }
    }
}

// At most 4 blocks of at most 4 grades: the rate and the distortion of each block at each grade, and the charge from each grade
// to each.
#[derive(Drop)]
pub(crate) struct Photograph {
    pub(crate) grades: u32,
    pub(crate) ceiling: u32,
    charges: [[u32; 4]; 4],
    offers: ArrayVec<[Option<(u32, u32)>; 4], 4>,
}

// Charges of 0 to 4, one for each direction.
fn any_charges(dice: &mut Dice) -> [[u32; 4]; 4] {
    let mut charges = [[0; 4]; 4];
    for (from, row) in charges.iter_mut().enumerate() {
        for (to, charge) in row.iter_mut().enumerate() {
            if from != to {
                *charge = dice.roll(5);
            }
        }
    }
    charges
}

// A rate of 0 to 5 and a distortion of 0 to 3; nothing in one case of three.
fn any_offer(dice: &mut Dice) -> Option<(u32, u32)> {
    let offered = dice.roll(3);
    let rate = dice.roll(6);
    let distortion = dice.roll(4);
    if offered == 0 {
        None
    } else {
        Some((rate, distortion))
    }
}

fn any_offers(dice: &mut Dice) -> [[Option<(u32, u32)>; 4]; 4] {
    let mut offers = [[None; 4]; 4];
    for block in offers.iter_mut() {
        for offer in block.iter_mut() {
            *offer = any_offer(dice);
        }
    }
    offers
}

impl Photograph {
    // 1 to 4 grades, a ceiling of 0 to 30, 1 to 4 blocks.
    pub(crate) fn any(dice: &mut Dice) -> Photograph {
        let grades = dice.roll(4) + 1;
        let ceiling = dice.roll(31);
        let blocks = dice.roll(4) as usize + 1;
        let charges = any_charges(dice);
        let mut offers = ArrayVec::from(any_offers(dice));
        offers.truncate(blocks);
        Photograph {
            grades,
            ceiling,
            charges,
            offers,
        }
    }

    // How many blocks it has.
    pub(crate) fn blocks(&self) -> usize {
        self.offers.len()
    }

    // What a block offers at a grade below the number of grades.
    pub(crate) fn offer(&self, n: usize, grade: usize) -> Option<(u32, u32)> {
        if grade < self.grades as usize {
            self.written(n, grade)
        } else {
            None
        }
    }

    // What is written for a block at a grade, over the number of grades too.
    fn written(&self, n: usize, grade: usize) -> Option<(u32, u32)> {
        *self.offers.get(n)?.get(grade)?
    }

    // The charge into a grade; the first block pays none.
    pub(crate) fn charge(&self, before: Option<usize>, grade: usize) -> u32 {
        match before {
            Some(before) if before < 4 && grade < 4 => self.charges[before][grade],
            _ => 0,
        }
    }

    pub(crate) fn terms(&self) -> Result<Terms, TermsFault> {
        let mut terms = Terms::new();
        terms.reset(self.grades, self.ceiling)?;
        for from in 0..4u8 {
            for to in 0..4u8 {
                if from != to && (from as u32) < self.grades && (to as u32) < self.grades {
                    terms.set_pair(from, to, self.charge(Some(from as usize), to as usize))?;
                }
            }
        }
        Ok(terms)
    }

    // A block as a source. It offers grades over the number of grades too, which a planner must not ask for.
    pub(crate) fn block(&self, n: usize) -> Result<OwnBlock, BlockFault> {
        let mut block = OwnBlock::new();
        for (grade, offer) in (0..4).zip(self.offers.get(n).copied().unwrap_or([None; 4])) {
            if let Some((rate, distortion)) = offer {
                block.set(grade, rate, distortion)?;
            }
        }
        Ok(block)
    }
}
