// What the program prints. Every number comes from a call of the library.
use crate::photographs::Pile;
use costs::{Numbered, Total, Worst};
use offers::{Block, Offer};
use std::io;
use terms::{Terms, count_choice};

// Terms, and what the blocks of a photograph offer under them.
#[derive(Clone, Copy)]
pub(crate) struct Photograph<'a> {
    pub(crate) terms: &'a Terms,
    pub(crate) blocks: &'a [Block],
}

impl Photograph<'_> {
    pub(crate) fn show_terms(&self, rt: &HostRuntime) -> io::Result<()> {
        let grades = self.terms.grades();
        println!(rt; "terms: {grades} grades, ceiling {}", self.terms.ceiling())?;
        for from in 0..grades {
            for to in 0..grades {
                let charge = self.terms.charge_into(Some(from), to);
                if charge > 0 {
                    println!(rt; "  from {from} to {to}: {charge} bits")?;
                }
            }
        }
        Ok(())
    }

    pub(crate) fn show_blocks(&self, rt: &HostRuntime) -> io::Result<()> {
        for (k, block) in self.blocks.iter().enumerate() {
            println!(rt; "block {} offers", k + 1)?;
            show_offers(rt, block)?;
        }
        Ok(())
    }

    pub(crate) fn show_choices(&self, rt: &HostRuntime, grades: &[u8]) -> io::Result<()> {
        self.show_choice::<Total>(rt, grades)?;
        self.show_choice::<Worst>(rt, grades)
    }

    // One row a block: its rate and the charge into it, and the bits and the cost of the choice up to it.
    fn show_choice<K: Numbered>(&self, rt: &HostRuntime, grades: &[u8]) -> io::Result<()> {
        let kind = K::name();
        println!(rt; "choice {grades:?} by {kind}")?;
        let mut before = None;
        for (k, block) in self.blocks.iter().enumerate() {
            let n = k + 1;
            let Some(grades) = grades.get(..n) else {
                break;
            };
            let grade = grades[k];
            let counted = count_choice::<K>(self.terms, &self.blocks[..n], grades);
            match counted.zip(offered(block, grade)) {
                Some(((bits, cost), offer)) => {
                    let rate = offer.rate();
                    let charge = self.terms.charge_into(before, grade);
                    let cost = cost.number();
                    println!(rt;
                        "  block {n}: grade {grade}, rate {rate}, charge {charge}, bits {bits}, {kind} {cost}"
                    )?;
                }
                None => println!(rt; "  up to block {n}: no choice")?,
            }
            before = Some(grade);
        }
        Ok(())
    }
}

pub(crate) fn show_layers(rt: &HostRuntime, layers: &[Pile]) -> io::Result<()> {
    for (k, block) in layers.iter().enumerate() {
        let n = k + 1;
        let weight = block.weight.times();
        let extra = block.extra.bits();
        let samples = block.gain.samples();
        let gain = block.gain.gain();
        println!(rt;
            "layers of block {n}: weight {weight} over extra {extra} over {samples} samples at gain {gain}"
        )?;
    }
    Ok(())
}

fn show_offers(rt: &HostRuntime, block: &Block) -> io::Result<()> {
    for (grade, offer) in block.iter().enumerate() {
        if let Some(offer) = offer {
            println!(rt;
                "  grade {grade}: {} bits, distortion {}",
                offer.rate(),
                offer.distortion()
            )?;
        }
    }
    Ok(())
}

// What a block offers at a grade, if anything.
fn offered(block: &Block, grade: u8) -> Option<Offer> {
    block.get(grade as usize).copied().flatten()
}
