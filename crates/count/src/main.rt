// Counts hand-made choices of grades for two photographs, block by block, in both cost kinds.
#![tactic(auto)]

mod photographs;
mod show;

use crate::photographs::{gain_layers, gain_terms, worked_photograph, worked_terms};
use crate::show::{Photograph, show_layers};

fn worked(rt: &HostRuntime) -> anyhow::Result<()> {
    println!(rt; "A photograph of two own blocks")?;
    let terms = worked_terms()?;
    let blocks = worked_photograph(&terms)?;
    let photograph = Photograph {
        terms: &terms,
        blocks: &blocks,
    };
    photograph.show_terms(rt)?;
    photograph.show_blocks(rt)?;
    for grades in [[0, 0], [0, 1], [1, 0], [1, 1]] {
        photograph.show_choices(rt, &grades)?;
    }
    Ok(())
}

fn gain(rt: &HostRuntime) -> anyhow::Result<()> {
    println!(rt; "A photograph of three gain blocks under layers")?;
    let terms = gain_terms()?;
    let layers = gain_layers()?;
    let blocks = layers.map(|layers| layers.block(&terms));
    let photograph = Photograph {
        terms: &terms,
        blocks: &blocks,
    };
    photograph.show_terms(rt)?;
    show_layers(rt, &layers)?;
    photograph.show_blocks(rt)?;
    for grades in [[1, 1, 1], [3, 0, 2], [2, 3, 3], [0, 0, 0]] {
        photograph.show_choices(rt, &grades)?;
    }
    Ok(())
}

fn run(rt: &HostRuntime) -> anyhow::Result<()> {
    worked(rt)?;
    println!(rt)?;
    gain(rt)
}

fn main(rt: HostRuntime) -> anyhow::Result<()> {
    run(&rt)
}
