// Reads a job text from standard input and writes its answer lines to standard output.
#![tactic(auto)]

use anyhow::anyhow;
use job::{LONGEST_TEXT, answer_text};
use std::io::{Read, Write};

// The places that a job is planned in.
const PLACES: usize = 4096;

fn run(rt: &HostRuntime) -> anyhow::Result<()> {
    // one byte past the limit tells a text that is too long
    let mut text = Vec::new(rt.alloc());
    rt.stdin()
        .take(LONGEST_TEXT as u64 + 1)
        .read_to_end(&mut text)?;
    let answers = answer_text(rt.alloc(), &text, PLACES).map_err(|_| anyhow!("out of memory"))?;
    rt.stdout().write_all(&answers)?;
    Ok(())
}

fn main(rt: HostRuntime) -> anyhow::Result<()> {
    run(&rt)
}
