// Answers many stored jobs, so that the gate compares all their answer lines. The input is a row of parts, each after a line
// `NAME,BYTES,TIMES`: so many bytes, to be read so many times over. A part with a name begins a job, and one without goes on
// with it.
#![tactic(auto)]

ghost use Rattle.std.specs.Prelude.{◌<◌, length, IfSome};

use anyhow::Context;
use job::answer_text;
use jobtext::{field, number};
use std::io::{Read, Write};

// The places that each job is planned in.
const PLACES: usize = 4096;

// A part of a job.
#[derive(Clone, Copy)]
struct Part<'a> {
    name: &'a [u8],
    bytes: &'a [u8],
    times: u32,
}

// The first line, and what stands after its line feed.
fn first_line(bytes: &[u8]) -> Option<(&[u8], &[u8])>
    ensures { IfSome result (λ r. length r.1.now < length bytes.now) }
{
    let end = bytes.iter().position(|byte| *byte == b'\n')?;
    Some((&bytes[..end], &bytes[end + 1..]))
}

fn number_in(line: &[u8], index: usize) -> Option<u32> {
    number(field(line, index)?)
}

// The first part, and what stands after it.
fn next_part(input: &[u8]) -> Option<(Part<'_>, &[u8])>
    ensures { IfSome result (λ r. length r.1.now < length input.now) }
{
    let (line, after) = first_line(input)?;
    let long = number_in(line, 1)? as usize;
    let (bytes, rest) = after.split_at_checked(long)?;
    let part = Part {
        name: field(line, 0)?,
        bytes,
        times: number_in(line, 2)?,
    };
    Some((part, rest))
}

fn append(text: &mut Vec<u8>, part: Part) -> anyhow::Result<()> {
    for _ in 0..part.times {
        text.extend_from_slice(part.bytes)?;
    }
    Ok(())
}

fn print_heading(rt: &HostRuntime, name: &[u8]) -> anyhow::Result<()> {
    rt.stdout().write_all(b"== ")?;
    rt.stdout().write_all(name)?;
    rt.stdout().write_all(b"\n")?;
    Ok(())
}

fn print_answers(rt: &HostRuntime, text: &[u8]) -> anyhow::Result<()> {
    let answers = answer_text(rt.alloc(), text, PLACES)?;
    rt.stdout().write_all(&answers)?;
    Ok(())
}

fn run(rt: &HostRuntime) -> anyhow::Result<()> {
    let mut input = Vec::new(rt.alloc());
    rt.stdin().read_to_end(&mut input)?;
    // parts before the first name are gathered too, and belong to no job
    let mut text = Vec::new(rt.alloc());
    let mut begun = false;
    let mut rest: &[u8] = &input;
    while !rest.is_empty() {
        let (part, after) = next_part(rest).context("a stored job is not whole")?;
        if !part.name.is_empty() {
            if begun {
                print_answers(rt, &text)?;
            }
            text.clear();
            print_heading(rt, part.name)?;
            begun = true;
        }
        append(&mut text, part)?;
        rest = after;
    }
    if begun {
        print_answers(rt, &text)?;
    }
    Ok(())
}

fn main(rt: HostRuntime) -> anyhow::Result<()> {
    run(&rt)
}
