// Replays worked jobs in both cost kinds, and prints what was asked and answered.
#![tactic(auto)]

mod blocks;
mod show;

use crate::blocks::{gain, own};
use crate::show::show_run;
use costs::{Numbered, Total, Worst};
use planner::{Call, Question};
use terms::Terms;

// The worked job: two blocks, three budgets and two bounds, a take back, and two budgets more.
fn worked<K: Numbered + Clone>(rt: &HostRuntime) -> anyhow::Result<()> {
    let terms = Terms::flat(2, 10, 2)?;
    let first = own(1, 0, (1, 9), (4, 1))?;
    let second = own(1, 0, (1, 5), (3, 2))?;
    let mut calls = Vec::new(rt.alloc());
    calls.push(Call::Add(first))?;
    calls.push(Call::Add(second))?;
    show_run::<K>(rt, &terms, &calls, 1, 13)?;
    show_run::<K>(rt, &terms, &calls, 6, 13)?;
    show_run::<K>(rt, &terms, &calls, 7, 2)?;
    calls.push(Call::Ask(Question::Plan {
        budget: 1,
        entries: 2,
    }))?;
    calls.push(Call::Ask(Question::Fewest(K::of(2))))?;
    calls.push(Call::TakeBack)?;
    show_run::<K>(rt, &terms, &calls, 7, 1)?;
    show_run::<K>(rt, &terms, &calls, 11, 0)?;
    Ok(())
}

// Own and gain blocks under layers in one list, with calls that are refused among them.
fn mixed<K: Numbered + Clone>(rt: &HostRuntime) -> anyhow::Result<()> {
    let terms = Terms::flat(4, 60, 3)?;
    let plates = own(2, 1, (0, 30), (12, 4))?;
    let sky = gain(1, 2, 8, 3)?;
    let edge = gain(255, 0, 16, 128)?;
    let mut calls = Vec::new(rt.alloc());
    calls.push(Call::TakeBack)?;
    calls.push(Call::Add(plates))?;
    calls.push(Call::Add(sky))?;
    calls.push(Call::Ask(Question::Plan {
        budget: 61,
        entries: 64,
    }))?;
    calls.push(Call::Add(edge))?;
    calls.push(Call::TakeBack)?;
    calls.push(Call::Add(sky))?;
    calls.push(Call::Add(plates))?;
    for (budget, bound) in [(20, 100000), (40, 20000), (60, 1000)] {
        show_run::<K>(rt, &terms, &calls, budget, bound)?;
    }
    Ok(())
}

fn both<K: Numbered + Clone>(rt: &HostRuntime) -> anyhow::Result<()> {
    let kind = K::name();
    println!(rt; "the worked job, by {kind}")?;
    worked::<K>(rt)?;
    println!(rt; "own and gain blocks under layers, by {kind}")?;
    mixed::<K>(rt)
}

fn run(rt: &HostRuntime) -> anyhow::Result<()> {
    both::<Total>(rt)?;
    both::<Worst>(rt)
}

fn main(rt: HostRuntime) -> anyhow::Result<()> {
    run(&rt)
}
