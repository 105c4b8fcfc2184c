// What the program prints of a run. Every number that is answered comes from `replay`.
use crate::blocks::Source;
use costs::Numbered;
use planner::{Answers, Call, PlannerFault, Question, replay};
use std::io;
use terms::Terms;
use trellis::Place;

fn show_call<K: Numbered>(rt: &HostRuntime, call: &Call<Source, K>) -> io::Result<()> {
    match call {
        Call::Add(_) => print!(rt; " add"),
        Call::TakeBack => print!(rt; " take-back"),
        Call::Ask(Question::Plan { budget, entries }) => print!(rt; " plan({budget}, {entries})"),
        Call::Ask(Question::Fewest(bound)) => {
            let number = bound.number();
            print!(rt; " fewest({number})")
        }
    }
}

// The grades of a plan are those entries that the run wrote: the list is handed in full of 255.
fn show_plan<K: Numbered>(
    rt: &HostRuntime,
    budget: u32,
    plan: Result<(u32, K), PlannerFault>,
    grades: &[u8],
) -> io::Result<()> {
    match plan {
        Ok((bits, cost)) => {
            let cost = cost.number();
            print!(rt; "  budget {budget}: {bits} bits, cost {cost}, grades")?;
            for grade in grades.iter().filter(|grade| **grade < 16) {
                print!(rt; " {grade}")?;
            }
            println!(rt)
        }
        Err(fault) => println!(rt; "  budget {budget}: refused, {fault}"),
    }
}

fn show_fewest(rt: &HostRuntime, bound: u32, fewest: Result<u32, PlannerFault>) -> io::Result<()> {
    match fewest {
        Ok(bits) => println!(rt; "  bound {bound}: {bits} bits"),
        Err(fault) => println!(rt; "  bound {bound}: refused, {fault}"),
    }
}

// Replays the calls over places that hold other things, and prints the two answers.
pub(crate) fn show_run<K: Numbered + Clone>(
    rt: &HostRuntime,
    terms: &Terms,
    calls: &[Call<Source, K>],
    budget: u32,
    bound: u32,
) -> anyhow::Result<()> {
    print!(rt; "calls:")?;
    for call in calls {
        show_call(rt, call)?;
    }
    println!(rt)?;
    let other = Place {
        reached: true,
        cost: K::of(7),
    };
    let mut places = vec![in rt.alloc(); other; 1024]?;
    let mut grades = [255; 64];
    let Answers { plan, fewest } = replay(
        *terms,
        &mut places,
        calls,
        budget,
        K::of(bound),
        &mut grades,
    );
    show_plan(rt, budget, plan, &grades)?;
    show_fewest(rt, bound, fewest)?;
    Ok(())
}
