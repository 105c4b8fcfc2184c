// The calls of a run.

// A question to a planner, which changes nothing.
#[derive(Clone, Copy, Drop)]
pub enum Question<K> {
    // the plan at a budget, into a list of so many entries
    Plan { budget: u32, entries: usize },
    // the fewest bits within a bound
    Fewest(K),
}

// A call of a planner.
#[derive(Clone, Copy, Drop)]
pub enum Call<S, K> {
    Add(S),
    TakeBack,
    Ask(Question<K>),
}
