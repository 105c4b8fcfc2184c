// Tests of the planner: plans held to an enumeration of all choices, each refusal at its edge, what refused calls leave, the
// places, and whole runs.
#![tactic(auto)]

#[cfg(test)]
mod all_choices;
#[cfg(test)]
mod generated;
#[cfg(test)]
mod memory;
#[cfg(test)]
mod photographs;
#[cfg(test)]
mod plain;
#[cfg(test)]
mod refusals;
#[cfg(test)]
mod runs;
#[cfg(test)]
mod steps;
#[cfg(test)]
mod worked_job;
