// Tests of the base: each refusal at both edges of its range, what a refused call leaves, layers and piles, kinds, counts.
#![tactic(auto)]

#[cfg(test)]
mod answers;
#[cfg(test)]
mod choices;
#[cfg(test)]
mod fault_names;
#[cfg(test)]
mod gain_blocks;
#[cfg(test)]
mod kinds;
#[cfg(test)]
mod own_blocks;
#[cfg(test)]
mod piles;
#[cfg(test)]
mod ranges;
#[cfg(test)]
mod slot_terms;
