// Tests of answer lines: worked lines, rooms that are too small, just right and larger, and the longest line of all.
#![tactic(auto)]

#[cfg(test)]
mod room_checks;
#[cfg(test)]
mod small_rooms;
#[cfg(test)]
mod worked_lines;
