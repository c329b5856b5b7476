//! What no clause says of the readers and of the ends that texts come from, on values from outside.
//!
//! The tests stand apart from the crates that they call, so that these are proved once and not
//! again with their tests.
#![tactic(auto)]

#[cfg(test)]
mod added_costs;
#[cfg(test)]
mod bounded_tops;
#[cfg(test)]
mod command_rows;
#[cfg(test)]
mod conflicts;
mod judged_lines;
#[cfg(test)]
mod key_rows;
#[cfg(test)]
mod memory_ends;
#[cfg(test)]
mod pieces;
#[cfg(test)]
mod real_ends;
#[cfg(test)]
mod state_lines;
#[cfg(test)]
mod tokens_and_numbers;
#[cfg(test)]
mod whole_texts;
