//! What no clause says of whole runs: all states of their models, and ends of which a call fails.
//!
//! The tests stand apart from the crates that they call, so that these are proved once and not
//! again with their tests. Runs of fixed words and files are the cases of worked_examples.
#![tactic(auto)]

#[cfg(test)]
mod both_ways;
#[cfg(test)]
mod counts;
#[cfg(test)]
mod endless;
#[cfg(test)]
mod models;
#[cfg(test)]
mod pieces;
#[cfg(test)]
mod polynomials;
#[cfg(test)]
mod read_back;
#[cfg(test)]
mod refusals;
#[cfg(test)]
mod runs;
#[cfg(test)]
mod small_sources;
#[cfg(test)]
mod soft_sources;
#[cfg(test)]
mod states;
#[cfg(test)]
mod steps;
#[cfg(test)]
mod streams;
mod worked;
