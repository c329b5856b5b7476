//! Tests of what finds optima, and of what is read off states, over all states of small models.
//!
//! The crate is a library without items. It stands above what it tests, so that no library is proved
//! once more with its tests.
#![tactic(auto)]

#[cfg(test)]
mod certificates;
#[cfg(test)]
mod drawn;
#[cfg(test)]
mod orders;
#[cfg(test)]
mod read_states;
#[cfg(test)]
mod solving;
