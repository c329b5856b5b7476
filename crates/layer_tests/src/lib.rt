//! Tests of tables, over values by hand and against a plain map, and of guards and layers, at all
//! states of small problems and tables.
//!
//! The crate is a library without items. It stands above what it tests, so that no library is
//! proved once more with its tests.
#![tactic(auto)]

#[cfg(test)]
mod all_states;
#[cfg(test)]
mod constraints;
#[cfg(test)]
mod figures;
#[cfg(test)]
mod given;
#[cfg(test)]
mod graphs;
#[cfg(test)]
mod guards;
#[cfg(test)]
mod layers;
#[cfg(test)]
mod many_entries;
#[cfg(test)]
mod products;
#[cfg(test)]
mod substitutions;
#[cfg(test)]
mod tables;
