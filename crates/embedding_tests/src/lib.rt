//! Tests of chain maps on graphs with dead parts, over random maps, against a plain search. And tests
//! of the layers of chains, over all states of small models, against plain arithmetic, of graphs that
//! are given as lists, and of the sort of keys, against that of std.
//!
//! The crate is a library without items. It stands above what it tests, so that no library is proved
//! once more with its tests.
#![tactic(auto)]

#[cfg(test)]
mod all_states;
#[cfg(test)]
mod arithmetic;
#[cfg(test)]
mod cut_bounds;
#[cfg(test)]
mod dead_parts;
#[cfg(test)]
mod drawn;
#[cfg(test)]
mod forms;
#[cfg(test)]
mod keys;
#[cfg(test)]
mod listed;
#[cfg(test)]
mod plain;
#[cfg(test)]
mod random;
