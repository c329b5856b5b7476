//! Graphs of qubits that are given as a text: each line names a qubit, or two that are joined.
//!
//! The text goes in, and out comes the graph, or the text's first fault. Numbers may have gaps: a
//! qubit is a number that some line names.
#![tactic(auto)]

mod complete;
mod index;
mod joins;
mod listed;

pub use listed::{Listed, read_graph};
