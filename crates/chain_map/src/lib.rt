//! Maps of chains: which qubits stand for each node of an Ising form.
//!
//! A text goes in as bytes, and out comes its map, or its first fault. A Chimera graph and a
//! number of nodes go in, and out come the chains of a clique, in which each two nodes have a
//! join. What it means that a map is valid on a graph is defined here; whether it is, another
//! crate checks.
#![tactic(auto)]

mod clique;
mod digits;
mod faults;
mod map;
mod reading;
mod spot;

pub use clique::clique_map;
pub use digits::first_number;
pub use faults::{CheckAnswer, EmbedFault};
pub use map::ChainMap;
pub use reading::read_map;
pub use spot::{Spot, clique_places, diagonal_of, fill_chain, path_qubit, spot_of};
