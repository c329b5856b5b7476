//! The check of an embedding: a map of chains in, and what it is on a graph out, or its first
//! fault.
//!
//! A map is valid where each node has a connected chain of its own and each coupling has a join.
//! The check makes one pass over the map for each way to fail. On the way it finds what a layer
//! above needs: for each qubit of a chain its parent on the way to the chain's first qubit, and
//! for each coupling the least joined pair of qubits.
#![tactic(auto)]

mod checking;
mod embedded;
mod laws;
mod least;
mod noted;
mod owners;
mod passes;
mod places;
mod search;
mod waiting;

pub use chain_map::{ChainMap, CheckAnswer, EmbedFault, clique_map, read_map};
pub use checking::check;
pub use embedded::{Embedded, PairList};
pub use laws::checks_give_one_embedding;
pub use passes::first_empty;
