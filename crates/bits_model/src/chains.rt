//! Chains of qubits, one after another in one list.
use base::Lists;

/// The qubits of each node's chain, in the chain's order, which contracts see as a list of lists.
///
/// A chain takes 4 bytes for each qubit, and 8 for where it ends.
pub type ChainList = Lists<u32>;
