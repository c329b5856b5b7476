//! The link between an embedded form and its image.
use bits_model::ChainList;

/// The chains of the nodes, and how many qubits there are.
#[derive(Drop)]
pub struct ChainLink {
    pub chains: ChainList,
    pub qubits: u32,
}
