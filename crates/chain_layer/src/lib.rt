//! The layer that puts an embedded Ising form on the qubits of its chains.
//!
//! A form whose nodes stand on chains goes in, and out comes an Ising form on all qubits. A state
//! of it is read chain by chain, by the majority, and no state, however broken its chains are, lies
//! below what it is read as.
#![tactic(auto)]

mod chains;
mod copying;
mod decoding;
mod extending;
mod laws;
mod link;
mod merging;
mod placing;
mod shares;
mod strengths;
mod ties;

pub use chains::Chains;
pub use copying::copied;
pub use decoding::decoded;
pub use extending::{extended, on_chains};
pub use laws::laws_of_images;
pub use link::ChainLink;
pub use shares::shared_fields;
pub use strengths::raise_ends;
pub use ties::{coupling, placed};
