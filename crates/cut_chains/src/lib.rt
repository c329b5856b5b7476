//! The layer of chains, with ties that are as strong as the lighter of their sides asks.
//!
//! A form whose nodes stand on chains goes in, and out comes an Ising form on all qubits, with
//! weaker ties than those of the layer of chains. A least state of it has no broken chain and is
//! read as a least state of the form. A state that is not least may lie below what it is read as.
#![tactic(auto)]

mod cut_chains;
mod image;
mod laws;
mod link;
mod orders;
mod sums;
mod ties;
mod weights;

pub use cut_chains::CutChains;
pub use laws::{law_of_least_states, laws_of_cut_images, laws_of_cut_links};
pub use link::CutLink;
