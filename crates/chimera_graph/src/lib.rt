//! The Chimera graph, as hardware.
#![tactic(auto)]

mod chimera;
mod lines;
mod place;

pub use chimera::Chimera;
pub use place::Place;
