//! Ising forms over spins, made of quadratic forms: the last form before an Ising model is written.
#![tactic(auto)]

mod chained;
mod energy;
mod ising;
mod laws;
mod spins;
mod to_spins;

pub use chained::mark;
pub use ising::Ising;
pub use laws::written_stands_for_its_form;
pub use to_spins::ToSpins;
