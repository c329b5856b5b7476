//! Quadratic forms over bits: the last form before a QUBO is written.
#![tactic(auto)]

mod energy;
mod flatten;
mod laws;
mod quad;
mod short;
mod sums;
mod units;
mod weights;

pub use flatten::Flatten;
pub use laws::written_stands_for_its_form;
pub use quad::{NumberList, Quad};
pub use sums::QuadSums;
pub use units::{CountedWeights, counted_weights};
pub use weights::{add_weight, signed, widened};
