//! Steps from one form to the next, one step after another, and how the energies of one form stand
//! for the costs of another.
#![tactic(auto)]

mod guard;
mod laws;
mod layer;
mod scope;
mod then;

pub use guard::{Guard, Guarded};
pub use laws::{bounds_compose, relations_compose, rewriting_relaxes};
pub use layer::{BitsLink, Layer, Lowered, Reduced};
pub use scope::PenaltyScope;
pub use then::{Then, ThenLink};
