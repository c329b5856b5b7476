//! Penalties: from a problem, whose costs may be infinite, to a table, whose costs are not.
#![tactic(auto)]

mod adding;
mod constraints;
mod laws;
mod own;
mod parts;
mod penalty;
mod slack;
mod squares;

pub use adding::add_contributions;
pub use constraints::node_count;
pub use laws::{laws_of_penalties, laws_of_squares};
pub use penalty::Penalty;
