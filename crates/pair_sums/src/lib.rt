//! Couplers that are gathered in any order, packed, sorted by the numbers of their pairs, and summed.
#![tactic(auto)]

mod appending;
mod gathered_pairs;
mod listed;
mod pairs;
mod shape;
mod sorting;

pub use appending::push_some;
pub use gathered_pairs::GatheredPairs;
pub use pairs::Pairs;
pub use sorting::in_order;
