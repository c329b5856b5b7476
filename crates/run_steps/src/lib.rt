//! The steps of a run that take files: each gives a value, or the status that refuses.
#![tactic(auto)]

mod certificates;
mod cut;
mod from_file;
mod last;
mod orders;
mod placements;
mod plans;
mod sources;
mod states;
mod status;
mod steps;

pub use last::take_last;
pub use orders::take_order;
pub use plans::{Plan, take_plan};
pub use states::take_states;
pub use status::Status;
