//! Reads states of a model, one bit a node, from the lines of a text.
#![tactic(auto)]

mod answer;
mod laws;
mod lines;
mod reading;

pub use answer::StateAnswer;
pub use laws::laws_of_states;
pub use lines::{States, count_states};
pub use reading::read_state;
