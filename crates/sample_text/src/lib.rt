//! Sample texts: weighted CNF that a number and a count of clauses give.
//!
//! Two numbers go in, and out comes a text in the older layout of weighted CNF, with three literals
//! in a clause. One clause in about eight is hard. The same numbers give the same text everywhere,
//! so a sample is named by its two numbers.
#![tactic(auto)]

mod draws;
mod laws;
mod lines;
mod text;

pub use laws::laws_of_samples;
pub use text::sample_text;
