//! QUBO texts in the layout of qbsolv, read and written.
//!
//! A text goes in as bytes or as words, and out comes its problem in normal form, or its first
//! fault. A QUBO goes in, and out comes its text, which no other model has, whole or row by row to a
//! sink.
#![tactic(auto)]

mod reading;
mod writing;

pub use reading::{read_qubo, read_qubo_tokens};
pub use writing::{qubo_text, write_qubo};
