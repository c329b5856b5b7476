//! Ising texts, read and written.
//!
//! A text goes in as bytes or as words, and out comes its problem in normal form, or its first
//! fault. A model of spins goes in, and out comes its text, which no other model has, whole or row by
//! row to a sink.
#![tactic(auto)]

mod reading;
mod writing;

pub use reading::{read_ising, read_ising_tokens};
pub use writing::{ising_text, write_ising};
