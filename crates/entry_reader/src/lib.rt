//! Texts of entries, QUBO and Ising, read into problems.
//!
//! A text goes in as bytes or as words, and out comes its problem in normal form, or its first
//! fault. Each entry is put into the problem as soon as it is read, so no list of entries as written
//! is kept.
#![tactic(auto)]

mod added;
mod entries;
mod header;
mod laws;
mod layout;
mod reading;

pub use laws::{laws_of_readings, laws_of_texts, texts_are_read_again};
pub use layout::{Counts, Layout, Listed};
pub use reading::{read_entries, read_entries_tokens};
