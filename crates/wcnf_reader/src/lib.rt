//! Weighted CNF texts, in the older layout and in that of 2022, read into problems.
//!
//! A text goes in as bytes or as words, and out comes its problem in normal form, or its first
//! fault. Each clause is put into the problem as soon as it is read, so no list of clauses as
//! written is kept; the literals of all clauses go through one list.
#![tactic(auto)]

mod header;
mod laws;
mod layout;
mod listed;
mod reading;

pub use laws::laws_of_readings;
pub use layout::ClauseLayout;
pub use reading::{read_wcnf, read_wcnf_tokens};
