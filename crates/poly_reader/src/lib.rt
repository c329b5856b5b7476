//! Polynomial texts, read into problems: each line is a product, and variables have names.
//!
//! A text goes in as bytes or as words, and out come its problem in normal form and the names of
//! its variables, or its first fault. Each product is put into the problem as soon as it is read,
//! and the literals of all products go through one list, where those of a long product are put in
//! order, each once, as they come. While the text is read, a name is what stands in it; each name
//! is copied once, after the last product.
#![tactic(auto)]

mod laws;
mod listed;
mod name_table;
mod names;
mod reading;

pub use laws::laws_of_readings;
pub use names::Names;
pub use reading::{Polynomial, read_poly, read_poly_tokens};
