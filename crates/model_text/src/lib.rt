//! The text of a written model.
//!
//! A model of any kind goes in, and out comes its text: rows of words for its figures, for its
//! graph and chains where it has any, for what it counts, and for each weight. No other model has
//! that text, so a reader of it loses nothing. The text is put to a sink row by row and never held, or
//! appended to a vector.
#![tactic(auto)]

mod laws;
mod lines;
mod summary;
mod writing;

pub use laws::laws_of_texts;
pub use lines::put_pieces;
pub use summary::written_summary;
pub use writing::{write_text, written_text};
