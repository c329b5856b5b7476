//! The multilinear form: tables without complements.
#![tactic(auto)]

mod multilinear;
mod multiplied;
mod plain;

pub use multilinear::MultilinearForm;
pub use multiplied::{add_plain_terms, expand};
pub use plain::PlainTerms;
