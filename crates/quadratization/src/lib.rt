//! The quadratic form of additions at once, without a table of quadratic terms, and the bits of its
//! new nodes. Long terms are replaced each by itself, or pairs of their literals one after another.
#![tactic(auto)]

mod additions;
mod bits;
mod by_pairs;
mod gathered;
mod heads;
mod laws;
mod long_run;
mod long_table;
mod new_nodes;
mod occurrences;
mod of_problem;
mod rows;
mod shares;
mod sums;

pub use by_pairs::form_by_pairs;
pub use gathered::DirectTerms;
pub use laws::{laws_of_long_terms, laws_of_rows, laws_of_sums};
pub use new_nodes::{DirectForm, NewNodes};
pub use of_problem::problem_terms;
pub use rows::couplers_of;
