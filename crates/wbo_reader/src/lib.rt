//! WBO texts: constraints that are to hold, soft ones, which have a weight, and the problem that
//! each source is rewritten to.
//!
//! A text goes in as bytes or as words, and out comes its source in normal form, or its first
//! fault. `rewrite` gives a source's problem, which has a bit for each soft constraint,
//! `rewrite_within` the same with its top as a bound, and `extend` an assignment's list of as many
//! bits. The constraints of a source lie flat, and one list of literals and one of products serve
//! for all that are read or rewritten.
#![tactic(auto)]

mod copying;
mod costs;
mod failing;
mod gathered;
mod heads;
mod laws;
mod reading;
mod rewriting;
mod soft;
mod wbo;

pub use laws::{laws_of_extensions, laws_of_readings, laws_of_rewriting};
pub use reading::{read_wbo, read_wbo_tokens};
pub use soft::{OrderList, Soft, SoftList, SoftRef};
pub use wbo::Wbo;
