//! Source texts in every format: what each says, and the problem that it is read into.
//!
//! The soft constraints of a source are kept beside the problem that they are rewritten to:
//! `cost_of` and `carried` take an assignment of the source by them.
#![tactic(auto)]

mod carrying;
mod laws;
mod preparing;
mod reading;

pub use carrying::{carried, cost_of};
pub use laws::{
    penalties_keep_sources, problems_cost_as_sources, problems_stand_for_sources,
    slack_keeps_sources, words_are_read_as_texts,
};
pub use preparing::{Preparation, PrepareAnswer, prepare};
pub use reading::{Read, read_source, read_source_words, style_of};
