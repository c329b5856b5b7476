//! OPB texts, read into problems: an objective or none, and linear constraints over products.
//!
//! A text goes in as bytes or as words, and out comes its problem in normal form, or its first
//! fault. Each term of the objective and each constraint is put into the problem as soon as it is
//! read. The literals of all terms go through one list, and the terms of all constraints through
//! another, so no list is made for a term or a constraint.
#![tactic(auto)]

mod comparing;
mod judging;
mod laws;
mod operator;
mod reading;
mod sums;

pub use comparing::{closed, compare, comparison};
pub use laws::laws_of_readings;
pub use operator::Operator;
pub use reading::{read_opb, read_opb_tokens};
pub use sums::sum;
