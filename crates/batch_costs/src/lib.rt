//! What some assignments of one problem cost, and which energies some states have, worked out together.
//!
//! Assignments go in one by one, and all their costs come out at once. A variable has a word of 64
//! bits, one for each assignment, so that a product is taken apart once for all of them: the words of
//! its literals, joined by `&`, mark the assignments that it is true under, and its coefficient is
//! added for these alone. Only a problem without clauses and constraints is added up so. The weights of
//! a QUBO are as well: the words of an entry's nodes mark the states that it counts in.
#![tactic(auto)]

mod assignments;
mod energies;
mod marks;
mod sums;

pub use assignments::{Assignments, is_plain};
