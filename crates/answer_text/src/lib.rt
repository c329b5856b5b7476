//! The texts that answer for one assignment or one state, its bits, its cost and its energy, or for a
//! model's size.
//!
//! An assignment has the bits of a source's variables, a state those of a model's nodes or qubits.
//! All texts are rows of words with one space between two words, and each row ends in a line feed.
//! The text of a decoded state has, in this order,
//!
//! - `assignment`, and a digit for each bit, `0` or `1`, with nothing between;
//! - where the variables have names, a row for each of them: `name`, its name and its digit;
//! - `cost`, and the cost of the assignment, or the word `infinite`;
//! - `energy`, and the energy of the state.
//!
//! The text of an extended assignment has the rows `state`, with a digit for each bit, `cost` and
//! `energy`. Where there are no bits, the row is the word and the space after it.
//!
//! The text of a least state has the rows `state` and `energy`, and then `assignment`, names and
//! `optimum` with the cost of what the state stands for, or `infeasible` where that is infinite. The
//! text of one that is proved to be least has the same rows but `state`.
//!
//! The text of a model's size is its summary, and the rows `variables`, with how many its source has,
//! `least` and `greatest`, with the least and the greatest size of a weight that is not 0, both 0
//! where there is none.
//!
//! For the assignment 111 of the variables x, y and z, of cost -5, and a state of energy -5:
//!
//! ```text
//! assignment 111
//! name x 1
//! name y 1
//! name z 1
//! cost -5
//! energy -5
//! ```
#![tactic(auto)]

mod answers;
mod rows;
mod sizes;

pub use answers::{written_decoding, written_extension, written_proof, written_solution};
pub use sizes::written_size;
