//! What each state of a text is worth: the cost of what it decodes to, and its energy.
//!
//! A text goes in with a judge, who knows the source and the model, and out come the score of every
//! line that is a state and the best of them with its bits. A score is better where its cost is lower,
//! an infinite one being above every whole one, or where its cost is the same and its energy lower. Of
//! equal ones the first is the best.
//!
//! States are judged up to 64 at a time, so that their costs and energies can be worked out
//! together.
//!
//! The text of an evaluation has, in this order,
//!
//! - for each state a row of `sample`, the number of its line, `cost` and the cost, or the word
//!   `infinite`, and `energy` and the energy;
//! - `best`, and the number of the line of the best state;
//! - the rows of answer_text for that state: the assignment that it decodes to, with names, its cost and
//!   its energy.
//!
//! It is never held: its rows are put to a sink one by one.
#![tactic(auto)]

mod batch;
mod evaluating;
mod judging;
mod rows;
mod score_list;
mod worth;
mod written;

pub use evaluating::{Evaluation, evaluate};
pub use judging::Judge;
pub use score_list::ScoreList;
pub use worth::Score;
pub use written::EvaluationText;
