//! One run of the program: the words, the files that they name, the answer, and the line for how it
//! ended.
#![tactic(auto)]

mod answer;
mod answers;
mod decode;
mod delivery;
mod evaluate;
mod extend;
mod judging;
mod laws;
mod lines;
mod made;
mod one_write;
mod program;
mod running;

pub use answer::Answer;
pub use laws::{plans_make_one_model, rows_go_by_the_threshold, the_first_wide_node_is_named};
pub use program::{exit_number, finish, given_words};
pub use run_steps::Status;
pub use running::{answered, run};
