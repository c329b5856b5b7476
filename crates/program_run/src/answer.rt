//! The answer of a command, as it is written.
use bits_model::OutputModel;
use state_scores::EvaluationText;

/// What is written for a command: a model or scores, whose text is written row by row, or a text.
#[derive(Drop)]
pub enum Answer {
    Model(OutputModel),
    Scores(EvaluationText),
    Text(Vec<u8>),
}
