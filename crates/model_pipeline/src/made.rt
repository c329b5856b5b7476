//! What is made of a problem: its model and, for the extension of assignments, the steps to its form.
use bits_model::OutputModel;
use problem_form::Choices;
use quadratization::NewNodes;

/// The steps by which a form was made, and its new nodes.
#[derive(Drop)]
pub struct FormSteps {
    pub choices: Choices,
    pub new_nodes: NewNodes,
}

/// The model of a problem, and the steps by which its form was made, where they are kept.
#[derive(Drop)]
pub struct Made {
    pub model: OutputModel,
    pub steps: Option<FormSteps>,
}
