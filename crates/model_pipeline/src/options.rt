//! How a model is made of a problem.
use crate::site::Site;
use base::UnitChoice;
use command_words::NodeModel;
use problem_form::Choices;

/// What a model stands on: the nodes of a form, or chains of qubits.
#[derive(Drop)]
pub enum ModelTarget {
    Nodes(NodeModel),
    Qubits(Site),
}

/// How a model is made of a problem: the steps to its form, in which unit its numbers are counted,
/// what it stands on, and whether the steps are kept. By these an assignment is extended.
#[derive(Drop)]
pub struct Options {
    pub choices: Choices,
    pub unit: UnitChoice,
    pub target: ModelTarget,
    pub keep_steps: bool,
}
