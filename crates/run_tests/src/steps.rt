//! The texts of models that the calls of the steps make, by the calls for their kinds alone.
ghost use Rattle.std.specs.Prelude.{◌≤◌};

use crate::runs::CLASH;
use base::{NoMemory, UnitChoice};
use bits_model::{Kind, OutputModel};
use command_words::{Format, NodeModel, Slack};
use ising_file::ising_text;
use model_pipeline::{Made, ModelTarget, Options, compile};
use problem_form::{Choices, High, Normal, Problem, check_limits};
use qubo_file::qubo_text;
use source_texts::read_source;
use std::alloc::Global;

const CHOICES: Choices = Choices {
    normal: Normal::Literal,
    high: High::Monomial,
};

/// The model of a problem of so many variables.
fn model_of_problem(
    alloc: Global,
    problem: &Problem,
    variables: u64,
    target: NodeModel,
) -> Option<OutputModel>
    requires { variables ≤ problem.now.variables }
{
    check_limits(problem, &CHOICES).ok()?;
    let options = Options {
        choices: CHOICES,
        unit: UnitChoice::One,
        target: ModelTarget::Nodes(target),
        keep_steps: false,
    };
    let Made {
        model,
        steps: _steps,
    } = compile(alloc, problem, variables, &options).ok()?;
    Some(model)
}

/// The model of a short text.
fn model_of_text(alloc: Global, text: &str, target: NodeModel) -> Option<OutputModel> {
    if text.len() > 100 {
        return None;
    }
    let read = read_source(alloc, Slack::Bits, Format::Wcnf, text.as_bytes()).ok()?;
    model_of_problem(alloc, &read.problem, read.variables, target)
}

/// The text of a model, by the call for its kind alone.
fn text_of(alloc: Global, model: &OutputModel) -> Result<Vec<u8>, NoMemory> {
    match model.kind {
        Kind::Qubo => qubo_text(alloc, model),
        _ => ising_text(alloc, model),
    }
}

fn has_text(alloc: Global, model: &OutputModel, written: &[u8]) -> Result<bool, NoMemory> {
    let text = text_of(alloc, model)?;
    Ok(text.as_slice() == written)
}

/// Whether this is the text of the model of another text.
fn is_written(
    alloc: Global,
    text: &str,
    target: NodeModel,
    written: &[u8],
) -> Result<bool, NoMemory> {
    match model_of_text(alloc, text, target) {
        Some(model) => has_text(alloc, &model, written),
        None => Ok(false),
    }
}

const QUBO_TEXT: &[u8] =
    b"c scale 1\nc offset -4\nc threshold -1\nc unit 1\nc variables 1\np qubo 0 1 1 0\n0 0 -1\n";

const ISING_TEXT: &[u8] =
    b"c scale 4\nc offset -14\nc threshold -2\nc unit 1\nc variables 1\np ising 1 1 0\n0 0 -2\n";

#[test]
fn the_texts_of_models(rt: HostRuntime) {
    for (target, text) in [(NodeModel::Qubo, QUBO_TEXT), (NodeModel::Ising, ISING_TEXT)] {
        assert!(rt; is_written(rt.alloc(), CLASH, target, text) == Ok(true));
    }
}
