//! The state of a written model that an assignment extends to.
ghost use Rattle.std.specs.Prelude.{◌≡◌, ℕ, None, IfOk, length};
ghost use Rattle.problem_form.specs.Limits.{limit_fault};
ghost use Rattle.problem_form.specs.Problems as problems;
ghost use Rattle.model_pipeline.specs.Extensions.{
  extension_of,
  state_on,
  ExtendsTo,
  FitsState,
  IsLeastTo,
  IsMade,
  IsMadeOf,
};
ghost use Rattle.model_pipeline.specs.Kept.{AreNewOf};
ghost use Rattle.command_words.specs.declared.commands.ChainStrength.TheVariants.{Choi};

use crate::extending::extended;
use crate::made::FormSteps;
use base::NoMemory;
use bits_model::{Kind, OutputModel};
use chain_layer::on_chains;
use problem_form::Problem;
use std::alloc::Global;

/// The bits of a model's nodes, from those of its form's nodes.
fn state_of(alloc: Global, model: &OutputModel, x: Vec<bool>) -> Result<Vec<bool>, NoMemory>
    requires { FitsState model.now x.items }
    ensures { IfOk result (λ y. y.items ≡ state_on model.now x.items) }
{
    match model.kind {
        Kind::Qubo | Kind::Ising => Ok(x),
        Kind::Qubits(_) => on_chains(alloc, &model.chains, model.nodes, &x),
    }
}

/// The state of a problem's model that an assignment extends to. It decodes to the assignment, and
/// unless chains are tied only as strongly as least states need, no state that does has a lesser
/// energy.
pub fn extended_state(
    alloc: Global,
    problem: &Problem,
    steps: &FormSteps,
    model: &OutputModel,
    x: &[bool],
) -> Result<Vec<bool>, NoMemory>
    requires within { limit_fault steps.now.choices.normal problem.now ≡ None }
    requires width { length x.now ≡ problem.now.variables }
    requires new_nodes { AreNewOf steps.now.choices problem.now steps.now.new_nodes }
    requires made { IsMade steps.now.choices problem.now model.now }
    ensures exact { IfOk result (λ y.
        y.items ≡ state_on model.now (extension_of steps.now.choices problem.now x.now)) }
    ensures extends { IfOk result (λ y. ExtendsTo problem.now.variables
        (problems.form_of problem.now) model.now x.now y.items) }
    ensures least { IfOk result (λ y. (own : ℕ)
        → IsMadeOf Choi own steps.now.choices problem.now model.now
        → IsLeastTo problem.now.variables model.now x.now y.items) }
{
    let x = extended(alloc, problem, steps, x)?;
    state_of(alloc, model, x)
}
