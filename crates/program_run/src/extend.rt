//! What is written for an assignment: the state of a model that it extends to.
ghost use Rattle.std.specs.Prelude.{◌≡◌, ◌<◌, ◌^◌, None, length, IfOk};
ghost use Rattle.problem_form.specs.Limits.{limit_fault};
ghost use Rattle.model_pipeline.specs.Extensions.{IsMade};
ghost use Rattle.model_pipeline.specs.Kept.{AreNewOf};
ghost use Rattle.source_texts.specs.Sources.{KeepsSoft};
ghost use Rattle.program_run.specs.Made.{IsExtendedBy, IsStateText};

use answer_text::written_extension;
use base::{Cost, NoMemory};
use bits_model::{OutputModel, energy_of};
use model_pipeline::{FormSteps, extended_state};
use problem_form::Problem;
use source_texts::{Read, carried, cost_of};
use std::alloc::Global;

/// What is written for an assignment of a problem, with this cost, and the state of its model that it
/// extends to.
fn state_text(
    alloc: Global,
    problem: &Problem,
    steps: &FormSteps,
    model: &OutputModel,
    x: &[bool],
    cost: Cost,
) -> Result<Vec<u8>, NoMemory>
    requires within { limit_fault steps.now.choices.normal problem.now ≡ None }
    requires width { length x.now ≡ problem.now.variables }
    requires new_nodes { AreNewOf steps.now.choices problem.now steps.now.new_nodes }
    requires made { IsMade steps.now.choices problem.now model.now }
    ensures { IfOk result (λ text.
        IsStateText steps.now.choices problem.now model.now x.now cost text.items) }
{
    let state = extended_state(alloc, problem, steps, model, x)?;
    let energy = energy_of(model.kind, &state, &model.entries);
    written_extension(alloc, &state, cost, energy)
}

/// What is written for an assignment of a source, and the state of its model that it extends to.
pub fn extended_text(
    alloc: Global,
    read: &Read,
    steps: &FormSteps,
    model: &OutputModel,
    x: &[bool],
) -> Result<Vec<u8>, NoMemory>
    requires within { limit_fault steps.now.choices.normal read.now.problem ≡ None }
    requires kept { KeepsSoft read.now }
    requires width { length x.now ≡ read.now.variables }
    requires narrow { length x.now < 2 ^ 32 }
    requires new_nodes { AreNewOf steps.now.choices read.now.problem steps.now.new_nodes }
    requires made { IsMade steps.now.choices read.now.problem model.now }
    ensures { IfOk result (λ text.
        IsExtendedBy steps.now.choices read.now model.now x.now text.items) }
{
    let cost = cost_of(read, x);
    match &read.soft {
        None => state_text(alloc, &read.problem, steps, model, x, cost),
        Some(_) => {
            let y = carried(alloc, read, x)?;
            state_text(alloc, &read.problem, steps, model, &y, cost)
        }
    }
}
