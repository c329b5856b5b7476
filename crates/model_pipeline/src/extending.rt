//! The extension of an assignment, by the steps that a command chooses.
ghost use Rattle.std.specs.Prelude.{◌≡◌, None, IfOk, length};
ghost use Rattle.problem_form.specs.Limits.{limit_fault};
ghost use Rattle.model_pipeline.specs.Models.{quad_of};
ghost use Rattle.model_pipeline.specs.Formed.{HasRoom};
ghost use Rattle.model_pipeline.specs.Extensions.{extension_of, IsLeastExtension};
ghost use Rattle.model_pipeline.specs.Kept.{AreNewOf};

use crate::made::FormSteps;
use base::NoMemory;
use form_steps::{BitsLink, Guard};
use penalty_layer::{Penalty, node_count};
use problem_form::Problem;
use std::alloc::Global;

/// The state of the quadratic form that an assignment of a problem within the limits extends to: its
/// slack bits, and the bits of the form's new nodes. No state that decodes to the assignment has a
/// lesser energy.
pub fn extended(
    alloc: Global,
    problem: &Problem,
    steps: &FormSteps,
    x: &[bool],
) -> Result<Vec<bool>, NoMemory>
    requires within { limit_fault steps.now.choices.normal problem.now ≡ None }
    requires new_nodes { AreNewOf steps.now.choices problem.now steps.now.new_nodes }
    requires width { length x.now ≡ problem.now.variables }
    ensures exact { IfOk result (λ y.
        y.items ≡ extension_of steps.now.choices problem.now x.now) }
    ensures least { IfOk result (λ y.
        IsLeastExtension steps.now.choices problem.now x.now y.items) }

    // What the steps to a model rest on.
    ensures room { IfOk result (λ _. HasRoom (quad_of steps.now.choices problem.now)) }
{
    let link = BitsLink {
        source_width: problem.variables as usize,
        target_width: node_count(problem),
    };
    let y = Penalty.extend(alloc, problem, &link, x)?;
    steps.new_nodes.extended(alloc, y)
}
