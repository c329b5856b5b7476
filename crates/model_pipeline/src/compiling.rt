//! The model of a problem.
ghost use Rattle.std.specs.Prelude.{◌≡◌, ◌≤◌, None, IfOk, IfErr};
ghost use Rattle.problem_form.specs.Limits.{limit_fault};
ghost use Rattle.chain_map.specs.Faults.{IfFault};
ghost use Rattle.model_pipeline.specs.Compiled.{IsCompiled, IsRefused};

use crate::forms::quadratized;
use crate::held::Held;
use crate::made::Made;
use crate::on_qubits::form_on_qubits;
use crate::options::{ModelTarget, Options};
use crate::spins::quad_to_ising;
use crate::written::form_model;
use chain_map::CheckAnswer;
use std::alloc::Global;

/// The model of a problem within the limits, of which so many variables are the source's own. Its
/// least states are the least assignments of the problem. It is refused, by the first fault, exactly
/// where the problem's Ising form has no place on the qubits that it should stand on.
pub fn compile<P: Held>(
    alloc: Global,
    problem: P,
    variables: u64,
    options: &Options,
) -> Result<Made, CheckAnswer>
    requires within { limit_fault options.now.choices.normal (P.problem problem) ≡ None }
    requires own { variables ≤ (P.problem problem).variables }
    ensures made { IfOk result (IsCompiled options.now variables (P.problem problem)) }
    ensures refused { IfErr result (λ e. IfFault e (IsRefused options.now (P.problem problem))) }
{
    let variables = variables as u32;
    let (form, steps) = quadratized(alloc, problem, &options.choices, options.keep_steps)?;
    match &options.target {
        ModelTarget::Nodes(target) => {
            let model = form_model(alloc, form, variables, *target, options.unit)?;
            Ok(Made { model, steps })
        }
        ModelTarget::Qubits(site) => {
            let spins = quad_to_ising(alloc, form)?;
            let model = form_on_qubits(
                alloc,
                spins.target,
                variables,
                spins.figures,
                options.unit,
                site,
            )?;
            Ok(Made { model, steps })
        }
    }
}
