//! What a problem adds to a quadratic form.
ghost use Rattle.std.specs.Prelude.{◌*◌, ◌≤◌, ◌^◌, IfOk, length};
ghost use Rattle.penalty_layer.specs.Penalty.{Admits};
ghost use Rattle.quadratization.specs.Direct.{additions_of};
ghost use Rattle.quadratization.specs.Held.{AreHeld};
ghost use Rattle.quadratization.specs.ByPairs.{FitsByPairs};

use crate::gathered::DirectTerms;
use base::NoMemory;
use penalty_layer::{add_contributions, node_count};
use problem_form::Problem;
use std::alloc::Global;

/// The penalties and the objective of a problem, over its variables and slack bits.
pub fn problem_terms(alloc: Global, problem: &Problem) -> Result<DirectTerms, NoMemory>
    requires { Admits problem.now }
    ensures held { IfOk result (AreHeld (additions_of problem.now)) }

    // What their quadratic form rests on.
    ensures room { IfOk result (λ _. FitsByPairs (additions_of problem.now)) }
    ensures few { IfOk result (λ terms. 4 * length terms.pairs ≤ 2 ^ 31) }
{
    let mut terms = DirectTerms::new(alloc, node_count(problem))?;
    add_contributions(alloc, &mut terms, problem)?;
    Ok(terms)
}
