//! The penalties of all parts.
ghost use Rattle.std.specs.Prelude.{◌≡◌, ◌*◌, ◌<◌, IfOk, replicate, true, false, length};
ghost use Rattle.problem_form.specs.NormalForm.{with_penalties};
ghost use Rattle.problem_form.specs.PartPenalties.{AreEnough};
ghost use Rattle.local_penalties.specs.Kept.{ArePrices, IsWithinLimits};
ghost use Rattle.local_penalties.specs.Prices.{price, whole_penalty};
ghost use Rattle.local_penalties.specs.Tallies.{number_of};
ghost use Rattle.literal_lists.specs.declared.literal.Literal.{Literal};
ghost use Rattle.local_penalties.specs.Rounds.{after_rounds, next_penalties, penalties_of, without_own};

use crate::opening::{FAR, add_clauses, add_constraints, add_product_rises};
use crate::rounds::{enter_clauses, enter_constraints, next_clauses, next_constraints};
use base::NoMemory;
use problem_form::{PartPenalties, Problem};
use std::alloc::Global;

/// The most rounds that are made.
const MOST_ROUNDS: usize = 8;

/// The penalty of a part that has none of its own.
fn whole_of(problem: &Problem) -> u64
    ensures { result ≡ whole_penalty problem.now }
{
    problem.penalty().min(FAR - 1) as u64
}

/// Adds the prices before the first round.
fn add_first(numbers: &mut [u128], marks: &mut [bool], problem: &Problem, whole: u64)
    requires numbers { numbers.old ≡ replicate (2 * problem.now.variables) 0 }
    requires marks { marks.old ≡ replicate (2 * problem.now.variables) false }
    requires limits { IsWithinLimits problem.now }
    requires whole { whole ≡ whole_penalty problem.now }
    ensures { ArePrices problem.now (without_own problem.now) numbers.new marks.new }
{
    add_product_rises(numbers, problem.objective.iter());
    add_clauses(numbers, &problem.clauses, whole);
    add_constraints(numbers, marks, &problem.constraints, whole);
}

/// Puts penalties in place of others into the prices.
fn enter(
    numbers: &mut [u128],
    marks: &mut [bool],
    problem: &Problem,
    was: &PartPenalties,
    is: &PartPenalties,
    whole: u64,
)
    requires limits { IsWithinLimits problem.now }
    requires whole { whole ≡ whole_penalty problem.now }
    requires prices { ArePrices problem.now was.now numbers.old marks.old }
    ensures { ArePrices problem.now is.now numbers.new marks.new }
{
    let before = was.clauses.as_slice();
    let after = is.clauses.as_slice();
    enter_clauses(numbers, &problem.clauses, before, after, whole);
    let before = was.constraints.as_slice();
    let after = is.constraints.as_slice();
    enter_constraints(numbers, marks, &problem.constraints, before, after, whole);
}

/// The penalties after another round.
fn next_penalties(
    alloc: Global,
    numbers: &[u128],
    problem: &Problem,
    found: &PartPenalties,
    whole: u64,
) -> Result<PartPenalties, NoMemory>
    requires limits { IsWithinLimits problem.now }
    requires whole { whole ≡ whole_penalty problem.now }
    requires places { length numbers.now ≡ 2 * problem.now.variables }
    requires prices { (l : Literal) → number_of numbers.now l ≡ price problem.now found.now l }
    ensures { IfOk result (λ next. next ≡ next_penalties problem.now found.now) }
{
    let own = found.clauses.as_slice();
    let clauses = next_clauses(alloc, numbers, &problem.clauses, own, whole)?;
    let own = found.constraints.as_slice();
    let constraints = next_constraints(alloc, numbers, &problem.constraints, own, whole)?;
    Ok(PartPenalties::new(clauses, constraints))
}

/// Whether two lists of penalties are the same.
fn are_same(left: &PartPenalties, right: &PartPenalties) -> bool
    ensures { result ≡ true → left.now ≡ right.now }
{
    left.clauses.as_slice() == right.clauses.as_slice()
        && left.constraints.as_slice() == right.constraints.as_slice()
}

/// The penalties after rounds, of which one that gives no part a penalty is the last.
fn after_rounds(
    alloc: Global,
    numbers: &mut [u128],
    marks: &mut [bool],
    problem: &Problem,
    whole: u64,
) -> Result<PartPenalties, NoMemory>
    requires limits { IsWithinLimits problem.now }
    requires whole { whole ≡ whole_penalty problem.now }
    requires prices { ArePrices problem.now (without_own problem.now) numbers.old marks.old }
    ensures { IfOk result (λ found. found ≡ penalties_of problem.now) }
{
    let mut found = PartPenalties::none(alloc);
    for round in 0..MOST_ROUNDS {
        let next = next_penalties(alloc, numbers, problem, &found, whole)?;
        if are_same(&found, &next) {
            return Ok(found);
        }
        enter(numbers, marks, problem, &found, &next, whole);
        found = next;
    }
    Ok(found)
}

/// The penalties, by numbers of literals, all 0, and marks, of which none is set.
fn found_by(
    alloc: Global,
    numbers: &mut [u128],
    marks: &mut [bool],
    problem: &Problem,
) -> Result<PartPenalties, NoMemory>
    requires numbers { numbers.old ≡ replicate (2 * problem.now.variables) 0 }
    requires marks { marks.old ≡ replicate (2 * problem.now.variables) false }
    requires limits { IsWithinLimits problem.now }
    ensures { IfOk result (λ found. found ≡ penalties_of problem.now) }
{
    let whole = whole_of(problem);
    add_first(numbers, marks, problem, whole);
    after_rounds(alloc, numbers, marks, problem, whole)
}

/// The penalties of the parts of a problem, by the prices of literals: along its clauses, of which a
/// soft one has that of the whole, and along its constraints. They are enough: whatever breaks parts
/// of penalties below that of the whole alone can be mended at a gain.
pub fn local_penalties(alloc: Global, problem: &Problem) -> Result<PartPenalties, NoMemory>
    requires { IsWithinLimits problem.now }
    ensures exact { IfOk result (λ found. found ≡ penalties_of problem.now) }
    ensures enough { IfOk result (λ found. AreEnough (with_penalties problem.now found)) }
{
    let places = 2 * problem.variables as usize;
    let mut numbers = vec![in alloc; 0u128; places]?;
    let mut marks = vec![in alloc; false; places]?;
    found_by(alloc, &mut numbers, &mut marks, problem)
}
