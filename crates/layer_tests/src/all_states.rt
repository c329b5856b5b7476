//! All states of small problems of hard and soft clauses, from the problem to its quadratic form.
ghost use Rattle.std.specs.Prelude.{◌≡◌, ◌+◌, ◌<◌, ◌≤◌, ◌^◌, OnOk};
ghost use Rattle.std.specs.Bool.{OnTrue};
ghost use Rattle.penalty_layer.specs.Penalty.{Admits};
ghost use Rattle.problem_form.specs.Problems.{problem_total};

use crate::given::{A, add_clause};
use crate::guards::{Kept, kept_by};
use base::NoMemory;
use form_steps::{Guard, Then};
use literal_lists::Literal;
use monomial_layer::Monomials;
use penalty_layer::Penalty;
use problem_form::{Choices, High, Normal, Problem, check_limits};
use quad_form::Flatten;
use std::alloc::Global;
use std::test::Fail;

/// Numbers that look random, each from the one before (Knuth's linear congruential generator).
fn next(number: u64) -> u64 {
    number
        .wrapping_mul(6_364_136_223_846_793_005)
        .wrapping_add(1_442_695_040_888_963_407)
}

/// Some number below a bound.
pub fn draw(seed: &mut u64, bound: u64) -> u64
    requires { 0 < bound }
    ensures { result < bound }
{
    *seed = next(*seed);
    (*seed >> 33) % bound
}

/// The literals of some variables one after another, each as it is or complemented.
fn draw_literals(seed: &mut u64, variables: u64) -> [Literal; 5]
    requires least { 0 < variables }
    requires most { variables ≤ 5 }
{
    let first = draw(seed, variables);
    let mut literals = [A; 5];
    for i in 0..5 {
        literals[i] = Literal {
            variable: (first + i as u64) % variables,
            negated: draw(seed, 2) == 1,
        };
    }
    literals
}

/// Adds a clause of three literals or more, which is hard once in three times.
fn draw_clause(
    alloc: Global,
    problem: &mut Problem,
    variables: u64,
    seed: &mut u64,
) -> Result<(), NoMemory>
    requires least { 3 ≤ variables }
    requires most { variables ≤ 5 }
    requires total { problem_total problem.old < 2 ^ 99 }
    ensures { OnOk result (problem_total problem.new ≤ problem_total problem.old + 2 ^ 64) }
{
    let literals = draw_literals(seed, variables);
    let count = 3 + draw(seed, variables - 2) as usize;
    let weight = match draw(seed, 3) {
        0 => None,
        _ => Some(1 + draw(seed, 9)),
    };
    add_clause(alloc, problem, &literals[..count], weight)
}

/// Adds three clauses.
fn draw_clauses(
    alloc: Global,
    problem: &mut Problem,
    variables: u64,
    seed: u64,
) -> Result<(), NoMemory>
    requires least { 3 ≤ variables }
    requires most { variables ≤ 5 }
    requires total { problem_total problem.old ≡ 0 }
{
    let mut seed = seed;
    for _ in 0..3_u64 {
        draw_clause(alloc, problem, variables, &mut seed)?;
    }
    Ok(())
}

/// A problem of three clauses over three to five variables.
fn draw_problem(alloc: Global, variables: u64, seed: u64) -> Result<Problem, NoMemory>
    requires least { 3 ≤ variables }
    requires most { variables ≤ 5 }
{
    let mut problem = Problem::new(alloc);
    problem.widen(variables);
    draw_clauses(alloc, &mut problem, variables, seed)?;
    Ok(problem)
}

const CHOICES: Choices = Choices {
    normal: Normal::Literal,
    high: High::Monomial,
};

/// Whether the guard takes the problem.
pub fn is_admitted(problem: &Problem) -> bool
    ensures { OnTrue result (Admits problem.now) }
{
    // a problem that is read is in normal form
    let _variables = problem.variables;
    check_limits(problem, &CHOICES).is_ok()
}

/// Penalties, new nodes and multiplying out.
type Steps = Then<Then<Penalty, Monomials>, Flatten>;

fn steps() -> Steps {
    Then {
        first: Then {
            first: Penalty,
            second: Monomials,
        },
        second: Flatten,
    }
}

/// How many assignments of a problem these steps keep.
fn kept_by_steps(alloc: Global, problem: &Problem) -> Result<Kept, NoMemory> {
    if !is_admitted(problem) {
        return Ok(Kept::NONE);
    }
    let made = steps().guard(alloc, problem)?;
    // the nodes of a quadratic form are numbered in 32 bits
    let _diagonal = made.target.diagonal.as_slice();
    kept_by(alloc, &steps(), problem, &made)
}

/// How many of a drawn problem.
fn kept_of_drawn(alloc: Global, variables: u64, seed: u64) -> Result<Kept, NoMemory>
    requires least { 3 ≤ variables }
    requires most { variables ≤ 5 }
{
    let problem = draw_problem(alloc, variables, seed)?;
    kept_by_steps(alloc, &problem)
}

/// How many assignments of infinite cost four drawn problems have; none where one assignment is not
/// kept.
fn broken_in_four(alloc: Global, variables: u64) -> Result<Option<u64>, NoMemory>
    requires least { 3 ≤ variables }
    requires most { variables ≤ 5 }
{
    let mut broken: u64 = 0;
    for seed in 0..4 {
        let kept = kept_of_drawn(alloc, variables, seed)?;
        if kept.all() != 1 << variables {
            return Ok(None);
        }
        broken = broken.saturating_add(kept.infinite);
    }
    Ok(Some(broken))
}

#[test]
fn least_energies_stand_for_costs(rt: HostRuntime) -> Result<(), Fail> {
    let mut broken: u64 = 0;
    for variables in 3..6 {
        let more = broken_in_four(rt.alloc(), variables)?.ok_or("not kept")?;
        broken = broken.saturating_add(more);
    }
    // some hard clauses were drawn
    assert!(rt; broken > 12);
    Ok(())
}
