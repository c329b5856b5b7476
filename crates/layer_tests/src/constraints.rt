//! All states of small problems of a sum with a bound, a clause and products, under penalties and in
//! the multilinear form.
ghost use Rattle.std.specs.Prelude.{◌≡◌, ◌+◌, ◌<◌, ◌≤◌, ◌^◌, [], All, IfOk, IfSome, OnOk, unsigned_abs};
ghost use Rattle.std.specs.Bool.{OnTrue};
ghost use Rattle.normal_form.specs.Multilinear.{Admits};
ghost use Rattle.problem_form.specs.Problems.{constraint_total, problem_total, products_total};

use crate::all_states::{draw, is_admitted};
use crate::given::{A, B, C, NOT_A, NOT_B, NOT_C, add_clause, add_product};
use crate::guards::{Kept, kept_by};
use base::NoMemory;
use form_steps::Guard;
use literal_lists::Literal;
use normal_form::MultilinearForm;
use penalty_layer::Penalty;
use problem_form::{Choices, Constraint, High, Normal, Problem, ProductList, check_limits};
use std::alloc::Global;
use std::test::Fail;

/// Some number from -3 to 3.
fn draw_coefficient(seed: &mut u64) -> i16
    ensures { unsigned_abs result ≤ 3 }
{
    draw(seed, 7) as i16 - 3
}

/// Pushes a product with a drawn coefficient.
fn push_drawn(
    products: &mut ProductList,
    literals: &[Literal],
    seed: &mut u64,
) -> Result<(), NoMemory>
    requires literals { All (λ l. l.variable < 3) literals.now }
    requires within { All (λ t. All (λ l. l.variable < 3) t.literals) products.old }
    requires small { products_total products.old ≤ 9 }
    ensures within { OnOk result (All (λ t. All (λ l. l.variable < 3) t.literals) products.new) }
    ensures small { OnOk result (products_total products.new ≤ products_total products.old + 3) }
{
    products.push(literals, i128::from(draw_coefficient(seed)))
}

/// Pushes a, b ~c, ~a c and ~b.
fn push_products(products: &mut ProductList, seed: &mut u64) -> Result<(), NoMemory>
    requires { products.old ≡ [] }
    ensures within { OnOk result (All (λ t. All (λ l. l.variable < 3) t.literals) products.new) }
    ensures small { OnOk result (products_total products.new ≤ 12) }
{
    push_drawn(products, &[A], seed)?;
    push_drawn(products, &[B, NOT_C], seed)?;
    push_drawn(products, &[NOT_A, C], seed)?;
    push_drawn(products, &[NOT_B], seed)
}

/// A sum of a, b ~c, ~a c and ~b, which is to be a number, or at least that.
fn draw_constraint(alloc: Global, seed: &mut u64) -> Result<Constraint, NoMemory>
    ensures within { IfOk result
        (λ k. All (λ t. All (λ l. l.variable < 3) t.literals) k.products) }
    ensures small { IfOk result (λ k. constraint_total k ≤ 15) }
{
    let mut products = ProductList::empty(alloc);
    push_products(&mut products, seed)?;
    Ok(Constraint {
        products,
        bound: i128::from(draw_coefficient(seed)),
        exact: draw(seed, 3) == 0,
    })
}

/// Adds a drawn constraint.
fn add_constraint(alloc: Global, problem: &mut Problem, seed: &mut u64) -> Result<(), NoMemory>
    requires width { problem.old.variables ≡ 3 }
    requires total { problem_total problem.old < 2 ^ 99 }
{
    let constraint = draw_constraint(alloc, seed)?;
    problem.add_constraint(&constraint)
}

/// Adds a clause, which is hard once in two times, two products and a constraint.
fn add_drawn(alloc: Global, problem: &mut Problem, seed: &mut u64) -> Result<(), NoMemory>
    requires width { problem.old.variables ≡ 3 }
    requires total { problem_total problem.old ≡ 0 }
{
    let weight = match draw(seed, 2) {
        0 => None,
        _ => Some(2),
    };
    add_clause(alloc, problem, &[A, C], weight)?;
    add_product(alloc, problem, &[A, B], draw_coefficient(seed))?;
    add_product(alloc, problem, &[NOT_C], draw_coefficient(seed))?;
    add_constraint(alloc, problem, seed)
}

/// The most that an assignment may cost: none once in four times, and else a number from -9 to 9.
fn draw_most(seed: &mut u64) -> Option<i128>
    ensures { IfSome result (λ n. unsigned_abs n ≤ 9) }
{
    match draw(seed, 4) {
        0 => None,
        _ => Some(i128::from(draw_coefficient(seed)) * 3),
    }
}

/// An objective of two products, a clause, which is hard once in two times, and a constraint; and
/// the most that an assignment may cost, or none.
fn draw_problem(alloc: Global, seed: u64) -> Result<Problem, NoMemory> {
    let mut seed = seed;
    let mut problem = Problem::new(alloc);
    problem.widen(3);
    problem.cut_off(draw_most(&mut seed));
    add_drawn(alloc, &mut problem, &mut seed)?;
    Ok(problem)
}

/// How many assignments of a problem penalties keep.
fn kept_by_penalties(alloc: Global, problem: &Problem) -> Result<Kept, NoMemory> {
    if !is_admitted(problem) {
        return Ok(Kept::NONE);
    }
    let made = Penalty.guard(alloc, problem)?;
    kept_by(alloc, &Penalty, problem, &made)
}

const MULTILINEAR: Choices = Choices {
    normal: Normal::Multilinear,
    high: High::Monomial,
};

/// Whether the multilinear form takes the problem.
fn is_multiplied(problem: &Problem) -> bool
    ensures { OnTrue result (Admits problem.now) }
{
    // a problem that is read is in normal form
    let _variables = problem.variables;
    check_limits(problem, &MULTILINEAR).is_ok()
}

/// How many the multilinear form keeps.
fn kept_by_multilinear(alloc: Global, problem: &Problem) -> Result<Kept, NoMemory> {
    if !is_multiplied(problem) {
        return Ok(Kept::NONE);
    }
    let made = MultilinearForm.guard(alloc, problem)?;
    kept_by(alloc, &MultilinearForm, problem, &made)
}

/// How many of a drawn problem each of the two keeps.
fn kept_of_drawn(alloc: Global, seed: u64) -> Result<[Kept; 2], NoMemory> {
    let problem = draw_problem(alloc, seed)?;
    kept_by_both(alloc, &problem)
}

fn kept_by_both(alloc: Global, problem: &Problem) -> Result<[Kept; 2], NoMemory> {
    Ok([
        kept_by_penalties(alloc, problem)?,
        kept_by_multilinear(alloc, problem)?,
    ])
}

#[test]
fn least_energies_stand_for_sums_with_bounds(rt: HostRuntime) -> Result<(), Fail> {
    let mut met: u64 = 0;
    let mut broken: u64 = 0;
    for seed in 0..60 {
        for kept in kept_of_drawn(rt.alloc(), seed)? {
            assert!(rt; kept.all() == 8, "{seed}");
            met = met.saturating_add(kept.whole);
            broken = broken.saturating_add(kept.infinite);
        }
    }
    // many assignments hold to the sum and to the bound, and many do not
    assert!(rt; met > 100 && broken > 100);
    Ok(())
}
