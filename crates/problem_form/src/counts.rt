//! The numbers that are counted against limits.
ghost use Rattle.std.specs.Prelude.{◌≡◌, ◌+◌, ◌*◌, ◌<◌, ◌^◌, ℤ, length, map, max, fold, count_by, is_none};
ghost use Rattle.std.specs.List.{sum_by, flat_map};
ghost use Rattle.base.specs.Sums.{positive_part};
ghost use Rattle.problem_form.specs.Problems.{constraint_total, products_total, soft_weight};
ghost use Rattle.problem_form.specs.Limits.{answered_number, degree, positive_total, reach, slack_range, weight};

use crate::clause_list::{ClauseList, ClauseRef};
use crate::constraint_list::{ConstraintList, ConstraintRef};
use crate::problem::Problem;
use crate::product_list::Products;

// ---- degrees

/// The greatest of `most` and the degrees of the products.
pub(crate) fn products_degree(most: usize, products: Products<'_>) -> usize
    ensures { result ≡ fold max most (map (λ t. length t.literals) products.entry) }
{
    products.fold(most, |most, product| most.max(product.literals.len()))
}

/// The greatest of `most` and the numbers of literals of the clauses.
fn clauses_degree(most: usize, clauses: &ClauseList) -> usize
    ensures { result ≡ fold max most (map (λ c. length c.literals) clauses.now) }
{
    clauses
        .iter()
        .fold(most, |most, clause| most.max(clause.literals.len()))
}

/// The greatest of `most` and the degrees of the products of the constraints.
#[tactic(auto, using(crate::proofs::CountedNumbers::fold_flat_map))]
fn constraints_degree(most: usize, constraints: &ConstraintList) -> usize
    ensures { result
        ≡ fold max most (flat_map (λ k. map (λ t. length t.literals) k.products) constraints.now) }
{
    constraints.iter().fold(
        most,
        |most, constraint| products_degree(most, constraint.products),
    )
}

/// The greatest number of literals of a product or a clause.
pub(crate) fn degree_of(problem: &Problem) -> usize
    ensures { result ≡ degree problem.now }
{
    let most = products_degree(0, problem.objective.iter());
    let most = clauses_degree(most, &problem.clauses);
    constraints_degree(most, &problem.constraints)
}

// ---- sizes

/// The product of two numbers, or the greatest number of 128 bits. Where both have 64 bits, as most
/// do, it is one multiplication.
#[inline(always)]
pub(crate) fn times(a: u128, b: u128) -> u128
    ensures { result ≡ answered_number (a * b) }
{
    if a <= u128::from(u64::MAX) && b <= u128::from(u64::MAX) {
        u128::from(a as u64) * u128::from(b as u64)
    } else {
        a.saturating_mul(b)
    }
}

pub(crate) fn size_of_products(products: Products<'_>) -> u128
    requires { products_total products < 2 ^ 100 }
    ensures { result ≡ products_total products.entry }
{
    products
        .map(|product| product.coefficient.unsigned_abs())
        .sum()
}

fn soft_weight_of(clause: ClauseRef<'_>) -> u128
    ensures { result ≡ soft_weight clause.entry }
{
    match clause.weight {
        Some(weight) => u128::from(weight),
        None => 0,
    }
}

pub(crate) fn soft_weights(clauses: &ClauseList) -> u128
    requires { sum_by soft_weight clauses.now < 2 ^ 100 }
    ensures { result ≡ sum_by soft_weight clauses.now }
{
    clauses.iter().map(soft_weight_of).sum()
}

fn hard_clauses(clauses: &ClauseList) -> usize
    ensures { result ≡ count_by (λ c. is_none c.weight) clauses.now }
{
    let _count = clauses.len();
    clauses
        .iter()
        .filter(|clause| clause.weight.is_none())
        .count()
}

fn positive_part_of(number: i128) -> u128
    ensures { result ≡ positive_part number }
{
    if number < 0 { 0 } else { number.unsigned_abs() }
}

fn sum_of_positive(numbers: &[i128]) -> u128
    requires { sum_by positive_part numbers.now < 2 ^ 100 }
    ensures { result ≡ sum_by positive_part numbers.now }
{
    numbers.iter().map(|number| positive_part_of(*number)).sum()
}

/// The sum of the coefficients that are above 0.
pub fn positive_coefficients(products: Products<'_>) -> u128
    requires { positive_total products < 2 ^ 100 }
    ensures { result ≡ positive_total products.entry }
{
    sum_of_positive(products.coefficients())
}

/// How far the sum of a constraint can lie above its bound, and 0 where it is exact.
pub fn slack_range_of(constraint: &ConstraintRef<'_>) -> u128
    requires { constraint_total constraint.now < 2 ^ 100 }
    ensures { result ≡ slack_range constraint.now }
{
    if constraint.exact {
        return 0;
    }
    let most = positive_coefficients(constraint.products.again());
    positive_part_of(most as i128 - constraint.bound)
}

/// The greatest size of the value that is squared for a constraint.
fn reach_of(constraint: &ConstraintRef<'_>) -> u128
    requires { constraint_total constraint.now < 2 ^ 100 }
    ensures { result ≡ reach constraint.now }
{
    let range = slack_range_of(constraint);
    size_of_products(constraint.products.again()) + constraint.bound.unsigned_abs() + range
}

/// The sizes of all coefficients of squares, where one violation adds `penalty` at least. It stops
/// at the greatest number of 128 bits.
fn squares(penalty: u128, constraints: &ConstraintList) -> u128
    requires { sum_by constraint_total constraints.now < 2 ^ 100 }
    ensures { result ≡ answered_number (sum_by (λ k. penalty * reach k ^ 2) constraints.now) }
{
    let mut total: u128 = 0;
    for constraint in constraints.iter() {
        let reach = reach_of(&constraint);
        let square = times(reach, reach);
        total = total.saturating_add(times(penalty, square));
    }
    total
}

/// The sizes of all coefficients that the penalty method makes, or the greatest number of 128 bits.
pub(crate) fn weight_of(problem: &Problem) -> u128
    ensures { result ≡ answered_number (weight problem.now) }
{
    let costs = problem.cost_size();
    let penalty = problem.penalty();
    let hard = penalty.saturating_mul(hard_clauses(&problem.clauses) as u128);
    (problem.constant.unsigned_abs() + costs)
        .saturating_add(hard)
        .saturating_add(squares(penalty, &problem.constraints))
}
