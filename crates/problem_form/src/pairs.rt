//! The complements of terms, and the pairs of literals that they become.
ghost use Rattle.std.specs.Prelude.{◌≡◌, ◌+◌, ◌*◌, ◌<◌, ◌≤◌, ◌^◌, length, map, max, fold, count_by, not};
ghost use Rattle.std.specs.List.{sum_by};
ghost use Rattle.problem_form.specs.Problems.{constraint_total};
ghost use Rattle.problem_form.specs.Limits.{answered_number, binary_digits, clause_complements, clause_pairs, complements, constraint_pairs, factor, most_complements, negations, pairs, product_pairs, slack_bits, summands};

use crate::clause_list::{ClauseList, ClauseRef};
use crate::constraint_list::{ConstraintList, ConstraintRef};
use crate::counts::{products_degree, slack_range_of, times};
use crate::limits::Normal;
use crate::problem::Problem;
use crate::product_list::{ProductList, ProductRef, Products};
use literal_lists::Literals;

// ---- complements

fn complements_of(product: ProductRef<'_>) -> usize
    ensures { result ≡ complements product.entry }
{
    product.literals.filter(|literal| literal.negated).count()
}

/// The complements in a clause's product, whose literals are the complements of the clause's.
fn clause_complements_of(clause: ClauseRef<'_>) -> usize
    ensures { result ≡ clause_complements clause.entry }
{
    clause.literals.filter(|literal| !literal.negated).count()
}

/// The greatest of `most` and the complements of the products.
fn products_complements(most: usize, products: Products<'_>) -> usize
    ensures { result ≡ fold max most (map complements products.entry) }
{
    products.fold(most, |most, product| most.max(complements_of(product)))
}

/// The greatest of `most` and the complements of the products of the clauses.
fn clauses_complements(most: usize, clauses: &ClauseList) -> usize
    ensures { result ≡ fold max most (map clause_complements clauses.now) }
{
    clauses.iter().fold(most, |most, clause| most.max(clause_complements_of(clause)))
}

fn most_complements_of(constraint: &ConstraintRef<'_>) -> usize
    ensures { result ≡ most_complements constraint.now }
{
    products_complements(0, constraint.products.again())
}

fn constraints_complements(constraints: &ConstraintList) -> usize
    ensures { result ≡ fold max 0 (map most_complements constraints.now) }
{
    constraints.iter().fold(
        0,
        |most, constraint| most.max(most_complements_of(&constraint)),
    )
}

/// The most complements of a term that is multiplied out. Over literals none is.
pub(crate) fn negations_of(problem: &Problem, normal: Normal) -> u128
    ensures { result ≡ negations normal problem.now }
{
    match normal {
        Normal::Literal => 0,
        Normal::Multilinear => {
            let most = products_complements(0, problem.objective.iter());
            let most = clauses_complements(most, &problem.clauses);
            let squared = 2 * constraints_complements(&problem.constraints) as u128;
            squared.max(most as u128)
        }
    }
}

// ---- pairs

/// A power of 2, or the greatest number of 128 bits.
fn power_of_2(exponent: usize) -> u128
    ensures { result ≡ answered_number (2 ^ exponent) }
{
    if exponent < 128 {
        1 << exponent
    } else {
        u128::MAX
    }
}

/// How many terms a product with so many complements becomes at most, or the greatest number of 128
/// bits.
fn factor_of(normal: Normal, complements: usize) -> u128
    ensures { result ≡ answered_number (factor normal complements) }
{
    match normal {
        Normal::Literal => 1,
        Normal::Multilinear => power_of_2(complements),
    }
}

fn square(degree: usize) -> u128
    ensures { result ≡ degree ^ 2 }
{
    degree as u128 * degree as u128
}

fn product_pairs_of(product: ProductRef<'_>, normal: Normal) -> u128
    ensures { result ≡ answered_number (product_pairs normal product.entry) }
{
    let pairs = square(product.literals.len());
    match normal {
        Normal::Literal => pairs,
        Normal::Multilinear => power_of_2(complements_of(product)).saturating_mul(pairs),
    }
}

fn clause_pairs_of(clause: ClauseRef<'_>, normal: Normal) -> u128
    ensures { result ≡ answered_number (clause_pairs normal clause.entry) }
{
    let pairs = square(clause.literals.len());
    match normal {
        Normal::Literal => pairs,
        Normal::Multilinear => power_of_2(clause_complements_of(clause)).saturating_mul(pairs),
    }
}

/// How many binary digits a number has, and 0 for 0.
pub fn binary_digits_of(number: u128) -> u32
    ensures value { result ≡ binary_digits number }
    ensures few { result ≤ 128 }
{
    u128::BITS - number.leading_zeros()
}

/// How many terms the sum has that is squared for a constraint, or the greatest number of 128 bits.
fn summands_of(constraint: &ConstraintRef<'_>, normal: Normal) -> u128
    requires { constraint_total constraint.now < 2 ^ 100 }
    ensures { result ≡ answered_number (summands normal constraint.now) }
{
    let slack = binary_digits_of(slack_range_of(constraint));
    let listed = constraint.products.len() as u128 + u128::from(slack) + 1;
    times(factor_of(normal, most_complements_of(constraint)), listed)
}

fn constraint_pairs_of(constraint: &ConstraintRef<'_>, normal: Normal) -> u128
    requires { constraint_total constraint.now < 2 ^ 100 }
    ensures { result ≡ answered_number (constraint_pairs normal constraint.now) }
{
    let summands = summands_of(constraint, normal);
    let squared = times(summands, summands);
    let degree = products_degree(0, constraint.products.again());
    if degree <= 1 {
        squared
    } else {
        times(squared, times(square(degree), 4))
    }
}

/// The pairs of the products. It stops at the greatest number of 128 bits.
fn products_pairs(products: &ProductList, normal: Normal) -> u128
    ensures { result ≡ answered_number (sum_by (product_pairs normal) products.now) }
{
    let mut total: u128 = 0;
    for product in products.iter() {
        total = total.saturating_add(product_pairs_of(product, normal));
    }
    total
}

/// The pairs of the clauses, likewise.
fn clauses_pairs(clauses: &ClauseList, normal: Normal) -> u128
    ensures { result ≡ answered_number (sum_by (clause_pairs normal) clauses.now) }
{
    let mut total: u128 = 0;
    for clause in clauses.iter() {
        total = total.saturating_add(clause_pairs_of(clause, normal));
    }
    total
}

/// The pairs of the constraints, likewise.
fn constraints_pairs(constraints: &ConstraintList, normal: Normal) -> u128
    requires { sum_by constraint_total constraints.now < 2 ^ 100 }
    ensures { result ≡ answered_number (sum_by (constraint_pairs normal) constraints.now) }
{
    let mut total: u128 = 0;
    for constraint in constraints.iter() {
        total = total.saturating_add(constraint_pairs_of(&constraint, normal));
    }
    total
}

/// How many pairs of literals the terms have, or the greatest number of 128 bits.
#[tactic(auto, using(crate::proofs::CountedNumbers::answered_sum_of_3))]
pub(crate) fn pairs_of(problem: &Problem, normal: Normal) -> u128
    ensures { result ≡ answered_number (pairs normal problem.now) }
{
    products_pairs(&problem.objective, normal)
        .saturating_add(clauses_pairs(&problem.clauses, normal))
        .saturating_add(constraints_pairs(&problem.constraints, normal))
}
