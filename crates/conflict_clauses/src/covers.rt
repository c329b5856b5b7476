//! Which constraints are covers.
ghost use Rattle.std.specs.Prelude.{◌≡◌, ◌<◌, ◌≤◌, ◌^◌, ◌-ℤ◌, neg_ℤ, nat_le, unsigned_abs, length};
ghost use Rattle.std.specs.List.{list_all, sum_by};
ghost use Rattle.base.specs.Sums.{positive_part};
ghost use Rattle.problem_form.specs.Limits.{slack_bits, least_sum, need, negative_total};
ghost use Rattle.problem_form.specs.Problems.{constraint_total, products_total};
ghost use Rattle.conflict_clauses.specs.Conflicts.{clause_nodes, gives, is_cover};

use crate::conflicts::{all_single, is_short};
use problem_form::{ConstraintRef, Products, binary_digits_of, slack_range_of};

/// The size of a number below 0, and 0 elsewhere.
fn negative_part_of(number: i128) -> u128
    ensures { result ≡ positive_part (neg_ℤ number) }
{
    if number < 0 { number.unsigned_abs() } else { 0 }
}

fn sum_of_negative(numbers: &[i128]) -> u128
    requires { sum_by (λ z. positive_part (neg_ℤ z)) numbers.now < 2 ^ 100 }
    ensures { result ≡ sum_by (λ z. positive_part (neg_ℤ z)) numbers.now }
{
    numbers.iter().map(|number| negative_part_of(*number)).sum()
}

/// The sizes of the coefficients that are below 0.
fn negative_coefficients(products: Products<'_>) -> u128
    requires { negative_total products < 2 ^ 100 }
    ensures { result ≡ negative_total products.entry }
{
    sum_of_negative(products.coefficients())
}

fn positive_part_of(number: i128) -> u128
    ensures { result ≡ positive_part number }
{
    if number < 0 { 0 } else { number.unsigned_abs() }
}

/// How far a bound is above the least sum of products, and 0 where it is not.
fn above_least(products: Products<'_>, bound: i128) -> u128
    requires small { products_total products < 2 ^ 100 }
    requires bound { unsigned_abs bound < 2 ^ 100 }
    ensures { result ≡ positive_part (bound -ℤ least_sum products.entry) }
{
    let least = negative_coefficients(products);
    positive_part_of(bound + least as i128)
}

/// How much of the sizes of its products a constraint needs.
fn need_of(constraint: &ConstraintRef<'_>) -> u128
    requires { constraint_total constraint.now < 2 ^ 100 }
    ensures { result ≡ need constraint.now }
{
    above_least(constraint.products.again(), constraint.bound)
}

/// Whether each number is of a size that is needed at least.
fn all_reach(numbers: &[i128], need: u128) -> bool
    ensures { result ≡ list_all (λ z. nat_le need (unsigned_abs z)) numbers.now }
{
    numbers.iter().all(|number| need <= number.unsigned_abs())
}

/// Whether each product gives all that is needed.
fn all_give(products: Products<'_>, need: u128) -> bool
    ensures { result ≡ list_all (gives need) products.entry }
{
    all_reach(products.coefficients(), need)
}

/// Whether the clause of a constraint takes no more nodes than its slack bits.
fn is_cheap(constraint: &ConstraintRef<'_>) -> bool
    requires small { constraint_total constraint.now < 2 ^ 100 }
    requires some { 0 < length constraint.now.products }
    ensures { result ≡ nat_le (clause_nodes (length constraint.now.products))
        (slack_bits constraint.now) }
{
    let slack = binary_digits_of(slack_range_of(constraint));
    (constraint.products.len() - 1) / 2 <= slack as usize
}

/// Whether a constraint is a cover.
pub(crate) fn is_cover(constraint: &ConstraintRef<'_>) -> bool
    requires { constraint_total constraint.now < 2 ^ 100 }
    ensures { result ≡ is_cover constraint.now }
{
    if !is_short(constraint) || !is_cheap(constraint) {
        return false;
    }
    let need = need_of(constraint);
    need > 0
        && all_give(constraint.products.again(), need)
        && all_single(constraint.products.again())
}
