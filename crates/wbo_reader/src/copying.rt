//! Constraints that are written down, one after another, in the same memory.
ghost use Rattle.std.specs.Prelude.{◌≡◌, ◌+◌, ◌-ℤ◌, ◌<◌, ◌≤◌, ◌^◌, ◌∷◌, [], false, unsigned_abs, OnOk};
ghost use Rattle.problem_form.specs.Problems.{constraint_total, products_total};
ghost use Rattle.problem_form.specs.Fields.{IsSound};
ghost use Rattle.wbo_reader.specs.Rewriting.{eased, least_part, with_rows};
ghost use Rattle.problem_form.specs.Limits.{least_sum};

use base::NoMemory;
use problem_form::{Constraint, Literal, Problem, ProductList, ProductRef, Products};

/// Puts products into a list, in place of what it has.
pub(crate) fn copy_products(
    list: &mut ProductList,
    products: Products<'_>,
    literals: &mut Vec<Literal>,
) -> Result<(), NoMemory>
    ensures { OnOk result (list.new ≡ products.entry) }
{
    list.clear();
    for product in products {
        let ProductRef {
            literals: lent,
            coefficient,
        } = product;
        lent.copy_into(literals)?;
        list.push(literals, coefficient)?;
    }
    Ok(())
}

/// What a product adds to the least value of a sum: its coefficient, where that is negative.
#[tactic(auto, using(crate::proofs::Copied::least_part_negative, crate::proofs::Copied::least_part_other))]
fn least_part(coefficient: i128) -> i128
    ensures { result ≡ least_part coefficient }
{
    if coefficient < 0 { coefficient } else { 0 }
}

/// The least value of a sum: that of its negative coefficients.
fn least_sum(products: Products<'_>) -> i128
    requires { products_total products < 2 ^ 100 }
    ensures { result ≡ least_sum products.entry }
{
    let mut sum: i128 = 0;
    for product in products {
        sum += least_part(product.coefficient);
    }
    sum
}

/// Adds a constraint in normal form to a problem.
pub(crate) fn put(problem: &mut Problem, written: &Constraint) -> Result<(), NoMemory>
    requires { IsSound (with_rows problem.old (written.now ∷ [])) }
    ensures { OnOk result (problem.new ≡ with_rows problem.old (written.now ∷ [])) }
{
    problem.add_constraint(written)
}

/// How far a bound is above a sum.
fn gap(bound: i128, sum: i128) -> i128
    requires bound { unsigned_abs bound ≤ 2 ^ 100 }
    requires sum { unsigned_abs sum ≤ 2 ^ 100 }
    ensures { result ≡ bound -ℤ sum }
{
    bound - sum
}

/// Adds the bit of a variable to a sum that is to be at least its bound, so much that it can take
/// the sum's place.
pub(crate) fn ease(written: &mut Constraint, variable: u64) -> Result<(), NoMemory>
    requires small { constraint_total written.old < 2 ^ 100 }
    requires inexact { written.old.exact ≡ false }
    ensures { OnOk result (written.new ≡ eased variable written.old.products written.old.bound) }
{
    let low = least_sum(written.products.iter());
    if written.bound <= low {
        return Ok(());
    }
    let gap = gap(written.bound, low);
    let bit = Literal {
        variable,
        negated: false,
    };
    written.products.push(&[bit], gap)
}
