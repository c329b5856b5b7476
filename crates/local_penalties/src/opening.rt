//! The prices of literals before the first round.
ghost use Rattle.std.specs.Prelude.{◌≡◌, ◌+◌, ◌<◌, ◌^◌, ◌/◌, All, length, true, false, [], ◌∷◌};
ghost use Rattle.std.specs.List.{sum_by};
ghost use Rattle.literal_lists.specs.declared.literal.Literal.{Literal};
ghost use Rattle.problem_form.specs.Problems.{IsNormalClause, IsNormalProduct};
ghost use Rattle.local_penalties.specs.Prices.{clause_charges, constraint_charges, product_rise, soft_rise};
ghost use Rattle.local_penalties.specs.Tallies.{is_marked, number_of};

use crate::parts::change_hurting;
use crate::tallies::change_each;
use problem_form::{ClauseList, ClauseRef, ConstraintList, ProductRef, Products};

/// What a part without a penalty of its own adds to a price: more than every penalty.
pub(crate) const FAR: u128 = 1 << 64;

/// Adds the most that literals can raise a product by.
fn add_product_rise(numbers: &mut [u128], product: ProductRef<'_>)
    requires normal { IsNormalProduct (length numbers.old / 2) product }
    requires room { (l : Literal) →
        number_of numbers.old l + product_rise l product < 2 ^ 128 }
    ensures { (l : Literal) → number_of numbers.new l
        ≡ number_of numbers.old l + product_rise l product.entry }
{
    let size = product.coefficient.unsigned_abs();
    change_each(numbers, product.literals, product.coefficient < 0, size, 0);
}

/// Adds the most that literals can raise a sum by.
pub(crate) fn add_product_rises(numbers: &mut [u128], products: Products<'_>)
    requires normal { All (IsNormalProduct (length numbers.old / 2)) products }
    requires room { (l : Literal) →
        number_of numbers.old l + sum_by (product_rise l) products < 2 ^ 128 }
    ensures { (l : Literal) → number_of numbers.new l
        ≡ number_of numbers.old l + sum_by (product_rise l) products.entry }
{
    for product in products {
        add_product_rise(numbers, product);
    }
}

/// Adds what literals can raise a soft clause by, and for a hard one an infinite number.
fn add_clause(numbers: &mut [u128], clause: ClauseRef<'_>, whole: u64)
    requires normal { IsNormalClause (length numbers.old / 2) clause }
    requires room { (l : Literal) → number_of numbers.old l + (soft_rise l clause
        + clause_charges whole [] (clause ∷ []) l) < 2 ^ 128 }
    ensures { (l : Literal) → number_of numbers.new l ≡ number_of numbers.old l
        + (soft_rise l clause.entry + clause_charges whole [] (clause.entry ∷ []) l) }
{
    let amount = match clause.weight {
        Some(weight) => u128::from(weight),
        None => FAR,
    };
    change_each(numbers, clause.literals, true, amount, 0);
}

/// Adds what literals can raise soft clauses by, and for hard ones an infinite number.
pub(crate) fn add_clauses(numbers: &mut [u128], clauses: &ClauseList, whole: u64)
    requires normal { All (IsNormalClause (length numbers.old / 2)) clauses.now }
    requires room { (l : Literal) → number_of numbers.old l + (sum_by (soft_rise l) clauses.now
        + clause_charges whole [] clauses.now l) < 2 ^ 128 }
    ensures { (l : Literal) → number_of numbers.new l ≡ number_of numbers.old l
        + (sum_by (soft_rise l) clauses.now + clause_charges whole [] clauses.now l) }
{
    for clause in clauses.iter() {
        add_clause(numbers, clause, whole);
    }
}

/// Adds an infinite number to those of the literals that hurt constraints.
pub(crate) fn add_constraints(
    numbers: &mut [u128],
    marks: &mut [bool],
    constraints: &ConstraintList,
    whole: u64,
)
    requires lengths { length marks.old ≡ length numbers.old }
    requires normal { All (λ k. All (IsNormalProduct (length numbers.old / 2)) k.products)
        constraints.now }
    requires unmarked { (l : Literal) → is_marked marks.old l ≡ false }
    requires room { (l : Literal) → number_of numbers.old l
        + constraint_charges whole [] constraints.now l < 2 ^ 128 }
    ensures numbers { (l : Literal) → number_of numbers.new l
        ≡ number_of numbers.old l + constraint_charges whole [] constraints.now l }
    ensures unmarked { (l : Literal) → is_marked marks.new l ≡ false }
{
    for constraint in constraints.iter() {
        change_hurting(numbers, marks, &constraint, FAR, 0);
    }
}
