//! What an assignment costs.
ghost use Rattle.std.specs.Prelude.{◌≡◌, ◌<◌, ◌^◌};
ghost use Rattle.std.specs.List.{list_any, sum_by};
ghost use Rattle.base.specs.Sums.{total_by};
ghost use Rattle.literal_lists.specs.Literals.{all_hold, some_holds};
ghost use Rattle.problem_form.specs.Problems.{constraint_total, cut_off, fails, fails_hard, form_of, own_cost, problem_size, problem_total, product_value, products_total, soft_cost, soft_weight, sum_of};

use crate::clause_list::{ClauseList, ClauseRef};
use crate::constraint_list::{ConstraintList, ConstraintRef};
use crate::problem::Problem;
use crate::product_list::{ProductRef, Products};
use base::{Cost, Costed};
use literal_lists::Literals;

fn a_literal_holds(mut literals: Literals<'_>, x: &[bool]) -> bool
    ensures { result ≡ some_holds x.now literals.entry }
{
    literals.any(|literal| literal.holds(x))
}

fn all_literals_hold(mut literals: Literals<'_>, x: &[bool]) -> bool
    ensures { result ≡ all_hold x.now literals.entry }
{
    literals.all(|literal| literal.holds(x))
}

fn value_of(product: ProductRef<'_>, x: &[bool]) -> i128
    ensures { result ≡ product_value x.now product.entry }
{
    let ProductRef {
        literals,
        coefficient,
    } = product;
    if all_literals_hold(literals, x) {
        coefficient
    } else {
        0
    }
}

/// The sum of the coefficients of the products that are true under an assignment.
pub fn sum_of_products(products: Products<'_>, x: &[bool]) -> i128
    requires { products_total products < 2 ^ 100 }
    ensures { result ≡ sum_of x.now products.entry }
{
    let mut sum: i128 = 0;
    for product in products {
        sum += value_of(product, x);
    }
    sum
}

fn soft_cost_of(clause: ClauseRef<'_>, x: &[bool]) -> i128
    ensures { result ≡ soft_cost x.now clause.entry }
{
    let ClauseRef { literals, weight } = clause;
    match weight {
        Some(weight) if !a_literal_holds(literals, x) => i128::from(weight),
        _ => 0,
    }
}

fn soft_costs(clauses: &ClauseList, x: &[bool]) -> i128
    requires { sum_by soft_weight clauses.now < 2 ^ 100 }
    ensures { result ≡ total_by (soft_cost x.now) clauses.now }
{
    let mut sum: i128 = 0;
    for clause in clauses.iter() {
        sum += soft_cost_of(clause, x);
    }
    sum
}

fn hard_clause_fails(clause: ClauseRef<'_>, x: &[bool]) -> bool
    ensures { result ≡ fails_hard x.now clause.entry }
{
    let ClauseRef { literals, weight } = clause;
    weight.is_none() && !a_literal_holds(literals, x)
}

fn a_hard_clause_fails(clauses: &ClauseList, x: &[bool]) -> bool
    ensures { result ≡ list_any (fails_hard x.now) clauses.now }
{
    clauses.iter().any(|clause| hard_clause_fails(clause, x))
}

fn constraint_fails(constraint: ConstraintRef<'_>, x: &[bool]) -> bool
    requires { constraint_total constraint < 2 ^ 100 }
    ensures { result ≡ fails x.now constraint.entry }
{
    let ConstraintRef {
        products,
        bound,
        exact,
    } = constraint;
    let sum = sum_of_products(products, x);
    if exact { sum != bound } else { sum < bound }
}

fn a_constraint_fails(constraints: &ConstraintList, x: &[bool]) -> bool
    requires { sum_by constraint_total constraints.now < 2 ^ 100 }
    ensures { result ≡ list_any (fails x.now) constraints.now }
{
    for constraint in constraints.iter() {
        if constraint_fails(constraint, x) {
            return true;
        }
    }
    false
}

impl Problem {
    /// What an assignment costs, whatever the most is that it may cost.
    pub fn own_cost(&self, x: &[bool]) -> Cost
        ensures { result ≡ own_cost self.now x.now }
    {
        if a_hard_clause_fails(&self.clauses, x) {
            return Cost::Infinite;
        }
        if a_constraint_fails(&self.constraints, x) {
            return Cost::Infinite;
        }
        let sum = sum_of_products(self.objective.iter(), x);
        Cost::Whole(self.constant + sum + soft_costs(&self.clauses, x))
    }
}

/// A cost that is whole and above the most that is given is infinite.
fn cut_off(most: Option<i128>, cost: Cost) -> Cost
    ensures { result ≡ cut_off most cost }
{
    match (most, cost) {
        (Some(most), Cost::Whole(value)) if most < value => Cost::Infinite,
        _ => cost,
    }
}

impl Costed for Problem {
    ghost form = { form_of };

    ghost total = { problem_total };

    ghost size = { problem_size };

    fn width(&self) -> usize {
        self.variables as usize
    }

    fn cost(&self, x: &[bool]) -> Cost {
        cut_off(self.most, self.own_cost(x))
    }
}
