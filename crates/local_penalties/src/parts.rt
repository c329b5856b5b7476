//! Numbers of the literals that hurt a constraint.
ghost use Rattle.std.specs.Prelude.{◌≡◌, ◌+◌, ◌-◌, ◌<◌, ◌&&◌, ◌||◌, length, not, true, false, if◌then◌else◌};
ghost use Rattle.literal_lists.specs.declared.literal.Literal.{Literal};
ghost use Rattle.local_penalties.specs.Hurting.{hurts_constraint, moves, moves_sum};
ghost use Rattle.local_penalties.specs.Tallies.{AreWithin, HavePlaces, MayChange, is_marked, number_of};

use crate::tallies::{change_marked, mark_each};
use problem_form::{ConstraintRef, ProductRef, Products};

/// Marks the literals that can move a product up, or down.
fn mark_product(marks: &mut [bool], product: ProductRef<'_>, up: bool)
    requires { AreWithin (length marks.old) product.literals }
    ensures { (l : Literal) → is_marked marks.new l
        ≡ (is_marked marks.old l || moves up product.entry l) }
{
    mark_each(marks, product.literals, (product.coefficient < 0) == up);
}

/// Marks the literals that can move a sum up, or down.
fn mark_products(marks: &mut [bool], products: Products<'_>, up: bool)
    requires { HavePlaces (length marks.old) products }
    ensures { (l : Literal) → is_marked marks.new l
        ≡ (is_marked marks.old l || moves_sum up products.entry l) }
{
    for product in products {
        mark_product(marks, product, up);
    }
}

/// Marks the literals that hurt a constraint.
fn mark_hurting(marks: &mut [bool], constraint: &ConstraintRef<'_>)
    requires { HavePlaces (length marks.old) constraint.now.products }
    ensures { (l : Literal) → is_marked marks.new l
        ≡ (is_marked marks.old l || hurts_constraint constraint.now l) }
{
    mark_products(marks, constraint.products.again(), false);
    if constraint.exact {
        mark_products(marks, constraint.products.again(), true);
    }
}

/// Changes the numbers of the marked literals that can move a product up, or down, and takes their
/// marks away.
fn change_product(
    numbers: &mut [u128],
    marks: &mut [bool],
    product: ProductRef<'_>,
    up: bool,
    plus: u128,
    minus: u128,
)
    requires lengths { length marks.old ≡ length numbers.old }
    requires within { AreWithin (length numbers.old) product.literals }
    requires room { (l : Literal) → is_marked marks.old l ≡ true
        → MayChange numbers.old plus minus l }
    ensures numbers { (l : Literal) → number_of numbers.new l
        ≡ (if is_marked marks.old l && moves up product.entry l
        then number_of numbers.old l - minus + plus else number_of numbers.old l) }
    ensures marks { (l : Literal) → is_marked marks.new l
        ≡ (is_marked marks.old l && not (moves up product.entry l)) }
{
    let turned = (product.coefficient < 0) == up;
    change_marked(numbers, marks, product.literals, turned, plus, minus);
}

/// Changes the numbers of the marked literals that can move a sum up, or down, and takes their marks
/// away.
fn change_products(
    numbers: &mut [u128],
    marks: &mut [bool],
    products: Products<'_>,
    up: bool,
    plus: u128,
    minus: u128,
)
    requires lengths { length marks.old ≡ length numbers.old }
    requires within { HavePlaces (length numbers.old) products }
    requires room { (l : Literal) → is_marked marks.old l ≡ true
        → MayChange numbers.old plus minus l }
    ensures numbers { (l : Literal) → number_of numbers.new l
        ≡ (if is_marked marks.old l && moves_sum up products.entry l
        then number_of numbers.old l - minus + plus else number_of numbers.old l) }
    ensures marks { (l : Literal) → is_marked marks.new l
        ≡ (is_marked marks.old l && not (moves_sum up products.entry l)) }
{
    for product in products {
        change_product(numbers, marks, product, up, plus, minus);
    }
}

/// Changes the numbers of the marked literals that hurt a constraint, and takes their marks away.
fn change_marked_hurting(
    numbers: &mut [u128],
    marks: &mut [bool],
    constraint: &ConstraintRef<'_>,
    plus: u128,
    minus: u128,
)
    requires lengths { length marks.old ≡ length numbers.old }
    requires within { HavePlaces (length numbers.old) constraint.now.products }
    requires room { (l : Literal) → is_marked marks.old l ≡ true
        → MayChange numbers.old plus minus l }
    ensures numbers { (l : Literal) → number_of numbers.new l
        ≡ (if is_marked marks.old l && hurts_constraint constraint.now l
        then number_of numbers.old l - minus + plus else number_of numbers.old l) }
    ensures marks { (l : Literal) → is_marked marks.new l
        ≡ (is_marked marks.old l && not (hurts_constraint constraint.now l)) }
{
    change_products(
        numbers,
        marks,
        constraint.products.again(),
        false,
        plus,
        minus,
    );
    if constraint.exact {
        change_products(
            numbers,
            marks,
            constraint.products.again(),
            true,
            plus,
            minus,
        );
    }
}

/// Adds a number to those of the literals that hurt a constraint, after another is taken from them.
/// The marks, of which none is set, are used for that.
pub(crate) fn change_hurting(
    numbers: &mut [u128],
    marks: &mut [bool],
    constraint: &ConstraintRef<'_>,
    plus: u128,
    minus: u128,
)
    requires lengths { length marks.old ≡ length numbers.old }
    requires within { HavePlaces (length numbers.old) constraint.now.products }
    requires unmarked { (l : Literal) → is_marked marks.old l ≡ false }
    requires room { (l : Literal) → hurts_constraint constraint.now l ≡ true
        → MayChange numbers.old plus minus l }
    ensures numbers { (l : Literal) → number_of numbers.new l
        ≡ (if hurts_constraint constraint.now l then number_of numbers.old l - minus + plus
        else number_of numbers.old l) }
    ensures unmarked { (l : Literal) → is_marked marks.new l ≡ false }
{
    mark_hurting(marks, constraint);
    change_marked_hurting(numbers, marks, constraint, plus, minus);
}
