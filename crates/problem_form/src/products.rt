//! Products in normal form, and the sums of constraints.
ghost use Rattle.std.specs.Prelude.{◌≡◌, ◌∷◌, [], ◌==◌, if◌then◌else◌, pos, ◌<◌, ◌^◌, ◌||◌, ◌++◌, OnOk, OnErr, length, take};
ghost use Rattle.std.specs.List.{flat_map};
ghost use Rattle.std.specs.List.Sorted.{IsStrictlySortedBy};
ghost use Rattle.base.specs.Sums.{total_by};
ghost use Rattle.literal_lists.specs.Literals.{has_clash, literal_cmp};
ghost use Rattle.problem_form.specs.NormalForm.{is_empty, kept_product, normal_constraint, product_constant};
ghost use Rattle.problem_form.specs.Problems.{constraint_total, products_total};

use crate::product_list::{ProductList, ProductRef};
use crate::terms::Constraint;
use base::NoMemory;
use literal_lists::{Literal, ShortSet, clashes, make_set};

/// What a product adds to the constant: the coefficient of one without literals.
pub(crate) fn coefficient_constant(literals: usize, coefficient: i128) -> i128
    ensures { result ≡ (if literals == 0 then coefficient else pos 0) }
{
    if literals == 0 { coefficient } else { 0 }
}

/// What a product adds to the constant.
fn product_constant(product: ProductRef<'_>) -> i128
    ensures { result ≡ product_constant product.entry }
{
    coefficient_constant(product.literals.len(), product.coefficient)
}

/// Whether a product of these literals is dropped, or is no more than a number.
fn is_dropped(literals: &[Literal]) -> bool
    requires { IsStrictlySortedBy literal_cmp literals.now }
    ensures { result ≡ (has_clash literals.now || is_empty literals.now) }
{
    clashes(literals) || literals.is_empty()
}

/// Appends a product as written in normal form, where it is kept, and puts its literals in order.
/// Where memory is refused the list stays as it was.
#[inline(always)]
pub(crate) fn keep_product(
    products: &mut ProductList,
    literals: &mut Vec<Literal>,
    coefficient: i128,
) -> Result<(), NoMemory>
    ensures kept { OnOk result (products.new ≡ products.old
        ++ kept_product (record { literals = literals.old.items; coefficient = coefficient })) }
    ensures unchanged { OnErr result (products.new ≡ products.old) }
{
    make_set(literals);
    if coefficient == 0 {
        return Ok(());
    }
    if is_dropped(literals) {
        return Ok(());
    }
    products.push(literals, coefficient)
}

/// Appends a number times a literal in normal form, where it is kept. Where memory is refused the
/// list stays as it was.
#[inline(always)]
pub(crate) fn keep_weighed(
    products: &mut ProductList,
    literal: Literal,
    coefficient: i128,
) -> Result<(), NoMemory>
    ensures kept { OnOk result (products.new ≡ products.old
        ++ kept_product (record { literals = literal ∷ []; coefficient = coefficient })) }
    ensures unchanged { OnErr result (products.new ≡ products.old) }
{
    if coefficient == 0 {
        return Ok(());
    }
    products.push(&[literal], coefficient)
}

/// Appends a number times two literals in normal form, where it is kept. Where memory is refused the
/// list stays as it was.
#[inline(always)]
pub(crate) fn keep_weighed_pair(
    products: &mut ProductList,
    first: Literal,
    second: Literal,
    coefficient: i128,
) -> Result<(), NoMemory>
    ensures kept { OnOk result (products.new ≡ products.old
        ++ kept_product (record { literals = first ∷ second ∷ []; coefficient = coefficient })) }
    ensures unchanged { OnErr result (products.new ≡ products.old) }
{
    if coefficient == 0 {
        return Ok(());
    }
    match ShortSet::of(first, second) {
        Some(set) => products.push(set.as_slice(), coefficient),
        None => Ok(()),
    }
}

/// Appends the products as written in normal form, where they are kept. Where memory is refused the
/// list has some of them.
pub(crate) fn keep_products(
    kept: &mut ProductList,
    products: &ProductList,
    scratch: &mut Vec<Literal>,
) -> Result<(), NoMemory>
    ensures kept { OnOk result (kept.new ≡ kept.old ++ flat_map kept_product products.now) }
    ensures before { take (length kept.old) kept.new ≡ kept.old }
{
    for product in products.iter() {
        let ProductRef {
            literals,
            coefficient,
        } = product;
        literals.copy_into(scratch)?;
        keep_product(kept, scratch, coefficient)?;
    }
    Ok(())
}

/// What the products without literals add to their sum.
fn constants_of(products: &ProductList) -> i128
    requires { products_total products.now < 2 ^ 100 }
    ensures { result ≡ total_by product_constant products.now }
{
    let mut sum: i128 = 0;
    for product in products.iter() {
        sum += product_constant(product);
    }
    sum
}

/// The bound of a constraint in normal form: the constants of its sum go off it.
pub(crate) fn normal_bound(constraint: &Constraint) -> i128
    requires { constraint_total constraint.now < 2 ^ 100 }
    ensures { result ≡ (normal_constraint constraint.now).bound }
{
    constraint.bound - constants_of(&constraint.products)
}
