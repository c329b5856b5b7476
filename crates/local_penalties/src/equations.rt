//! The local penalty of an equation.
ghost use Rattle.std.specs.Prelude.{◌≡◌, ◌+◌, ◌-◌, ◌^◌, ◌<◌, ◌≤◌, ◌++◌, ◌&&◌, IfOk, OnOk, ◌==◌, int_lt, length, map, not, pos, slice_get, unsigned_abs};
ghost use Rattle.std.specs.List.{list_all};
ghost use Rattle.std.specs.Option.{option_map_or};
ghost use Rattle.problem_form.specs.Problems.{constraint_total, products_total};
ghost use Rattle.problem_form.specs.Wanted.{size};
ghost use Rattle.problem_form.specs.Limits.{least_sum, negative_total, positive_total};
ghost use Rattle.local_penalties.specs.Prices.{far};
ghost use Rattle.local_penalties.specs.Rounds.{equation_penalty, price_of_side};
ghost use Rattle.local_penalties.specs.Stepping.{all_differ, common_size, is_stepped, neighbours_differ, variables_of};
ghost use Rattle.local_penalties.specs.Tallies.{HavePlaces, number_of};

use crate::greatest::{greatest, sort_down};
use crate::local::{above_of, all_single, most_below, negative_coefficients, put_wanted};
use crate::opening::FAR;
use base::NoMemory;
use problem_form::{ConstraintRef, Literals, ProductRef, Products, positive_coefficients};

// ---- one size

fn first_size(mut products: Products<'_>) -> u128
    ensures { result ≡ option_map_or size (slice_get products.entry 0) 0 }
{
    match products.next() {
        Some(product) => product.coefficient.unsigned_abs(),
        None => 0,
    }
}

fn has_size(product: ProductRef<'_>, size: u128) -> bool
    ensures { result ≡ (unsigned_abs product.entry.coefficient == size) }
{
    product.coefficient.unsigned_abs() == size
}

fn have_size(products: Products<'_>, size: u128) -> bool
    ensures { result ≡ list_all (λ t. unsigned_abs t.coefficient == size) products.entry }
{
    for product in products {
        if !has_size(product, size) {
            return false;
        }
    }
    true
}

/// The size of the coefficients of all products, and 0 where they have not one.
fn common_size(products: Products<'_>) -> u128
    ensures { result ≡ common_size products.entry }
{
    let size = first_size(products.again());
    if have_size(products, size) { size } else { 0 }
}

// ---- different variables

/// Appends the variables of literals to a buffer.
fn add_variables(buffer: &mut Vec<u128>, literals: Literals<'_>) -> Result<(), NoMemory>
    ensures { OnOk result (buffer.new.items
        ≡ buffer.old.items ++ map (λ l. l.variable) literals.entry) }
{
    for literal in literals {
        buffer.push(u128::from(literal.variable))?;
    }
    Ok(())
}

/// Puts the variables of products into a buffer.
fn put_variables(buffer: &mut Vec<u128>, products: Products<'_>) -> Result<(), NoMemory>
    ensures { OnOk result (buffer.new.items ≡ variables_of products.entry) }
{
    buffer.clear();
    for product in products {
        add_variables(buffer, product.literals)?;
    }
    Ok(())
}

fn neighbours_differ(numbers: &[u128]) -> bool
    ensures { result ≡ neighbours_differ numbers.now }
{
    for i in 1..numbers.len() {
        if numbers[i - 1] == numbers[i] {
            return false;
        }
    }
    true
}

/// Whether the literals of products are of different variables. The buffer is used for it.
fn all_differ(buffer: &mut Vec<u128>, products: Products<'_>) -> Result<bool, NoMemory>
    ensures { IfOk result (λ differ. differ ≡ all_differ (variables_of products.entry)) }
{
    put_variables(buffer, products)?;
    sort_down(buffer);
    Ok(neighbours_differ(buffer))
}

// ---- equations

/// Whether a bound lies between the least and the greatest sum of products.
fn is_between(products: Products<'_>, bound: i128) -> bool
    requires small { products_total products < 2 ^ 100 }
    requires bound { unsigned_abs bound < 2 ^ 100 }
    ensures { result ≡ (not (int_lt bound (least_sum products.entry))
        && not (int_lt (pos (positive_total products.entry)) bound)) }
{
    let least = -(negative_coefficients(products.again()) as i128);
    let most = positive_coefficients(products) as i128;
    least <= bound && bound <= most
}

/// Whether an equation can be repaired step by step. The buffer is used for it.
fn is_stepped(
    buffer: &mut Vec<u128>,
    constraint: &ConstraintRef<'_>,
    size: u128,
) -> Result<bool, NoMemory>
    requires total { constraint_total constraint.now < 2 ^ 100 }
    requires size { size ≡ common_size constraint.now.products }
    ensures { IfOk result (λ stepped. stepped ≡ is_stepped constraint.now) }
{
    if size == 0 || !all_single(constraint.products.again()) {
        return Ok(false);
    }
    if !is_between(constraint.products.again(), constraint.bound) {
        return Ok(false);
    }
    if most_below(constraint) % size != 0 {
        return Ok(false);
    }
    all_differ(buffer, constraint.products.again())
}

/// What the cheapest step up, or down, costs at most, by prices that leave out the equation itself.
fn price_of_side(
    buffer: &mut Vec<u128>,
    numbers: &[u128],
    products: Products<'_>,
    up: bool,
    short: u128,
    steps: u128,
) -> Result<u128, NoMemory>
    requires within { HavePlaces (length numbers.now) products }
    requires steps { steps < 2 ^ 127 }
    ensures value { IfOk result (λ price. price ≡ price_of_side up
        (λ l. number_of numbers.now l - far) short steps products.entry) }
    ensures small { IfOk result (λ price. price ≤ far) }
{
    if short == 0 {
        return Ok(0);
    }
    put_wanted(buffer, numbers, products, up, FAR)?;
    Ok(greatest(buffer, steps + 1))
}

/// The local penalty of an equation, by prices that leave out the equation itself.
pub(crate) fn equation_penalty(
    buffer: &mut Vec<u128>,
    numbers: &[u128],
    constraint: &ConstraintRef<'_>,
) -> Result<u128, NoMemory>
    requires total { constraint_total constraint.now < 2 ^ 100 }
    requires within { HavePlaces (length numbers.now) constraint.now.products }
    ensures value { IfOk result (λ penalty.
        penalty ≡ equation_penalty (λ l. number_of numbers.now l - far) constraint.now) }
    ensures small { IfOk result (λ penalty. penalty ≤ far + 1) }
{
    let size = common_size(constraint.products.again());
    if !is_stepped(buffer, constraint, size)? {
        return Ok(FAR);
    }
    let below = most_below(constraint);
    let above = above_of(constraint.products.again(), constraint.bound);
    let products = constraint.products.again();
    let up = price_of_side(buffer, numbers, products, true, below, above / size)?;
    let products = constraint.products.again();
    let down = price_of_side(buffer, numbers, products, false, above, below / size)?;
    Ok(1 + up.max(down))
}
