//! The local penalty of a part, by the prices of literals.
ghost use Rattle.std.specs.Prelude.{◌≡◌, ◌&&◌, ◌+◌, ◌-◌, ◌*◌, ◌^◌, ◌<◌, ◌≤◌, ◌∷◌, ◌++◌, [], IfOk, OnOk, None, Some, true, fold, int_lt, length, map, min, nat_le, neg_ℤ, ◌-ℤ◌, pos, unsigned_abs, if◌then◌else◌};
ghost use Rattle.std.specs.List.{filter, list_all, sum_by};
ghost use Rattle.base.specs.Sums.{positive_part};
ghost use Rattle.problem_form.specs.Problems.{constraint_total, products_total};
ghost use Rattle.problem_form.specs.Limits.{least_sum, need, negative_total, positive_total};
ghost use Rattle.local_penalties.specs.Hurting.{most_missing};
ghost use Rattle.local_penalties.specs.Prices.{charge, far};
ghost use Rattle.local_penalties.specs.Rounds.{bound_penalty, clause_penalty, constraint_penalty, price_of_step, wanted_prices};
ghost use Rattle.local_penalties.specs.Tallies.{AreWithin, HavePlaces, number_of};
ghost use Rattle.problem_form.specs.Wanted.{is_single, size, turned_literal, wanted};

use crate::equations::equation_penalty;
use crate::greatest::{count_past, greatest, sort_down};
use crate::opening::FAR;
use crate::tallies::place_of;
use base::NoMemory;
use problem_form::{
    ClauseRef, ConstraintRef, Literals, ProductRef, Products, positive_coefficients,
};

// ---- what can be missing

fn positive_part_of(number: i128) -> u128
    ensures { result ≡ positive_part number }
{
    if number < 0 { 0 } else { number.unsigned_abs() }
}

fn negated_part_of(number: i128) -> u128
    ensures { result ≡ positive_part (neg_ℤ number) }
{
    if number < 0 { number.unsigned_abs() } else { 0 }
}

fn sum_of_negative(numbers: &[i128]) -> u128
    requires { sum_by (λ z. positive_part (neg_ℤ z)) numbers.now < 2 ^ 100 }
    ensures { result ≡ sum_by (λ z. positive_part (neg_ℤ z)) numbers.now }
{
    numbers.iter().map(|number| negated_part_of(*number)).sum()
}

/// The sizes of the coefficients that are below 0.
pub(crate) fn negative_coefficients(products: Products<'_>) -> u128
    requires { negative_total products < 2 ^ 100 }
    ensures { result ≡ negative_total products.entry }
{
    sum_of_negative(products.coefficients())
}

/// How far a bound is above the least sum of products.
fn below_of(products: Products<'_>, bound: i128) -> u128
    requires small { products_total products < 2 ^ 100 }
    requires bound { unsigned_abs bound < 2 ^ 100 }
    ensures { result ≡ positive_part (bound -ℤ least_sum products.entry) }
{
    let least = negative_coefficients(products);
    positive_part_of(bound + least as i128)
}

/// How far the greatest sum of products is above a bound.
pub(crate) fn above_of(products: Products<'_>, bound: i128) -> u128
    requires small { products_total products < 2 ^ 100 }
    requires bound { unsigned_abs bound < 2 ^ 100 }
    ensures { result ≡ positive_part (pos (positive_total products.entry) -ℤ bound) }
{
    let most = positive_coefficients(products);
    positive_part_of(most as i128 - bound)
}

/// How far the bound of a constraint is above its least sum.
pub(crate) fn most_below(constraint: &ConstraintRef<'_>) -> u128
    requires { constraint_total constraint.now < 2 ^ 100 }
    ensures { result ≡ need constraint.now }
{
    below_of(constraint.products.again(), constraint.bound)
}

/// How far the greatest sum of products is above a bound, where it is not below.
fn room_above(products: Products<'_>, bound: i128) -> Option<u128>
    requires small { products_total products < 2 ^ 100 }
    requires bound { unsigned_abs bound < 2 ^ 100 }
    ensures { result ≡ (if int_lt (pos (positive_total products.entry)) bound then None
        else Some (positive_part (pos (positive_total products.entry) -ℤ bound))) }
{
    let most = positive_coefficients(products) as i128;
    if most < bound {
        return None;
    }
    Some((most - bound).unsigned_abs())
}

/// The most that can be missing in a constraint.
pub(crate) fn most_missing(constraint: &ConstraintRef<'_>) -> u128
    requires { constraint_total constraint.now < 2 ^ 100 }
    ensures { result ≡ most_missing constraint.now }
{
    let below = most_below(constraint);
    if !constraint.exact {
        return below;
    }
    below.max(above_of(constraint.products.again(), constraint.bound))
}

/// What a part that can miss so much adds to a price, by its own penalty.
pub(crate) fn charge_of(whole: u64, own: u64, missing: u128) -> u128
    requires { missing < 2 ^ 32 }
    ensures { result ≡ charge whole own missing }
{
    if own < whole {
        u128::from(own) * (missing * missing)
    } else {
        FAR
    }
}

// ---- least prices

/// The least of a number and the numbers of literals or, where they are turned, of their complements.
fn least_with(least: u128, numbers: &[u128], literals: Literals<'_>, turned: bool) -> u128
    requires { AreWithin (length numbers.now) literals }
    ensures value { result ≡ fold min least
        (map (number_of numbers.now) (map (turned_literal turned) literals.entry)) }
    ensures small { result ≤ least }
{
    let mut found = least;
    for literal in literals {
        found = found.min(numbers[place_of(literal, turned)]);
    }
    found
}

/// The local penalty of a clause.
#[tactic(auto, using(crate::proofs::LocalSteps::turned_false))]
pub(crate) fn clause_penalty(numbers: &[u128], clause: ClauseRef<'_>) -> u128
    requires { AreWithin (length numbers.now) clause.literals }
    ensures value { result ≡ clause_penalty (number_of numbers.now) clause.entry }
    ensures small { result ≤ far + 1 }
{
    1 + least_with(FAR, numbers, clause.literals, false)
}

/// The least of a number and of that of the wanted literal of a product, where it suffices.
#[tactic(auto, using(crate::proofs::LocalSteps::alone_one))]
fn least_by(least: u128, numbers: &[u128], product: ProductRef<'_>, below: u128) -> u128
    requires { AreWithin (length numbers.now) product.literals }
    ensures value { result ≡ fold min least (wanted_prices true (number_of numbers.now)
        (filter (λ t. is_single t && nat_le below (size t)) (product.entry ∷ []))) }
    ensures small { result ≤ least }
{
    if product.literals.len() == 1 && below <= product.coefficient.unsigned_abs() {
        least_with(least, numbers, product.literals, product.coefficient < 0)
    } else {
        least
    }
}

/// The least price of the wanted literals of the products that suffice.
fn price_alone(numbers: &[u128], products: Products<'_>, below: u128) -> u128
    requires { HavePlaces (length numbers.now) products }
    ensures value { result ≡ fold min far
        (wanted_prices true (number_of numbers.now) (filter (λ t. is_single t && nat_le below (size t)) products.entry)) }
    ensures small { result ≤ far }
{
    let mut least = FAR;
    for product in products {
        least = least_by(least, numbers, product, below);
    }
    least
}

// ---- steps

fn is_single(product: ProductRef<'_>) -> bool
    ensures { result ≡ is_single product.entry }
{
    product.literals.len() == 1
}

pub(crate) fn all_single(mut products: Products<'_>) -> bool
    ensures { result ≡ list_all is_single products.entry }
{
    products.all(is_single)
}

/// Puts the sizes of coefficients into a buffer.
fn put_sizes(buffer: &mut Vec<u128>, coefficients: &[i128]) -> Result<(), NoMemory>
    ensures { OnOk result (buffer.new.items ≡ map (λ z. unsigned_abs z) coefficients.now) }
{
    buffer.clear();
    for coefficient in coefficients {
        buffer.push(coefficient.unsigned_abs())?;
    }
    Ok(())
}

/// Appends the numbers of literals or, where they are turned, of their complements to a buffer, with
/// a number of their own taken off.
fn add_prices(
    buffer: &mut Vec<u128>,
    numbers: &[u128],
    literals: Literals<'_>,
    turned: bool,
    own: u128,
) -> Result<(), NoMemory>
    requires { AreWithin (length numbers.now) literals }
    ensures { OnOk result (buffer.new.items ≡ buffer.old.items
        ++ map (λ l. number_of numbers.now l - own) (map (turned_literal turned) literals.entry)) }
{
    for literal in literals {
        buffer.push(numbers[place_of(literal, turned)].saturating_sub(own))?;
    }
    Ok(())
}

/// Appends the numbers of the literals that a product wants to add more, or less, to a buffer.
fn add_wanted(
    buffer: &mut Vec<u128>,
    numbers: &[u128],
    product: ProductRef<'_>,
    up: bool,
    own: u128,
) -> Result<(), NoMemory>
    requires { AreWithin (length numbers.now) product.literals }
    ensures { OnOk result (buffer.new.items ≡ buffer.old.items
        ++ map (λ l. number_of numbers.now l - own) (wanted up product.entry)) }
{
    let turned = (product.coefficient < 0) == up;
    add_prices(buffer, numbers, product.literals, turned, own)
}

/// Puts the numbers of the literals that products want to add more, or less, into a buffer, with a
/// number of their own taken off.
pub(crate) fn put_wanted(
    buffer: &mut Vec<u128>,
    numbers: &[u128],
    products: Products<'_>,
    up: bool,
    own: u128,
) -> Result<(), NoMemory>
    requires { HavePlaces (length numbers.now) products }
    ensures { OnOk result (buffer.new.items
        ≡ wanted_prices up (λ l. number_of numbers.now l - own) products.entry) }
{
    buffer.clear();
    for product in products {
        add_wanted(buffer, numbers, product, up, own)?;
    }
    Ok(())
}

/// What the cheapest step costs at most of a sum that is below the greatest one by more than a room.
fn price_of_step(
    buffer: &mut Vec<u128>,
    numbers: &[u128],
    products: Products<'_>,
    room: u128,
) -> Result<u128, NoMemory>
    requires { HavePlaces (length numbers.now) products }
    ensures value { IfOk result (λ price.
        price ≡ price_of_step (number_of numbers.now) room products.entry) }
    ensures small { IfOk result (λ price. price ≤ far) }
{
    if !all_single(products.again()) {
        return Ok(FAR);
    }
    put_sizes(buffer, products.coefficients())?;
    sort_down(buffer);
    let count = count_past(buffer, room);
    put_wanted(buffer, numbers, products, true, 0)?;
    Ok(greatest(buffer, count as u128))
}

// ---- penalties of constraints

/// The local penalty of a constraint that bounds its sum from below.
fn bound_penalty(
    buffer: &mut Vec<u128>,
    numbers: &[u128],
    constraint: &ConstraintRef<'_>,
) -> Result<u128, NoMemory>
    requires total { constraint_total constraint.now < 2 ^ 100 }
    requires within { HavePlaces (length numbers.now) constraint.now.products }
    ensures value { IfOk result (λ penalty.
        penalty ≡ bound_penalty (number_of numbers.now) constraint.now) }
    ensures small { IfOk result (λ penalty. penalty ≤ far + 1) }
{
    let below = most_below(constraint);
    if below == 0 {
        return Ok(1);
    }
    match room_above(constraint.products.again(), constraint.bound) {
        None => Ok(FAR),
        Some(room) => {
            let alone = price_alone(numbers, constraint.products.again(), below);
            let step = price_of_step(buffer, numbers, constraint.products.again(), room)?;
            Ok(1 + alone.min(step))
        }
    }
}

/// The local penalty of a constraint. The buffer is used for it.
pub(crate) fn constraint_penalty(
    buffer: &mut Vec<u128>,
    numbers: &[u128],
    constraint: &ConstraintRef<'_>,
) -> Result<u128, NoMemory>
    requires total { constraint_total constraint.now < 2 ^ 100 }
    requires within { HavePlaces (length numbers.now) constraint.now.products }
    ensures value { IfOk result (λ penalty.
        penalty ≡ constraint_penalty (number_of numbers.now) constraint.now) }
    ensures small { IfOk result (λ penalty. penalty ≤ far + 1) }
{
    if constraint.exact {
        return equation_penalty(buffer, numbers, constraint);
    }
    bound_penalty(buffer, numbers, constraint)
}
