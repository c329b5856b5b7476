//! Which constraints are conflicts.
ghost use Rattle.std.specs.Prelude.{◌≡◌, ◌<◌, ◌≤◌, ◌^◌, ◌&&◌, pos, ◌-ℤ◌, int_lt, nat_lt, unsigned_abs, not, count_by, length, if◌then◌else◌, IfSome, IsSome, MatchOption, Some, None, false};
ghost use Rattle.base.specs.Sums.{positive_part};
ghost use Rattle.std.specs.List.{list_all};
ghost use Rattle.problem_form.specs.Limits.{positive_total, room};
ghost use Rattle.problem_form.specs.Problems.{constraint_total, products_total};
ghost use Rattle.conflict_clauses.specs.Conflicts.{are_apart, each_two, is_needed, is_replaced, is_short, most_pairs, pair_count};
ghost use Rattle.conflict_clauses.specs.Steps.{IsFound, may_conflict};
ghost use Rattle.problem_form.specs.Wanted.{is_single};

use problem_form::{ConstraintRef, ProductRef, Products, positive_coefficients};

/// The most products of a conflict or a cover.
const MOST_PRODUCTS: usize = 1024;

/// The most pairs of all conflicts that are replaced.
const MOST_PAIRS: usize = 2_097_152;

fn is_single(product: ProductRef<'_>) -> bool
    ensures { result ≡ is_single product.entry }
{
    product.literals.len() == 1
}

pub(crate) fn all_single(mut products: Products<'_>) -> bool
    ensures { result ≡ list_all is_single products.entry }
{
    products.all(is_single)
}

/// Whether a constraint is no equation, and has some products that are not too many.
pub(crate) fn is_short(constraint: &ConstraintRef<'_>) -> bool
    ensures { result ≡ is_short constraint.now }
{
    let count = constraint.products.len();
    !constraint.exact && count > 0 && count <= MOST_PRODUCTS
}

/// Whether the sizes of any two products sum to more than the room.
fn all_apart(products: Products<'_>, room: u128) -> bool
    requires small { products_total products < 2 ^ 100 }
    requires room { room < 2 ^ 101 }
    ensures { result ≡ each_two (are_apart room) products.entry }
{
    let mut least = room + 1;
    for product in products {
        let size = product.coefficient.unsigned_abs();
        if least + size <= room {
            return false;
        }
        least = least.min(size);
    }
    true
}

/// How far the greatest sum of products is above a bound, where it is not below.
fn room_above(products: Products<'_>, bound: i128) -> Option<u128>
    requires small { products_total products < 2 ^ 100 }
    requires bound { unsigned_abs bound < 2 ^ 100 }
    ensures room { result ≡ (if int_lt (pos (positive_total products.entry)) bound then None
        else Some (positive_part (pos (positive_total products.entry) -ℤ bound))) }
    ensures small { IfSome result (λ room. room < 2 ^ 101) }
{
    let most = positive_coefficients(products) as i128;
    if most < bound {
        return None;
    }
    Some((most - bound).unsigned_abs())
}

/// The room of a constraint that may be a conflict: no equation, with products that are not too
/// many, that can hold.
fn room_of(constraint: &ConstraintRef<'_>) -> Option<u128>
    requires { constraint_total constraint.now < 2 ^ 100 }
    ensures room { result
        ≡ (if may_conflict constraint.now then Some (room constraint.now) else None) }
    ensures few { IsSome result → length constraint.now.products ≤ 1024 }
    ensures small { IfSome result (λ room. room < 2 ^ 101) }
{
    if !is_short(constraint) {
        return None;
    }
    room_above(constraint.products.again(), constraint.bound)
}

/// How many numbers are of no more than a size.
fn count_within(numbers: &[i128], room: u128) -> usize
    ensures { result ≡ count_by (λ z. not (nat_lt room (unsigned_abs z))) numbers.now }
{
    numbers
        .iter()
        .filter(|number| (**number).unsigned_abs() <= room)
        .count()
}

/// How many products may miss where no other does.
fn count_others(products: Products<'_>, room: u128) -> usize
    ensures { result ≡ count_by (λ t. not (is_needed room t)) products.entry }
{
    count_within(products.coefficients(), room)
}

/// How many pairs there are of so many.
fn pair_count(count: usize) -> usize
    requires { count ≤ 1024 }
    ensures result { result ≡ pair_count count }
    ensures small { result ≤ most_pairs }
{
    if count == 0 {
        return 0;
    }
    count * (count - 1) / 2
}

/// Whether all products are of one literal, and no two may miss.
fn are_conflicting(products: Products<'_>, room: u128) -> bool
    requires small { products_total products < 2 ^ 100 }
    requires room { room < 2 ^ 101 }
    ensures { result
        ≡ (list_all is_single products.entry && each_two (are_apart room) products.entry) }
{
    all_single(products.again()) && all_apart(products, room)
}

/// A conflict that is to be replaced: its room, and its pairs.
#[derive(Clone, Copy)]
pub(crate) struct Found {
    pub(crate) room: u128,
    pub(crate) pairs: usize,
}

/// A constraint, where it is to be replaced after so many pairs. Whether there is room for its own
/// pairs is looked at first, since that tells most of those that stay.
pub(crate) fn find_conflict(constraint: &ConstraintRef<'_>, spent: usize) -> Option<Found>
    requires small { constraint_total constraint.now < 2 ^ 100 }
    requires spent { spent ≤ most_pairs }
    ensures { MatchOption result (is_replaced spent constraint.now ≡ false)
        (IsFound spent constraint.now) }
{
    let room = room_of(constraint)?;
    let pairs = pair_count(count_others(constraint.products.again(), room));
    if spent + pairs > MOST_PAIRS {
        return None;
    }
    if !are_conflicting(constraint.products.again(), room) {
        return None;
    }
    Some(Found { room, pairs })
}
