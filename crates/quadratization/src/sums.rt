//! The sums of additions, of which those of one set are neighbours.
ghost use Rattle.std.specs.Prelude.{◌≡◌, ◌+◌, ◌≤◌, ◌<◌, ◌^◌, IfOk, All, length, map, unsigned_abs};
ghost use Rattle.term_table.specs.Terms.{terms_total};
ghost use Rattle.term_table.specs.Summed.{sums_of};
ghost use Rattle.quadratization.specs.Long.{product_term, additions_at, additions_from, HaveKeys, IsNextSum};

use crate::additions::{Keyed, are_alike};
use base::NoMemory;
use problem_form::ProductList;
use std::alloc::Global;

/// Adds the coefficient of the addition at a place to the sum of those before it of its set. Where
/// the set ends, gives the sum unless it is 0, and the next one starts at 0.
#[inline(always)]
pub fn next_sum(
    additions: &ProductList,
    order: &[Keyed],
    place: usize,
    sum: &mut i128,
) -> Option<i128>
    requires within { place < length order.now }
    requires indices { All (λ k. k.index < length additions.now) order.now }
    requires keys { HaveKeys additions.now order.now }
    requires small { unsigned_abs sum.old
        + terms_total (additions_from additions.now order.now place) ≤ 2 ^ 124 }
    ensures sums { IsNextSum additions.now order.now place sum.old sum.new result }
    ensures small { unsigned_abs sum.new
        + terms_total (additions_from additions.now order.now (place + 1)) ≤ 2 ^ 124 }
{
    *sum += additions.at(order[place].index).coefficient;
    if place + 1 < order.len() && are_alike(additions, &order[place], &order[place + 1]) {
        return None;
    }
    let whole = *sum;
    *sum = 0;
    if whole == 0 { None } else { Some(whole) }
}

/// So many additions are read before the first of them is summed.
const STRETCH: usize = 32;

/// Reads additions one after another, and gives 0 or 1. What is made of one of them depends on jumps
/// that cannot be foreseen, so the next one, which lies anywhere, would be fetched only after it;
/// here the processor fetches many at a time.
fn fetched(additions: &ProductList, order: &[Keyed]) -> usize
    requires { All (λ k. k.index < length additions.now) order.now }
    ensures { result ≤ 1 }
{
    let mut read = 0;
    for keyed in order {
        let mut addition = additions.at(keyed.index);
        let first = addition
            .literals
            .next()
            .map_or(0, |literal| literal.variable);
        read ^= first ^ u64::from(addition.coefficient < 0);
    }
    (read % 2) as usize
}

/// Reads a stretch of additions where a place begins one, and gives 0 or 1.
fn read_ahead(additions: &ProductList, order: &[Keyed], place: usize) -> usize
    requires within { place < length order.now }
    requires indices { All (λ k. k.index < length additions.now) order.now }
    ensures { result ≤ 1 }
{
    if place % STRETCH != 0 {
        return 0;
    }
    let end = order.len().min(place.saturating_add(STRETCH));
    fetched(additions, &order[place..end])
}

/// The sums of neighbours of one set. A sum of 0 is left out.
pub(crate) fn summed_additions(
    alloc: Global,
    additions: &ProductList,
    order: &[Keyed],
) -> Result<ProductList, NoMemory>
    requires indices { All (λ k. k.index < length additions.now) order.now }
    requires keys { HaveKeys additions.now order.now }
    requires small { terms_total (additions_at additions.now order.now) ≤ 2 ^ 124 }
    ensures { IfOk result (λ products.
        map product_term products ≡ sums_of (additions_at additions.now order.now)) }
{
    let mut products = ProductList::empty(alloc);
    let mut literals = Vec::new(alloc);
    let mut sum = 0;
    for i in 0..order.len() {
        // what is read has to be used, or it would not be read: here it is room for one literal more
        literals.reserve(read_ahead(additions, order, i))?;
        if let Some(coefficient) = next_sum(additions, order, i, &mut sum) {
            additions
                .at(order[i].index)
                .literals
                .copy_into(&mut literals)?;
            products.push(&literals, coefficient)?;
        }
    }
    Ok(products)
}
