//! Additions in the order of their literals, with those of one set as one.
ghost use Rattle.std.specs.Prelude.{◌≡◌, ℕ, ◌≤◌, ◌<◌, ◌^◌, IfOk, All, IsTrue, length, map, []};
ghost use Rattle.std.specs.List.Sorted.{IsPermutation, IsSortedBy};
ghost use Rattle.std.specs.Bool.{Decides};
ghost use Rattle.std.specs.declared.cmp.Ordering.TheVariants.{Equal};
ghost use Rattle.std.specs.Ordering.{is_lt, nat_cmp, ordering_then};
ghost use Rattle.term_table.specs.Terms.{set_cmp};
ghost use Rattle.term_table.specs.Tables.{AreAdditions};
ghost use Rattle.quadratization.specs.Long.{terms_of, product_term, code_of, pair_key, triple_key, key_for, addition_at, additions_at, AreKeyed, HaveKeys, IsCoded};

use base::NoMemory;
use literal_lists::{Literal, Literals};
use problem_form::ProductList;
use std::alloc::Global;
use std::cmp::Ordering;

/// Variables below it have codes of 21 bits.
const FEW_VARIABLES: usize = 1 << 20;

/// Variables below it have codes of 32 bits.
const CODED_VARIABLES: usize = 1 << 31;

/// A key of three literals has 21 bits for each.
const SHORT_CODES: u64 = 1 << 21;

/// A key of two literals has 32 bits for each.
const CODES: u64 = 1 << 32;

/// How many of a set's first literals its key is made of: of as many as 64 bits hold.
#[derive(Clone, Copy)]
pub enum KeyLength {
    Three,
    Two,
    Zero,
}

/// An addition's index, and the key of its first literals.
#[derive(Clone, Copy, Drop)]
pub struct Keyed {
    pub key: u64,
    pub index: usize,
}

/// Twice the variable, and one more where it is negated.
fn code_of(literal: Literal) -> u64
    requires { literal.variable < 2 ^ 31 }
    ensures code { result ≡ code_of literal }
    ensures bound { result < 2 ^ 32 }
{
    2 * literal.variable + u64::from(literal.negated)
}

/// The key of the first two literals.
fn pair_key(mut literals: Literals<'_>) -> u64
    requires { All (λ l. l.variable < 2 ^ 31) literals }
    ensures { result ≡ pair_key literals.entry }
{
    let (Some(first), Some(second)) = (literals.next(), literals.next()) else {
        return 0;
    };
    code_of(first) * CODES + code_of(second)
}

/// The key of the first three literals.
fn triple_key(mut literals: Literals<'_>) -> u64
    requires { All (λ l. l.variable < 2 ^ 20) literals }
    ensures { result ≡ triple_key literals.entry }
{
    let (Some(first), Some(second), Some(third)) = (
        literals.next(),
        literals.next(),
        literals.next(),
    ) else {
        return 0;
    };
    (code_of(first) * SHORT_CODES + code_of(second)) * SHORT_CODES + code_of(third)
}

/// The key of a set, of so many literals.
#[inline(always)]
fn key_for(length: KeyLength, literals: Literals<'_>) -> u64
    requires { All (λ l. IsCoded length l.variable) literals }
    ensures { result ≡ key_for length literals.entry }
{
    match length {
        KeyLength::Three => triple_key(literals),
        KeyLength::Two => pair_key(literals),
        KeyLength::Zero => 0,
    }
}

/// The order of a set and the empty one.
fn order_after_none(mut literals: Literals<'_>) -> Ordering
    ensures { result ≡ set_cmp literals.entry [] }
{
    match literals.next() {
        None => Ordering::Equal,
        Some(_) => Ordering::Greater,
    }
}

/// The order of the sets of two additions. One past the end has no literals.
fn compared_at(additions: &ProductList, left: usize, right: usize) -> Ordering
    ensures { result
        ≡ set_cmp (addition_at additions.now left).0 (addition_at additions.now right).0 }
{
    match (left < additions.len(), right < additions.len()) {
        (true, true) => (additions.at(left).literals).compared(additions.at(right).literals),
        (true, false) => order_after_none(additions.at(left).literals),
        (false, true) => order_after_none(additions.at(right).literals).reverse(),
        (false, false) => Ordering::Equal,
    }
}

/// Additions with their keys.
fn with_keys(
    alloc: Global,
    length: KeyLength,
    additions: &ProductList,
) -> Result<Vec<Keyed>, NoMemory>
    requires { All (λ p. All (λ l. IsCoded length l.variable) p.literals) additions.now }
    ensures { IfOk result (λ order. AreKeyed length additions.now order.items) }
{
    let mut order = Vec::with_capacity(alloc, additions.len())?;
    for index in 0..additions.len() {
        let key = key_for(length, additions.at(index).literals);
        order.push(Keyed { key, index })?;
    }
    Ok(order)
}

/// Of how many literals keys of sets over the variables below a width are made.
fn key_length(width: usize) -> KeyLength
    ensures { (v : ℕ) → v < width → IsCoded result v }
{
    if width <= FEW_VARIABLES {
        KeyLength::Three
    } else if width <= CODED_VARIABLES {
        KeyLength::Two
    } else {
        KeyLength::Zero
    }
}

/// The order of two additions: by their keys, and then by their sets.
fn compared_keys(additions: &ProductList, left: &Keyed, right: &Keyed) -> Ordering
    ensures { result ≡ ordering_then (nat_cmp left.now.key right.now.key)
        (set_cmp (addition_at additions.now left.now.index).0
        (addition_at additions.now right.now.index).0) }
{
    match left.key.cmp(&right.key) {
        Ordering::Equal => compared_at(additions, left.index, right.index),
        order => order,
    }
}

/// The additions in the order of their sets.
pub fn ordered_additions(
    alloc: Global,
    width: usize,
    additions: &ProductList,
) -> Result<Vec<Keyed>, NoMemory>
    requires additions { AreAdditions (terms_of width additions.now) }
    requires long { All (λ p. 3 ≤ length p.literals) additions.now }
    ensures indices { IfOk result (λ order. All (λ k. k.index < length additions.now) order.items) }
    ensures permuted { IfOk result (λ order.
        IsPermutation (map product_term additions.now) (additions_at additions.now order.items)) }
    ensures ordered { IfOk result (λ order. IsSortedBy (λ t u. is_lt (set_cmp t.0 u.0))
        (additions_at additions.now order.items)) }
    ensures keys { IfOk result (λ order. HaveKeys additions.now order.items) }
{
    let mut order = with_keys(alloc, key_length(width), additions)?;
    order.sort_unstable_by(|left, right| compared_keys(additions, left, right));
    Ok(order)
}

/// Whether two additions are of one set: most that are not have other keys.
pub(crate) fn are_alike(additions: &ProductList, left: &Keyed, right: &Keyed) -> bool
    requires { set_cmp (addition_at additions.now left.now.index).0
        (addition_at additions.now right.now.index).0 ≡ Equal → left.now.key ≡ right.now.key }
    ensures { Decides result (set_cmp (addition_at additions.now left.now.index).0
        (addition_at additions.now right.now.index).0 ≡ Equal) }
{
    if left.key != right.key {
        return false;
    }
    compared_at(additions, left.index, right.index) == Ordering::Equal
}
