//! The terms of a square.
ghost use Rattle.std.specs.Prelude.{◌≡◌, ◌*◌, ◌≤◌, ◌^◌, ◌*ℤ◌, ◌∷◌, [], All, drop, length, pos, unsigned_abs, OnOk};
ghost use Rattle.term_table.specs.Terms.{terms_total};
ghost use Rattle.term_table.specs.Products.{products_with, union_terms};
ghost use Rattle.term_table.specs.Rooms.{Fills, HasRoomFor};
ghost use Rattle.penalty_layer.specs.Sets.{IsSet};
ghost use Rattle.penalty_layer.specs.Squares.{square_terms};

use crate::parts::Parts;
use base::NoMemory;
use literal_lists::{Literal, ShortSet, clashes};
use term_table::{Gather, unite};

#[inline(always)]
fn times(a: &i128, b: &i128) -> i128
    requires { unsigned_abs a.now * unsigned_abs b.now ≤ 2 ^ 99 }
    ensures { result ≡ a.now *ℤ b.now }
{
    *a * *b
}

/// A number times another, of which the first is not negative.
fn scaled(factor: u128, a: &i128) -> i128
    requires factor { factor ≤ 2 ^ 101 }
    requires small { factor * unsigned_abs a.now ≤ 2 ^ 99 }
    ensures { result ≡ pos factor *ℤ a.now }
{
    factor as i128 * *a
}

/// A number times the square of another.
fn squared(factor: u128, a: &i128) -> i128
    requires factor { factor ≤ 2 ^ 101 }
    requires small { factor * (unsigned_abs a.now * unsigned_abs a.now) ≤ 2 ^ 97 }
    ensures { result ≡ pos factor *ℤ (a.now *ℤ a.now) }
{
    times(&scaled(factor, a), a)
}

/// Adds a coefficient on the union of two literals, where they do not clash.
#[inline(always)]
fn add_pair<T: Gather>(
    terms: &mut T,
    l: Literal,
    k: Literal,
    coefficient: i128,
) -> Result<(), NoMemory>
    requires { HasRoomFor T.takes terms.old (union_terms (l ∷ []) (k ∷ []) coefficient) }
    ensures { OnOk result (Fills T.takes T.holds terms.old terms.new
        (union_terms (l ∷ []) (k ∷ []) coefficient)) }
{
    match ShortSet::of(l, k) {
        Some(set) => terms.gather(set.as_slice(), coefficient),
        None => Ok(()),
    }
}

/// Adds a coefficient on the union of two sets of any length, where it has no clash.
#[inline(never)]
fn add_sets<T: Gather>(
    terms: &mut T,
    set: &mut Vec<Literal>,
    ls: &[Literal],
    ks: &[Literal],
    coefficient: i128,
) -> Result<(), NoMemory>
    requires left { IsSet ls.now }
    requires right { IsSet ks.now }
    requires room { HasRoomFor T.takes terms.old (union_terms ls.now ks.now coefficient) }
    ensures { OnOk result (Fills T.takes T.holds terms.old terms.new
        (union_terms ls.now ks.now coefficient)) }
{
    if ks.is_empty() {
        return terms.gather(ls, coefficient);
    }
    if ls.is_empty() {
        return terms.gather(ks, coefficient);
    }
    unite(set, ls, ks)?;
    if clashes(set) {
        return Ok(());
    }
    terms.gather(set, coefficient)
}

/// Adds a coefficient on the union of two sets, where it has no clash. Mostly both are of one
/// literal.
#[inline(always)]
fn add_union<T: Gather>(
    terms: &mut T,
    set: &mut Vec<Literal>,
    ls: &[Literal],
    ks: &[Literal],
    coefficient: i128,
) -> Result<(), NoMemory>
    requires left { IsSet ls.now }
    requires right { IsSet ks.now }
    requires room { HasRoomFor T.takes terms.old (union_terms ls.now ks.now coefficient) }
    ensures { OnOk result (Fills T.takes T.holds terms.old terms.new
        (union_terms ls.now ks.now coefficient)) }
{
    if ls.len() == 1 && ks.len() == 1 {
        return add_pair(terms, ls[0], ks[0], coefficient);
    }
    add_sets(terms, set, ls, ks, coefficient)
}

/// Adds the products of a term and each of the parts from a place on.
fn add_row<T: Gather>(
    terms: &mut T,
    set: &mut Vec<Literal>,
    ls: &[Literal],
    coefficient: &i128,
    parts: &Parts,
    start: usize,
) -> Result<(), NoMemory>
    requires left { IsSet ls.now }
    requires parts { All (λ t. IsSet t.0) parts.now }
    requires start { start ≤ length parts.now }
    requires small { unsigned_abs coefficient.now * terms_total (drop start parts.now) ≤ 2 ^ 97 }
    requires room { HasRoomFor T.takes terms.old
        (products_with (ls.now, coefficient.now) (drop start parts.now)) }
    ensures { OnOk result (Fills T.takes T.holds terms.old terms.new
        (products_with (ls.now, coefficient.now) (drop start parts.now))) }
{
    for j in start..parts.len() {
        let (ks, other) = parts.at(j);
        add_union(terms, set, ls, ks, times(coefficient, &other))?;
    }
    Ok(())
}

/// Adds a factor times the square of the sum of the parts.
pub(crate) fn add_square<T: Gather>(
    terms: &mut T,
    set: &mut Vec<Literal>,
    factor: u128,
    parts: &Parts,
) -> Result<(), NoMemory>
    requires parts { All (λ t. IsSet t.0) parts.now }
    requires factor { factor ≤ 2 ^ 100 }
    requires small { factor * terms_total parts.now ^ 2 ≤ 2 ^ 97 }
    requires room { HasRoomFor T.takes terms.old (square_terms factor parts.now) }
    ensures { OnOk result (Fills T.takes T.holds terms.old terms.new
        (square_terms factor parts.now)) }
{
    for i in 0..parts.len() {
        let (ls, coefficient) = parts.at(i);
        terms.gather(ls, squared(factor, &coefficient))?;
        add_row(
            terms,
            set,
            ls,
            &scaled(2 * factor, &coefficient),
            parts,
            i + 1,
        )?;
    }
    Ok(())
}
