//! Tables of a few terms, against lists by hand.
ghost use Rattle.std.specs.Prelude.{◌≡◌, ◌+◌, ◌<◌, ◌≤◌, ◌^◌, IfOk, OnOk, length, unsigned_abs};
ghost use Rattle.term_table.specs.Terms.{terms_total};

use crate::given::{A, B, C, NOT_A, NOT_B, add_terms, are_terms, table_of};
use base::NoMemory;
use literal_lists::Literal;
use std::alloc::Global;
use term_table::{GatheredTerms, LowTable, Table, is_set, low};

/// Appends a term, where it is a set and its coefficient is small.
fn gather(
    terms: &mut GatheredTerms,
    width: usize,
    literals: &[Literal],
    coefficient: i128,
) -> Result<(), NoMemory>
    requires width { terms.old.width ≡ width }
    requires total { terms_total terms.old.terms ≤ 2 ^ 40 }
    ensures width { OnOk result (terms.new.width ≡ width) }
    ensures total { OnOk result
        (terms_total terms.new.terms ≤ terms_total terms.old.terms + 1000) }
{
    if coefficient.unsigned_abs() > 1000 || !is_set(literals, width) {
        return Ok(());
    }
    terms.add(literals, coefficient)
}

/// A table of terms that are summed at once.
fn table_at_once(
    alloc: Global,
    width: usize,
    terms: &[(&[Literal], i128)],
) -> Result<Table, NoMemory>
    requires { length terms.now < 100 }
    ensures width { IfOk result (λ t. t.content.width ≡ width) }
    ensures total { IfOk result (λ t. terms_total t.content.terms ≤ 100000) }
{
    let mut gathered = GatheredTerms::new(alloc, width);
    for (literals, coefficient) in terms {
        gather(&mut gathered, width, literals, *coefficient)?;
    }
    Ok(gathered.into_table())
}

/// The table of terms, which are summed at once where it is asked, and else one by one.
fn table_in_way(
    alloc: Global,
    at_once: bool,
    terms: &[(&[Literal], i128)],
) -> Result<Table, NoMemory>
    requires { length terms.now < 100 }
    ensures width { IfOk result (λ t. t.content.width ≡ 2) }
    ensures total { IfOk result (λ t. terms_total t.content.terms ≤ 100000) }
{
    if at_once {
        table_at_once(alloc, 2, terms)
    } else {
        table_of(alloc, 2, terms)
    }
}

/// Whether a table has these terms once later ones are added.
fn grows_to(
    table: &mut Table,
    later: &[(&[Literal], i128)],
    rows: &[(&[Literal], i128)],
) -> Result<bool, NoMemory>
    requires later { length later.now < 100 }
    requires width { table.old.content.width ≡ 2 }
    requires total { terms_total table.old.content.terms ≤ 100000 }
{
    add_terms(table, 2, later)?;
    Ok(are_terms(table.terms(), rows))
}

/// Whether additions give a table of these terms: the first ones at once where it is asked, and the
/// later ones one by one.
fn gives_terms(
    alloc: Global,
    at_once: bool,
    first: &[(&[Literal], i128)],
    later: &[(&[Literal], i128)],
    rows: &[(&[Literal], i128)],
) -> Result<bool, NoMemory>
    requires first { length first.now < 100 }
    requires later { length later.now < 100 }
{
    let mut table = table_in_way(alloc, at_once, first)?;
    grows_to(&mut table, later, rows)
}

const SOME: [(&[Literal], i128); 7] = [
    (&[A, B], 2),
    (&[B], 5),
    (&[NOT_A], 7),
    (&[], -1),
    (&[A, B], -2),
    (&[A, NOT_B], 1),
    (&[NOT_A], -3),
];

const OTHERS: [(&[Literal], i128); 6] = [
    (&[A, NOT_B], 1),
    (&[NOT_A], 4),
    (&[NOT_B], 0),
    (&[B], 6),
    (&[B], -1),
    (&[], -1),
];

const SUMS: [(&[Literal], i128); 4] = [(&[], -1), (&[A, NOT_B], 1), (&[NOT_A], 4), (&[B], 5)];

const SUMS_OF_BOTH: [(&[Literal], i128); 4] = [
    (&[], -2),
    (&[A, NOT_B], 2),
    (&[NOT_A], 8),
    (&[B], 10),
];

const ADDITIONS: &[(
    bool,
    &[(&[Literal], i128)],
    &[(&[Literal], i128)],
    &[(&[Literal], i128)],
)] = &[
    (false, &SOME, &[], &SUMS),
    (false, &OTHERS, &[], &SUMS),
    (false, &SOME, &OTHERS, &SUMS_OF_BOTH),
    (true, &SOME, &[], &SUMS),
    (true, &OTHERS, &[], &SUMS),
    (true, &SOME, &OTHERS, &SUMS_OF_BOTH),
];

#[test]
fn additions_in_any_order_give_one_list(rt: HostRuntime) {
    for (at_once, first, later, sums) in ADDITIONS {
        assert!(rt; first.len() < 100 && later.len() < 100);
        assert!(rt; gives_terms(rt.alloc(), *at_once, first, later, sums) == Ok(true));
    }
}

// ---- products

/// Whether a factor times the product of two tables over two variables gives these terms.
fn multiplies_to(
    alloc: Global,
    factor: i128,
    left: &LowTable,
    right: &LowTable,
    rows: &[(&[Literal], i128)],
) -> Result<bool, NoMemory>
    requires factor { unsigned_abs factor ≤ 1000 }
    requires left { left.now.content.width ≡ 2 }
    requires right { right.now.content.width ≡ 2 }
    requires left_total { terms_total left.now.content.terms ≤ 100000 }
    requires right_total { terms_total right.now.content.terms ≤ 100000 }
{
    // no term has more than two literals
    let (_left, _right) = (left.terms(), right.terms());
    let mut product = Table::new(alloc, 2);
    left.table
        .multiply_into(&right.table, factor, &mut product)?;
    Ok(are_terms(product.terms(), rows))
}

/// The same of a table and a list of terms.
fn multiplies_terms_to(
    alloc: Global,
    factor: i128,
    left: &LowTable,
    right: &[(&[Literal], i128)],
    rows: &[(&[Literal], i128)],
) -> Result<bool, NoMemory>
    requires factor { unsigned_abs factor ≤ 1000 }
    requires left { left.now.content.width ≡ 2 }
    requires left_total { terms_total left.now.content.terms ≤ 100000 }
    requires right { length right.now < 100 }
{
    match low(table_of(alloc, 2, right)?) {
        Ok(right) => multiplies_to(alloc, factor, left, &right, rows),
        Err(_) => Ok(false),
    }
}

/// The same of two lists of terms.
fn is_product(
    alloc: Global,
    factor: i128,
    left: &[(&[Literal], i128)],
    right: &[(&[Literal], i128)],
    rows: &[(&[Literal], i128)],
) -> Result<bool, NoMemory>
    requires factor { unsigned_abs factor ≤ 1000 }
    requires left { length left.now < 100 }
    requires right { length right.now < 100 }
{
    match low(table_of(alloc, 2, left)?) {
        Ok(left) => multiplies_terms_to(alloc, factor, &left, right, rows),
        Err(_) => Ok(false),
    }
}

const PRODUCTS: &[(
    i128,
    &[(&[Literal], i128)],
    &[(&[Literal], i128)],
    &[(&[Literal], i128)],
)] = &[
    // 2 (2 + a) (3 - b)
    (
        2,
        &[(&[], 2), (&[A], 1)],
        &[(&[], 3), (&[B], -1)],
        &[(&[], 12), (&[A], 6), (&[A, B], -2), (&[B], -4)],
    ),
    // a literal meets its complement: (a + ~b) (~a + b)
    (
        1,
        &[(&[A], 1), (&[NOT_B], 1)],
        &[(&[NOT_A], 1), (&[B], 1)],
        &[(&[A, B], 1), (&[NOT_A, NOT_B], 1)],
    ),
    // a variable meets itself: (a + 2 b) (a + 2 b)
    (
        1,
        &[(&[A], 1), (&[B], 2)],
        &[(&[A], 1), (&[B], 2)],
        &[(&[A], 1), (&[A, B], 4), (&[B], 4)],
    ),
    // a sum is 0: -1 (a + b) (a - b)
    (
        -1,
        &[(&[A], 1), (&[B], 1)],
        &[(&[A], 1), (&[B], -1)],
        &[(&[A], -1), (&[B], 1)],
    ),
    (0, &[(&[A], 1)], &[(&[B], 1)], &[]),
    (1, &[], &[(&[B], 1)], &[]),
];

#[test]
fn products_of_two_tables(rt: HostRuntime) {
    for (factor, left, right, rows) in PRODUCTS {
        assert!(rt; factor.unsigned_abs() <= 1000 && left.len() < 100 && right.len() < 100);
        assert!(rt;
            is_product(rt.alloc(), *factor, left, right, rows) == Ok(true),
            "{factor}"
        );
    }
}

// ---- low tables

/// Whether a table is refused, and is left with its first term.
fn is_refused(alloc: Global) -> Result<bool, NoMemory> {
    match low(table_of(alloc, 3, &[(&[A, NOT_B, C], 1), (&[C], -2)])?) {
        Ok(_) => Ok(false),
        Err(table) => Ok(table.terms().next() == Some((&[A, NOT_B, C], 1))),
    }
}

#[test]
fn three_literals_are_not_low(rt: HostRuntime) {
    assert!(rt; is_refused(rt.alloc()) == Ok(true));
}
