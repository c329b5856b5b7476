//! Products of two tables, which are gathered and then added into a third one.
//!
//! No run of the program comes here: constraints are squared as they are gathered.
ghost use Rattle.std.specs.Prelude.{◌≡◌, ◌≢◌, ◌+◌, ◌*◌, ◌≤◌, ◌^◌, ◌*ℤ◌, pos, length, unsigned_abs, All, OnOk, OnErr};
ghost use Rattle.term_table.specs.Terms.{terms_total};
ghost use Rattle.term_table.specs.Tables.{with_all, with_more};
ghost use Rattle.term_table.specs.Products.{pair_products, pairs_of, pairs_with, union_terms, HasPrefix, IsFactor};

use crate::gathered::GatheredTerms;
use crate::table::Table;
use crate::unions::unite;
use base::NoMemory;
use literal_lists::{Literal, clashes};

fn times(a: &i128, b: &i128) -> i128
    requires { unsigned_abs a.now * unsigned_abs b.now ≤ 2 ^ 124 }
    ensures { result ≡ a.now *ℤ b.now }
{
    *a * *b
}

/// The product of three numbers, of which the last is not 0.
fn product_of(factor: &i128, a: &i128, b: &i128) -> i128
    requires some { b.now ≢ pos 0 }
    requires small { unsigned_abs factor.now * (unsigned_abs a.now * unsigned_abs b.now)
        ≤ 2 ^ 124 }
    ensures { result ≡ (factor.now *ℤ a.now) *ℤ b.now }
{
    times(&times(factor, a), b)
}

/// Gathers a coefficient on the union of two sets, where it has no clash.
fn gather_union(
    into: &mut GatheredTerms,
    set: &mut Vec<Literal>,
    ls: &[Literal],
    ks: &[Literal],
    coefficient: i128,
) -> Result<(), NoMemory>
    requires left { IsFactor into.old.width ls.now }
    requires right { IsFactor into.old.width ks.now }
    requires small { terms_total into.old.terms + unsigned_abs coefficient ≤ 2 ^ 124 }
    ensures { OnOk result
        (into.new ≡ with_more into.old (union_terms ls.now ks.now coefficient)) }
{
    unite(set, ls, ks)?;
    if clashes(set) {
        return Ok(());
    }
    into.add(set, coefficient)
}

/// Gathers a factor times the products of a term and each of a table's.
fn gather_row(
    into: &mut GatheredTerms,
    set: &mut Vec<Literal>,
    ls: &[Literal],
    a: &i128,
    other: &Table,
    factor: &i128,
) -> Result<(), NoMemory>
    requires left { IsFactor into.old.width ls.now }
    requires width { other.now.content.width ≡ into.old.width }
    requires short { All (λ t. length t.0 ≤ 1024) other.now.content.terms }
    requires small { terms_total into.old.terms
        + unsigned_abs factor.now * (unsigned_abs a.now * terms_total other.now.content.terms)
        ≤ 2 ^ 124 }
    ensures { OnOk result (into.new ≡ with_more into.old
        (pair_products factor.now (pairs_with (ls.now, a.now) other.now.content.terms))) }
{
    for (ks, b) in other.terms() {
        gather_union(into, set, ls, ks, product_of(factor, a, &b))?;
    }
    Ok(())
}

impl Table {
    /// Adds a factor times the product of two tables: that of each pair of their terms. All
    /// products are gathered first and added at once, so where memory is refused, none was added.
    pub fn multiply_into(
        &self,
        other: &Table,
        factor: i128,
        into: &mut Table,
    ) -> Result<(), NoMemory>
        requires width { self.now.content.width ≡ into.old.content.width }
        requires other_width { other.now.content.width ≡ into.old.content.width }
        requires short { All (λ t. length t.0 ≤ 1024) self.now.content.terms }
        requires other_short { All (λ t. length t.0 ≤ 1024) other.now.content.terms }
        requires small { terms_total into.old.content.terms + unsigned_abs factor
            * (terms_total self.now.content.terms * terms_total other.now.content.terms)
            ≤ 2 ^ 124 }
        ensures multiplied { OnOk result (into.new.content ≡ with_all into.old.content
            (pair_products factor (pairs_of self.now.content.terms other.now.content.terms))) }
        ensures prefix { OnErr result (HasPrefix into.old.content into.new.content factor
            (pairs_of self.now.content.terms other.now.content.terms)) }
        ensures unchanged { OnErr result (into.new ≡ into.old) }
    {
        let mut products = GatheredTerms::as_wide_as(into.alloc, into);
        let mut set = Vec::new(into.alloc);
        for (ls, a) in self.terms() {
            gather_row(&mut products, &mut set, ls, &a, other, &factor)?;
        }
        into.add_gathered(products)
    }
}
