//! Tables, multiplied out.
//!
//! A term with k complements gives a term for each part of their variables, 2^k in all. They are
//! made one after another in one list of literals, and gathered.
ghost use Rattle.std.specs.Prelude.{◌≡◌, ◌+◌, ◌*◌, ◌<◌, ◌≤◌, ◌^◌, Bool, true, List, get_or, length, take, neg_ℤ, unsigned_abs, All, IfOk, OnOk};
ghost use Rattle.term_table.specs.Terms.{terms_cost, terms_total};
ghost use Rattle.term_table.specs.Tables.{kept_at_once, with_more, AreAdditions};
ghost use Rattle.term_table.specs.MultipliedOut.{complements, plain, plain_terms, ArePlain};
ghost use Rattle.normal_form.specs.Behind.{behind};
ghost use Rattle.normal_form.specs.Multilinear.{expanded, IsMultilinear};

use crate::plain::gather_plain_terms;
use base::NoMemory;
use literal_lists::Literal;
use std::alloc::Global;
use term_table::{GatheredTerms, Table};

/// The variable of a literal, as a literal.
pub(crate) fn plain(literal: &Literal) -> Literal
    ensures { result ≡ plain literal.now }
{
    Literal {
        variable: literal.variable,
        negated: false,
    }
}

pub(crate) fn negated(coefficient: &i128) -> i128
    requires { unsigned_abs coefficient.now ≤ 2 ^ 124 }
    ensures { result ≡ neg_ℤ coefficient.now }
{
    -*coefficient
}

/// How many literals stand before the first complement.
pub(crate) fn first_complement(literals: &[Literal]) -> usize
    ensures before { ArePlain (take result literals.now) }
    ensures at { (l : Literal) → result < length literals.now
        → (get_or literals.now result l).negated ≡ true }
    ensures within { result ≤ length literals.now }
{
    for (place, literal) in literals.iter().enumerate() {
        if literal.negated {
            return place;
        }
    }
    literals.len()
}

/// Adds what a term is multiplied out to whose first literals, without complements, stand in the
/// list already. The list ends as it began.
pub fn add_plain_terms(
    terms: &mut GatheredTerms,
    list: &mut Vec<Literal>,
    literals: &[Literal],
    coefficient: &i128,
) -> Result<(), NoMemory>
    requires { AreAdditions (with_more terms.old
        (behind list.old.items (plain_terms literals.now coefficient.now))) }
    ensures added { OnOk result (terms.new ≡ with_more terms.old
        (behind list.old.items (plain_terms literals.now coefficient.now))) }
    ensures kept { OnOk result (list.new.items ≡ list.old.items) }
{
    gather_plain_terms(terms, list, literals, coefficient)
}

/// The table without complements that costs the same: each is replaced by 1 less its variable, and
/// everything is multiplied out.
pub fn expand(alloc: Global, table: &Table) -> Result<Table, NoMemory>
    requires few { All (λ t. complements t.0 ≤ 8) table.now.content.terms }
    requires small { (terms_total table.now.content.terms + 1) * 2 ^ 8 ≤ 2 ^ 124 }
    ensures image { IfOk result (λ made. made ≡ kept_at_once (expanded table.now.content)) }
    ensures cost { IfOk result (λ made. (x : List Bool) →
        terms_cost x made.content.terms ≡ terms_cost x table.now.content.terms) }
    ensures plain { IfOk result (λ made. IsMultilinear made.content) }
{
    let mut terms = GatheredTerms::as_wide_as(alloc, table);
    let mut list = Vec::new(alloc);
    for (literals, coefficient) in table.terms() {
        add_plain_terms(&mut terms, &mut list, literals, &coefficient)?;
    }
    Ok(terms.into_table())
}
