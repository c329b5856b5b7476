//! The pairs of a run.
//!
//! A table that is too wide for codes of 32 bits has its pairs found as they are defined: the first
//! pair of all, its node in all terms that have both literals, and so on. Each turn then goes over
//! all terms of degree 3 or more.
//!
//! They are for tables of 2^31 nodes or more, which no run of the program has.
ghost use Rattle.std.specs.Prelude.{◌≡◌, ◌+◌, ◌<◌, ◌≤◌, ◌^◌, ◌++◌, ◌∷◌, ◌&&◌, [], true, All, IfOk, OnOk, Some, unsigned_abs, length, map};
ghost use Rattle.std.specs.List.{filter};
ghost use Rattle.term_table.specs.Terms.{terms_total, with_additions, IsTermSet};
ghost use Rattle.term_table.specs.Tables.{kept_at_once, with_more, IsTable};
ghost use Rattle.rosenberg_layer.specs.Rosenberg.{front_pair, has_literal, is_long, next_before, node, pairs_of, run, without};
ghost use Rattle.rosenberg_layer.specs.LongParts.{after_turn, long_part, term_after};

use crate::gather::node;
use crate::run::{Substitutions, long_terms, run_of_long};
use base::NoMemory;
use literal_lists::Literal;
use std::alloc::Global;
use term_table::{GatheredTerms, Table};

/// How many nodes have codes of 32 bits.
const NODES: usize = 1 << 31;

/// How many terms have numbers of 32 bits.
const TERMS: usize = (1 << 32) - 1;

/// Whether a literal is in a set.
fn has_literal(literals: &[Literal], literal: Literal) -> bool
    ensures { result ≡ has_literal literal literals.now }
{
    literals.iter().any(|other| literal == *other)
}

/// Appends a literal to a set, unless it is the one that is left out.
fn push_other(left: &mut Vec<Literal>, other: Literal, literal: Literal) -> Result<(), NoMemory>
    ensures { OnOk result (left.new.items ≡ left.old.items ++ without literal (other ∷ [])) }
{
    if literal != other {
        left.push(other)?;
    }
    Ok(())
}

/// A set without a literal.
fn without(alloc: Global, literals: &[Literal], literal: Literal) -> Result<Vec<Literal>, NoMemory>
    ensures { IfOk result (λ left. left.items ≡ without literal literals.now) }
{
    let mut left = Vec::new(alloc);
    for other in literals {
        push_other(&mut left, *other, literal)?;
    }
    Ok(left)
}

/// A set with a node in the place of a pair.
fn with_node(
    alloc: Global,
    literals: &[Literal],
    pair: (Literal, Literal),
    node: Literal,
) -> Result<Vec<Literal>, NoMemory>
    ensures { IfOk result (λ set.
        set.items ≡ without pair.0 (without pair.1 literals.now) ++ node ∷ []) }
{
    let one = without(alloc, literals, pair.1)?;
    let mut set = without(alloc, &one, pair.0)?;
    set.push(node)?;
    Ok(set)
}

/// Gathers a term of degree 3 or more, and no other.
fn gather_long(
    terms: &mut GatheredTerms,
    literals: &[Literal],
    coefficient: i128,
) -> Result<(), NoMemory>
    requires set { IsTermSet terms.old.width literals.now }
    requires small { terms_total terms.old.terms + unsigned_abs coefficient ≤ 2 ^ 124 }
    ensures { OnOk result (terms.new
        ≡ with_more terms.old (filter is_long ((literals.now, coefficient) ∷ []))) }
{
    if literals.len() >= 3 {
        terms.add(literals, coefficient)?;
    }
    Ok(())
}

/// Gathers what becomes of a term where a node stands for a pair, unless that is of degree 2 or less.
fn gather_after(
    alloc: Global,
    terms: &mut GatheredTerms,
    literals: &[Literal],
    coefficient: i128,
    pair: Option<(Literal, Literal)>,
    node: Literal,
) -> Result<(), NoMemory>
    requires set { IsTermSet terms.old.width (term_after pair node (literals.now, coefficient)).0 }
    requires small { terms_total terms.old.terms + unsigned_abs coefficient ≤ 2 ^ 124 }
    ensures { OnOk result (terms.new ≡ with_more terms.old
        (filter is_long (term_after pair node (literals.now, coefficient) ∷ []))) }
{
    if literals.len() < 3 {
        return Ok(());
    }
    if let Some(pair) = pair {
        if has_literal(literals, pair.0) && has_literal(literals, pair.1) {
            let set = with_node(alloc, literals, pair, node)?;
            return gather_long(terms, &set, coefficient);
        }
    }
    gather_long(terms, literals, coefficient)
}

/// The terms of degree 3 or more of a table, of a width, once a node stands for a pair.
fn after(
    alloc: Global,
    table: &Table,
    width: usize,
    pair: Option<(Literal, Literal)>,
    node: Literal,
) -> Result<Table, NoMemory>
    requires { IsTable table.now.content
        → All (λ t. IsTermSet width (term_after pair node t).0) table.now.content.terms }
    ensures after { IfOk result (λ next. next ≡ kept_at_once (record {
      width = width;
      terms = with_additions [] (filter is_long (map (term_after pair node) table.now.content.terms));
    })) }
    ensures kept { IsTable table.now.content }
{
    let mut terms = GatheredTerms::new(alloc, width);
    for (literals, coefficient) in table.terms() {
        gather_after(alloc, &mut terms, literals, coefficient, pair, node)?;
    }
    Ok(terms.into_table())
}

/// The terms of degree 3 or more once a node of the next number stands for their first pair.
fn replaced(
    alloc: Global,
    long: &Table,
    number: usize,
    pair: (Literal, Literal),
) -> Result<Table, NoMemory>
    requires number { number ≡ long.now.content.width }
    requires narrow { number + 1 < 2 ^ 64 }
    requires long { All (λ t. is_long t ≡ true) long.now.content.terms }
    requires first { front_pair long.now.content.terms ≡ Some pair }
    ensures { IfOk result (λ next.
        next ≡ kept_at_once (after_turn (Some pair) long.now.content)) }
{
    after(alloc, long, number + 1, Some(pair), node(number))
}

/// The terms of degree 3 or more of a table.
fn long_part(alloc: Global, table: &Table, width: usize) -> Result<Table, NoMemory>
    requires { width ≡ table.now.content.width }
    ensures { IfOk result (λ long. long ≡ kept_at_once (long_part table.now.content)) }
{
    after(alloc, table, width, None, node(0))
}

/// The first two literals of the first term.
fn front_pair(long: &Table) -> Option<(Literal, Literal)>
    ensures { result ≡ front_pair long.now.content.terms }
{
    let (literals, _) = long.terms().next()?;
    match literals {
        [first, second, ..] => Some((*first, *second)),
        _ => None,
    }
}

/// Replaces the first pair, if there is one.
fn turn(
    alloc: Global,
    long: &mut Table,
    pairs: &mut Vec<(Literal, Literal)>,
    width: usize,
) -> Result<(), NoMemory>
    requires number { width + length pairs.old.items ≡ long.old.content.width }
    requires narrow { (after_turn (front_pair long.old.content.terms) long.old.content).width
        < 2 ^ 64 }
    requires long { All (λ t. is_long t ≡ true) long.old.content.terms }
    ensures next { OnOk result
        (long.new.content ≡ after_turn (front_pair long.old.content.terms) long.old.content) }
    ensures pairs { OnOk result (pairs.new.items
        ≡ pairs.old.items ++ next_before (front_pair long.old.content.terms) []) }
{
    if let Some(pair) = front_pair(long) {
        *long = replaced(alloc, long, width + pairs.len(), pair)?;
        pairs.push(pair)?;
    }
    Ok(())
}

/// The pairs of so many substitutions, whatever the width.
pub fn wide_pairs(
    alloc: Global,
    table: &Table,
    width: usize,
    turns: usize,
) -> Result<Vec<(Literal, Literal)>, NoMemory>
    requires width { width ≡ table.now.content.width }
    requires narrow { (run turns table.now.content).width < 2 ^ 64 }
    ensures { IfOk result (λ pairs. pairs.items ≡ pairs_of turns table.now.content) }
{
    let mut long = long_part(alloc, table, width)?;
    let mut pairs = Vec::new(alloc);
    for _done in 0..turns {
        turn(alloc, &mut long, &mut pairs, width)?;
    }
    Ok(pairs)
}

/// The pairs of so many substitutions.
pub fn pairs_of(
    alloc: Global,
    table: &Table,
    width: usize,
    turns: usize,
) -> Result<Vec<(Literal, Literal)>, NoMemory>
    requires width { width ≡ table.now.content.width }
    requires narrow { (run turns table.now.content).width < 2 ^ 64 }
    ensures { IfOk result (λ pairs. pairs.items ≡ pairs_of turns table.now.content) }
{
    if turns <= NODES && width <= NODES - turns {
        let long = long_terms(alloc, table)?;
        if long.len() <= TERMS {
            let Substitutions { pairs, .. } = run_of_long(alloc, long, width, turns)?;
            return pairs.listed(alloc);
        }
    }
    wide_pairs(alloc, table, width, turns)
}
