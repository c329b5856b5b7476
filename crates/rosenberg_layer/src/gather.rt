//! The quadratic terms that the run left, wherever they are added.
ghost use Rattle.std.specs.Prelude.{◌≡◌, ◌+◌, ◌<◌, ◌≤◌, ◌^◌, ◌∷◌, [], IfOk, OnOk, length};
ghost use Rattle.std.specs.List.{filter};
ghost use Rattle.term_table.specs.Terms.{with_additions, terms_total};
ghost use Rattle.term_table.specs.Tables.{kept_at_once, AreAdditions};
ghost use Rattle.term_table.specs.Rooms.{Fills, HasRoomFor};
ghost use Rattle.rosenberg_layer.specs.Rosenberg.{node, tie_terms};
ghost use Rattle.rosenberg_layer.specs.Steps.{is_short};
ghost use Rattle.rosenberg_layer.specs.Parts.{ties_of};
ghost use Rattle.rosenberg_layer.specs.Added.{moved_of, gathered_terms};

use crate::pair_list::PairList;
use crate::run::Substitutions;
use base::NoMemory;
use literal_lists::Literal;
use std::alloc::Global;
use term_table::{Gather, GatheredTerms, Table};

/// The node of a number, as a literal.
pub(crate) fn node(number: usize) -> Literal
    ensures { result ≡ node number }
{
    Literal {
        variable: number as u64,
        negated: false,
    }
}

/// Adds a term of degree 2 or less, and no other.
fn add_short<G: Gather>(
    terms: &mut G,
    literals: &[Literal],
    coefficient: i128,
) -> Result<(), NoMemory>
    requires { HasRoomFor G.takes terms.old (filter is_short ((literals.now, coefficient) ∷ [])) }
    ensures { OnOk result (Fills G.takes G.holds terms.old terms.new
        (filter is_short ((literals.now, coefficient) ∷ []))) }
{
    if literals.len() <= 2 {
        terms.gather(literals, coefficient)?;
    }
    Ok(())
}

/// Adds the terms of degree 2 or less.
fn add_low<G: Gather>(terms: &mut G, table: &Table) -> Result<(), NoMemory>
    requires { HasRoomFor G.takes terms.old (filter is_short table.now.content.terms) }
    ensures { OnOk result (Fills G.takes G.holds terms.old terms.new
        (filter is_short table.now.content.terms)) }
{
    for (literals, coefficient) in table.terms() {
        add_short(terms, literals, coefficient)?;
    }
    Ok(())
}

/// Adds what the substitutions added.
fn add_all<G: Gather>(terms: &mut G, low: &[([Literal; 2], i128)]) -> Result<(), NoMemory>
    requires { HasRoomFor G.takes terms.old low.now }
    ensures { OnOk result (Fills G.takes G.holds terms.old terms.new low.now) }
{
    for (set, coefficient) in low {
        terms.gather(set, *coefficient)?;
    }
    Ok(())
}

/// Adds the terms that tie a node to the product of a pair.
fn add_tie<G: Gather>(
    terms: &mut G,
    pair: (Literal, Literal),
    node: Literal,
    weight: u128,
) -> Result<(), NoMemory>
    requires room { HasRoomFor G.takes terms.old (tie_terms pair node weight) }
    requires small { terms_total (tie_terms pair node weight) ≤ 2 ^ 124 }
    ensures { OnOk result (Fills G.takes G.holds terms.old terms.new (tie_terms pair node weight)) }
{
    let weight = weight as i128;
    terms.gather(&[pair.0, pair.1], weight)?;
    terms.gather(&[pair.0, node], -(2 * weight))?;
    terms.gather(&[pair.1, node], -(2 * weight))?;
    terms.gather(&[node], 3 * weight)
}

/// Adds the terms that tie the nodes, from a number on, to the products of their pairs.
fn add_ties<G: Gather>(
    terms: &mut G,
    pairs: &PairList,
    weights: &[u128],
    start: usize,
) -> Result<(), NoMemory>
    requires each { length weights.now ≡ length pairs.now }
    requires narrow { start + length pairs.now < 2 ^ 64 }
    requires room { HasRoomFor G.takes terms.old (ties_of start pairs.now weights.now) }
    requires small { terms_total (ties_of start pairs.now weights.now) ≤ 2 ^ 124 }
    ensures { OnOk result (Fills G.takes G.holds terms.old terms.new
        (ties_of start pairs.now weights.now)) }
{
    for index in 0..pairs.len() {
        add_tie(terms, pairs.at(index), node(start + index), weights[index])?;
    }
    Ok(())
}

/// Adds all that a run of substitutions added, whose new nodes are numbered from a number on.
pub fn add_moved<G: Gather>(
    terms: &mut G,
    made: &Substitutions,
    start: usize,
) -> Result<(), NoMemory>
    requires each { length made.now.weights.items ≡ length made.now.pairs }
    requires narrow { start + length made.now.pairs < 2 ^ 64 }
    requires room { HasRoomFor G.takes terms.old (moved_of start made.now) }
    requires small { terms_total (moved_of start made.now) ≤ 2 ^ 124 }
    ensures { OnOk result (Fills G.takes G.holds terms.old terms.new (moved_of start made.now)) }
{
    add_all(terms, &made.low)?;
    add_ties(terms, &made.pairs, &made.weights, start)
}

/// The table of the terms of degree 2 or less and of what the substitutions added.
pub(crate) fn gathered(
    alloc: Global,
    table: &Table,
    made: &Substitutions,
    start: usize,
    width: usize,
) -> Result<Table, NoMemory>
    requires each { length made.now.weights.items ≡ length made.now.pairs }
    requires narrow { start + length made.now.pairs < 2 ^ 64 }
    requires additions { AreAdditions (record {
      width = width;
      terms = gathered_terms table.now.content start made.now;
    }) }
    ensures { IfOk result (λ quadratic. quadratic ≡ kept_at_once (record {
      width = width;
      terms = with_additions [] (gathered_terms table.now.content start made.now);
    })) }
{
    let mut quadratic = GatheredTerms::new(alloc, width);
    add_low(&mut quadratic, table)?;
    add_moved(&mut quadratic, made, start)?;
    Ok(quadratic.into_table())
}
