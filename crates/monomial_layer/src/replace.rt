//! Quadratic terms in place of terms of degree 3 or more, wherever they are added.
//!
//! For a negative coefficient: D. Freedman and P. Drineas, Energy minimization via graph cuts:
//! settling what is possible, 2005. For a positive one: H. Ishikawa, Transformation of general
//! binary MRF minimization to the first-order case, 2011.
//!
//! No run of the program comes here: quadratization makes the same form at once.
ghost use Rattle.std.specs.Prelude.{◌≡◌, ◌+◌, ◌*◌, ◌<◌, ◌≤◌, ◌^◌, IfOk, OnOk, length};
ghost use Rattle.term_table.specs.Terms.{terms_total};
ghost use Rattle.term_table.specs.Tables.{kept_at_once, table_size, IsTable};
ghost use Rattle.term_table.specs.Rooms.{Fills, HasRoomFor};
ghost use Rattle.monomial_layer.specs.Monomials.{
  each_with,
  image,
  negative_terms,
  new_nodes,
  new_terms,
  node_term,
  node_terms,
  nodes_for,
  pair_terms,
  positive_terms,
  with_each,
};

use crate::nodes::{
    all_new_nodes, negative_weight, new_nodes, node, node_weight, nodes_for, pair_weight,
};
use base::{Costed, NoMemory};
use literal_lists::Literal;
use std::alloc::Global;
use term_table::{Gather, GatheredTerms, Table};

/// Adds each literal times another.
fn add_each_with<G: Gather>(
    terms: &mut G,
    literals: &[Literal],
    last: Literal,
    coefficient: i128,
) -> Result<(), NoMemory>
    requires { HasRoomFor G.takes terms.old (each_with literals.now last coefficient) }
    ensures { OnOk result (Fills G.takes G.holds terms.old terms.new
        (each_with literals.now last coefficient)) }
{
    for literal in literals {
        terms.gather(&[*literal, last], coefficient)?;
    }
    Ok(())
}

/// Adds a literal times each of others.
fn add_with_each<G: Gather>(
    terms: &mut G,
    first: Literal,
    literals: &[Literal],
    coefficient: i128,
) -> Result<(), NoMemory>
    requires { HasRoomFor G.takes terms.old (with_each first coefficient literals.now) }
    ensures { OnOk result (Fills G.takes G.holds terms.old terms.new
        (with_each first coefficient literals.now)) }
{
    for literal in literals {
        terms.gather(&[first, *literal], coefficient)?;
    }
    Ok(())
}

/// Adds the products of all pairs.
fn add_pairs<G: Gather>(
    terms: &mut G,
    literals: &[Literal],
    coefficient: i128,
) -> Result<(), NoMemory>
    requires { HasRoomFor G.takes terms.old (pair_terms literals.now coefficient) }
    ensures { OnOk result (Fills G.takes G.holds terms.old terms.new
        (pair_terms literals.now coefficient)) }
{
    for i in 0..literals.len() {
        add_with_each(terms, literals[i], &literals[i + 1..], coefficient)?;
    }
    Ok(())
}

/// Adds the terms of the new node after so many others.
fn add_node<G: Gather>(
    terms: &mut G,
    literals: &[Literal],
    new_node: Literal,
    place: usize,
    coefficient: i128,
) -> Result<(), NoMemory>
    requires place { place < 2 ^ 32 }
    requires room { HasRoomFor G.takes terms.old
        (node_term literals.now coefficient new_node place) }
    requires small { terms_total (node_term literals.now coefficient new_node place) ≤ 2 ^ 124 }
    ensures { OnOk result (Fills G.takes G.holds terms.old terms.new
        (node_term literals.now coefficient new_node place)) }
{
    let degree = literals.len();
    terms.gather(&[new_node], node_weight(&coefficient, degree, place))?;
    add_each_with(
        terms,
        literals,
        new_node,
        pair_weight(&coefficient, degree, place),
    )
}

/// Adds the terms of all new nodes of a positive term.
fn add_nodes<G: Gather>(
    terms: &mut G,
    literals: &[Literal],
    coefficient: i128,
    next: usize,
) -> Result<(), NoMemory>
    requires narrow { next + nodes_for (length literals.now) ≤ 2 ^ 32 }
    requires room { HasRoomFor G.takes terms.old
        (node_terms literals.now coefficient next (nodes_for (length literals.now))) }
    requires small { terms_total
        (node_terms literals.now coefficient next (nodes_for (length literals.now))) ≤ 2 ^ 124 }
    ensures { OnOk result (Fills G.takes G.holds terms.old terms.new
        (node_terms literals.now coefficient next (nodes_for (length literals.now)))) }
{
    for place in 0..nodes_for(literals.len()) {
        add_node(terms, literals, node(next + place), place, coefficient)?;
    }
    Ok(())
}

/// Adds what stands for a term with a positive coefficient.
fn add_positive<G: Gather>(
    terms: &mut G,
    literals: &[Literal],
    coefficient: i128,
    next: usize,
) -> Result<(), NoMemory>
    requires narrow { next + nodes_for (length literals.now) ≤ 2 ^ 32 }
    requires room { HasRoomFor G.takes terms.old (positive_terms literals.now coefficient next) }
    requires small { terms_total (positive_terms literals.now coefficient next) ≤ 2 ^ 124 }
    ensures { OnOk result (Fills G.takes G.holds terms.old terms.new
        (positive_terms literals.now coefficient next)) }
{
    add_pairs(terms, literals, coefficient)?;
    add_nodes(terms, literals, coefficient, next)
}

/// Adds what stands for a term with a negative coefficient.
fn add_negative<G: Gather>(
    terms: &mut G,
    literals: &[Literal],
    coefficient: i128,
    next: usize,
) -> Result<(), NoMemory>
    requires some { 1 ≤ length literals.now }
    requires room { HasRoomFor G.takes terms.old (negative_terms literals.now coefficient next) }
    requires small { terms_total (negative_terms literals.now coefficient next) ≤ 2 ^ 124 }
    ensures { OnOk result (Fills G.takes G.holds terms.old terms.new
        (negative_terms literals.now coefficient next)) }
{
    let new_node = node(next);
    terms.gather(&[new_node], negative_weight(&coefficient, literals.len()))?;
    add_each_with(terms, literals, new_node, coefficient)
}

/// Adds what stands for a term, whose new nodes are numbered from `next` on.
fn add_replaced<G: Gather>(
    terms: &mut G,
    literals: &[Literal],
    coefficient: i128,
    next: usize,
) -> Result<(), NoMemory>
    requires narrow { next + new_nodes (literals.now, coefficient) ≤ 2 ^ 32 }
    requires room { HasRoomFor G.takes terms.old (new_terms (literals.now, coefficient) next) }
    requires small { terms_total (new_terms (literals.now, coefficient) next) ≤ 2 ^ 124 }
    ensures { OnOk result (Fills G.takes G.holds terms.old terms.new
        (new_terms (literals.now, coefficient) next)) }
{
    if literals.len() <= 2 {
        terms.gather(literals, coefficient)
    } else if coefficient < 0 {
        add_negative(terms, literals, coefficient, next)
    } else {
        add_positive(terms, literals, coefficient, next)
    }
}

/// The table of what stands for the terms, one after another.
pub fn quadratic_table(alloc: Global, table: &Table) -> Result<Table, NoMemory>
    requires size { table_size table.now.content * 2 ^ 2 ≤ 2 ^ 32 }
    requires total { (terms_total table.now.content.terms + 1) * 2 ^ 24 ≤ 2 ^ 124 }
    ensures made { IfOk result (λ quadratic. quadratic ≡ kept_at_once (image table.now.content)) }

    // What the laws of the layer rest on.
    ensures kept { IsTable table.now.content }
{
    let mut next = table.width();
    let mut quadratic = GatheredTerms::new(alloc, next + all_new_nodes(table));
    for (literals, coefficient) in table.terms() {
        add_replaced(&mut quadratic, literals, coefficient, next)?;
        next += new_nodes(literals.len(), coefficient);
    }
    Ok(quadratic.into_table())
}
