//! Terms of three literals or more, each once and with its sum.
//!
//! Additions are sorted by their literals, and neighbours of one set are summed. A sum of 0 is left
//! out. New nodes are numbered in the order of the terms.
ghost use Rattle.std.specs.Prelude.{◌≡◌, ◌+◌, ◌≤◌, ◌<◌, ◌^◌, ◌∷◌, [], IfOk, IsTrue, All, length, map, pos, Some, slice_get};
ghost use Rattle.std.specs.List.{slice_index_or};
ghost use Rattle.term_table.specs.Tables.{AreAdditions};
ghost use Rattle.quadratization.specs.Apart.{table_of};
ghost use Rattle.quadratization.specs.TermPlaces.{places_of};
ghost use Rattle.quadratization.specs.TermPlaces.{term_places};
ghost use Rattle.quadratization.specs.Long.{terms_of, first_nodes, node_count, node_at, product_term, AreLong, IsPlaceOf};
ghost use Rattle.quadratization.specs.Occurrences.{has_variable, from_variable};

use crate::additions::ordered_additions;
use crate::sums::summed_additions;
use base::NoMemory;
use literal_lists::{Literal, Literals};
use monomial_layer::new_nodes;
use problem_form::ProductList;
use std::alloc::Global;
use std::marker::Model;

/// A long term: its literals, its coefficient and the number of its first new node.
#[derive(Drop)]
pub struct LongTerm<'a> {
    pub literals: Literals<'a>,
    pub coefficient: i128,
    pub first_node: u32,
}

/// A literal in a long term, with those after it. Contracts see the place.
#[derive(Drop)]
pub struct PlaceRef<'a> {
    pub literal: Literal,
    pub later: Literals<'a>,
    pub degree: usize,
    pub coefficient: i128,
    pub first_node: u32,
}

impl<'a> Model for PlaceRef<'a> {
    ghost use Rattle.quadratization.specs.TermPlaces.{Place};

    ghost Value = { Place };

    ghost view = { λ a. record {
      literal = a.literal;
      later = a.later;
      degree = a.degree;
      coefficient = a.coefficient;
      first_node = a.first_node;
    } };
}

/// Terms of three literals or more over the variables below a width, in the order of a table, which
/// contracts see with the width.
///
/// None is 0, the sizes of their coefficients sum to at most 2^124, and all nodes have numbers of 32
/// bits.
#[derive(Drop)]
pub struct LongTable {
    width: usize,
    products: ProductList,
    first_nodes: Vec<u32>,
    next: u32,
}

impl Model for LongTable {
    ghost use Rattle.term_table.specs.Tables.{TableContent};
    ghost use Rattle.quadratization.specs.Long.{terms_of, AreNumbered};

    ghost Value = { TableContent };

    ghost view = { λ a. terms_of a.width a.products };

    ghost invariant = { λ a. AreNumbered (terms_of a.width a.products) a.first_nodes.items a.next };
}

/// The literal of a variable, and those after it.
fn from_variable(mut literals: Literals<'_>, variable: u64) -> (Literal, Literals<'_>)
    requires { IsTrue (has_variable variable literals) }
    ensures { from_variable variable literals.entry ≡ result.0 ∷ result.1 }
{
    while let Some(literal) = literals.next() {
        if literal.variable == variable {
            return (literal, literals);
        }
    }
    unreachable!()
}

/// The first new node of each term, numbered after the variables, and the number of the next one.
fn numbered(
    alloc: Global,
    width: usize,
    products: &ProductList,
) -> Result<(Vec<u32>, u32), NoMemory>
    requires { node_count (terms_of width products.now) < 2 ^ 32 }
    ensures firsts { IfOk result (λ numbers.
        numbers.0.items ≡ first_nodes width (map product_term products.now)) }
    ensures next { IfOk result (λ numbers.
        numbers.1 ≡ node_count (terms_of width products.now)) }
{
    let mut first_nodes = Vec::with_capacity(alloc, products.len())?;
    let mut next = width as u32;
    for i in 0..products.len() {
        let product = products.at(i);
        first_nodes.push(next)?;
        next += new_nodes(product.literals.len(), product.coefficient) as u32;
    }
    Ok((first_nodes, next))
}

impl LongTable {
    /// The sums of additions over the variables below a width.
    pub fn of(alloc: Global, width: usize, additions: &ProductList) -> Result<LongTable, NoMemory>
        requires additions { AreAdditions (terms_of width additions.now) }
        requires long { All (λ p. 3 ≤ length p.literals) additions.now }
        requires narrow { node_count (table_of (terms_of width additions.now)) < 2 ^ 32 }
        ensures { IfOk result (λ long. long ≡ table_of (terms_of width additions.now)) }
    {
        let order = ordered_additions(alloc, width, additions)?;
        let products = summed_additions(alloc, additions, &order)?;
        let (first_nodes, next) = numbered(alloc, width, &products)?;
        Ok(LongTable {
            width,
            products,
            first_nodes,
            next,
        })
    }

    /// How many variables there are.
    pub fn width(&self) -> usize
        ensures width { result ≡ self.now.width }

        // What sums rest on.
        ensures kept { AreLong self.now }
    {
        self.width
    }

    /// How many terms there are.
    pub fn len(&self) -> usize
        ensures count { result ≡ length self.now.terms }
        ensures narrow { result < 2 ^ 32 }
    {
        self.first_nodes.len()
    }

    /// How many variables and new nodes there are.
    pub fn node_count(&self) -> u32
        ensures { result ≡ node_count self.now }
    {
        self.next
    }

    /// The term at an index.
    pub fn at(&self, index: usize) -> LongTerm<'_>
        requires { index < length self.now.terms }
        ensures term { slice_get self.now.terms index ≡ Some (result.literals, result.coefficient) }
        ensures node { result.first_node ≡ node_at self.now index }

        // What places rest on.
        ensures kept { AreLong self.now }
    {
        let product = self.products.at(index);
        LongTerm {
            literals: product.literals,
            coefficient: product.coefficient,
            first_node: self.first_nodes[index],
        }
    }

    /// The place of a variable in the term at an index.
    pub fn place(&self, variable: u64, index: usize) -> PlaceRef<'_>
        requires within { index < length self.now.terms }
        requires there { IsTrue
            (has_variable variable (slice_index_or self.now.terms index ([], pos 0)).0) }
        ensures place { places_of variable
            (term_places (slice_index_or self.now.terms index ([], pos 0)) (node_at self.now index))
            ≡ result ∷ [] }
        ensures kept { IsPlaceOf self.now variable result }
    {
        let term = self.at(index);
        let degree = term.literals.len();
        let (literal, later) = from_variable(term.literals, variable);
        PlaceRef {
            literal,
            later,
            degree,
            coefficient: term.coefficient,
            first_node: term.first_node,
        }
    }
}
