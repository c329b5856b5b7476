//! What each part of a problem contributes to the sums.
ghost use Rattle.std.specs.Prelude.{◌≡◌, ◌≤◌, ◌^◌, ◌∷◌, [], pos, map, OnOk, unwrap_or};
ghost use Rattle.term_table.specs.Rooms.{Fills, HasRoomFor};
ghost use Rattle.penalty_layer.specs.Penalty.{
  opposite,
  clause_terms,
  contributions,
  node_count,
  Admits,
};
ghost use Rattle.penalty_layer.specs.Squares.{product_term};

use crate::constraints::add_constraints;
use crate::own::{after_first, own_or};
use base::NoMemory;
use literal_lists::{Literal, Literals};
use problem_form::{ClauseList, ClauseRef, Problem, ProductList, ProductRef};
use std::alloc::Global;
use term_table::Gather;

/// Adds a product with its coefficient. Most have one or two literals, which need no list.
#[inline(always)]
fn add_product<T: Gather>(
    terms: &mut T,
    set: &mut Vec<Literal>,
    product: ProductRef<'_>,
) -> Result<(), NoMemory>
    requires { HasRoomFor T.takes terms.old (product_term product ∷ []) }
    ensures { OnOk result (Fills T.takes T.holds terms.old terms.new
        (product_term product.entry ∷ [])) }
{
    let ProductRef {
        mut literals,
        coefficient,
    } = product;
    if literals.len() == 1 {
        let Some(only) = literals.next() else {
            unreachable!();
        };
        return terms.gather(&[only], coefficient);
    }
    if literals.len() == 2 {
        let (Some(first), Some(second)) = (literals.next(), literals.next()) else {
            unreachable!();
        };
        return terms.gather(&[first, second], coefficient);
    }
    literals.copy_into(set)?;
    terms.gather(set, coefficient)
}

/// Adds the products with their coefficients.
fn add_products<T: Gather>(
    alloc: Global,
    terms: &mut T,
    products: &ProductList,
) -> Result<(), NoMemory>
    requires { HasRoomFor T.takes terms.old (map product_term products.now) }
    ensures { OnOk result (Fills T.takes T.holds terms.old terms.new
        (map product_term products.now)) }
{
    let mut set = Vec::new(alloc);
    for product in products.iter() {
        add_product(terms, &mut set, product)?;
    }
    Ok(())
}

fn opposite(literal: Literal) -> Literal
    ensures { result ≡ opposite literal }
{
    Literal {
        variable: literal.variable,
        negated: !literal.negated,
    }
}

/// Makes a list that of the complements, in its own memory.
fn set_opposites(list: &mut Vec<Literal>, literals: Literals<'_>) -> Result<(), NoMemory>
    ensures { OnOk result (list.new.items ≡ map opposite literals.entry) }
{
    list.clear();
    for literal in literals {
        list.push(opposite(literal))?;
    }
    Ok(())
}

/// The weight of a soft clause, and the penalty for a hard one.
fn weight_or(weight: Option<u64>, penalty: u128) -> i128
    requires { penalty ≤ 2 ^ 100 }
    ensures { result ≡ pos (unwrap_or weight penalty) }
{
    match weight {
        Some(weight) => i128::from(weight),
        None => penalty as i128,
    }
}

/// Adds the products of the clauses, which are the complements of their literals: a soft clause
/// with its weight, and a hard one with its penalty, its own or that of the whole.
fn add_clauses<T: Gather>(
    alloc: Global,
    terms: &mut T,
    clauses: &ClauseList,
    penalty: u128,
    own: &[u64],
) -> Result<(), NoMemory>
    requires room { HasRoomFor T.takes terms.old (clause_terms penalty own.now clauses.now) }
    requires penalty { penalty ≤ 2 ^ 100 }
    ensures { OnOk result (Fills T.takes T.holds terms.old terms.new
        (clause_terms penalty own.now clauses.now)) }
{
    let mut opposites = Vec::new(alloc);
    let mut left = own;
    for clause in clauses.iter() {
        let ClauseRef { literals, weight } = clause;
        set_opposites(&mut opposites, literals)?;
        terms.gather(&opposites, weight_or(weight, own_or(left, penalty)))?;
        left = after_first(left);
    }
    Ok(())
}

/// Adds all that a problem contributes: its constant, its products, its clauses, and the squares of
/// its constraints, whose slack bits are the nodes after the variables.
pub fn add_contributions<T: Gather>(
    alloc: Global,
    terms: &mut T,
    problem: &Problem,
) -> Result<(), NoMemory>
    requires admits { Admits problem.now }
    requires room { HasRoomFor T.takes terms.old (contributions problem.now) }
    requires empty { T.holds terms.old (record { width = node_count problem.now; terms = [] }) }
    ensures { OnOk result (T.holds terms.new
        (record { width = node_count problem.now; terms = contributions problem.now })) }
{
    let penalty = problem.penalty();
    let first = problem.variables as usize;
    terms.gather(&[], problem.constant)?;
    add_products(alloc, terms, &problem.objective)?;
    let own = &problem.penalties;
    add_clauses(
        alloc,
        terms,
        &problem.clauses,
        penalty,
        own.clauses.as_slice(),
    )?;
    add_constraints(
        alloc,
        terms,
        penalty,
        own.constraints.as_slice(),
        first,
        &problem.constraints,
    )
}
