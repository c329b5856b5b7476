//! The clauses of a conflict.
ghost use Rattle.std.specs.Prelude.{◌≡◌, ◌<◌, ◌∷◌, [], not, length, map, OnOk, true};
ghost use Rattle.std.specs.List.{filter, list_all};
ghost use Rattle.conflict_clauses.specs.Conflicts.{is_needed, pairs_of};
ghost use Rattle.conflict_clauses.specs.Steps.{AreWithin, alone, with_hard};
ghost use Rattle.problem_form.specs.Wanted.{is_single, wanted};

use base::NoMemory;
use problem_form::{Literal, Problem, ProductRef, Products};
use std::alloc::Global;

/// The literal that a product of one, with a coefficient, is wanted for.
#[tactic(auto, using(crate::proofs::Missing::wanted_negative, crate::proofs::Missing::wanted_other))]
fn wanted_literal(coefficient: i128, literal: Literal) -> Literal
    ensures { result ∷ []
        ≡ wanted true (record { literals = literal ∷ []; coefficient = coefficient }) }
{
    if coefficient < 0 {
        Literal {
            variable: literal.variable,
            negated: !literal.negated,
        }
    } else {
        literal
    }
}

/// The literal that a product of one is wanted for.
fn wanted_for(product: ProductRef<'_>) -> Literal
    requires { length product.literals ≡ 1 }
    ensures { result ∷ [] ≡ wanted true product.entry }
{
    let ProductRef {
        mut literals,
        coefficient,
    } = product;
    match literals.next() {
        Some(literal) => wanted_literal(coefficient, literal),
        None => unreachable!(),
    }
}

/// Literals that products are wanted for: of those that may not miss at all, and of the others.
#[derive(Drop)]
pub(crate) struct Wanted {
    pub(crate) needed: Vec<Literal>,
    pub(crate) others: Vec<Literal>,
}

impl Wanted {
    /// No literals. It takes no memory.
    pub(crate) fn new(alloc: Global) -> Wanted {
        Wanted {
            needed: Vec::new(alloc),
            others: Vec::new(alloc),
        }
    }
}

/// Puts the literals that products of one literal are wanted for into the lists, in place of what
/// they have.
pub(crate) fn take_wanted(
    lists: &mut Wanted,
    products: Products<'_>,
    room: u128,
) -> Result<(), NoMemory>
    requires { list_all is_single products ≡ true }
    ensures needed { OnOk result (map alone lists.new.needed.items
        ≡ map (wanted true) (filter (is_needed room) products.entry)) }
    ensures others { OnOk result (map alone lists.new.others.items
        ≡ map (wanted true) (filter (λ t. not (is_needed room t)) products.entry)) }
{
    lists.needed.clear();
    lists.others.clear();
    for product in products {
        let is_needed = room < product.coefficient.unsigned_abs();
        let literal = wanted_for(product);
        if is_needed {
            lists.needed.push(literal)?;
        } else {
            lists.others.push(literal)?;
        }
    }
    Ok(())
}

/// Adds a hard clause of one literal.
fn add_alone(problem: &mut Problem, literal: Literal) -> Result<(), NoMemory>
    requires { literal.variable < problem.old.variables }
    ensures { OnOk result (problem.new ≡ with_hard problem.old ((literal ∷ []) ∷ [])) }
{
    problem.add_literal(literal)
}

/// Adds a hard clause of two literals.
#[inline(always)]
fn add_pair(problem: &mut Problem, first: Literal, second: Literal) -> Result<(), NoMemory>
    requires first { first.variable < problem.old.variables }
    requires second { second.variable < problem.old.variables }
    ensures { OnOk result (problem.new ≡ with_hard problem.old ((first ∷ second ∷ []) ∷ [])) }
{
    problem.add_pair(first, second)
}

/// Adds a hard clause of each literal.
pub(crate) fn add_each(problem: &mut Problem, literals: &[Literal]) -> Result<(), NoMemory>
    requires { AreWithin problem.old.variables literals.now }
    ensures { OnOk result (problem.new ≡ with_hard problem.old (map alone literals.now)) }
{
    for literal in literals {
        add_alone(problem, *literal)?;
    }
    Ok(())
}

/// Adds a hard clause of a literal with each of others.
fn add_pairs_with(problem: &mut Problem, first: Literal, others: &[Literal]) -> Result<(), NoMemory>
    requires first { first.variable < problem.old.variables }
    requires others { AreWithin problem.old.variables others.now }
    ensures { OnOk result (problem.new
        ≡ with_hard problem.old (map (λ ls. first ∷ ls) (map alone others.now))) }
{
    for second in others {
        add_pair(problem, first, *second)?;
    }
    Ok(())
}

/// Adds a hard clause of each two literals.
pub(crate) fn add_pairs(problem: &mut Problem, literals: &[Literal]) -> Result<(), NoMemory>
    requires { AreWithin problem.old.variables literals.now }
    ensures { OnOk result (problem.new
        ≡ with_hard problem.old (pairs_of (map alone literals.now))) }
{
    for i in 0..literals.len() {
        add_pairs_with(problem, literals[i], &literals[i + 1..])?;
    }
    Ok(())
}
