//! Literals, and parts of problems, tables and states that the tests are given.
ghost use Rattle.std.specs.Prelude.{◌≡◌, ◌↔◌, ◌+◌, ◌<◌, ◌≤◌, ◌^◌, All, IsTrue, IfOk, OnOk, length};
ghost use Rattle.problem_form.specs.Problems.{problem_total};
ghost use Rattle.term_table.specs.Terms.{terms_total, terms_size};

use base::NoMemory;
use literal_lists::Literal;
use problem_form::Problem;
use std::alloc::Global;
use term_table::{Table, Terms, is_set};

/// Variable 0.
pub const A: Literal = Literal {
    variable: 0,
    negated: false,
};

/// The complement of variable 0.
pub const NOT_A: Literal = Literal {
    variable: 0,
    negated: true,
};

/// Variable 1.
pub const B: Literal = Literal {
    variable: 1,
    negated: false,
};

/// The complement of variable 1.
pub const NOT_B: Literal = Literal {
    variable: 1,
    negated: true,
};

/// Variable 2.
pub const C: Literal = Literal {
    variable: 2,
    negated: false,
};

/// The complement of variable 2.
pub const NOT_C: Literal = Literal {
    variable: 2,
    negated: true,
};

/// Variable 3.
pub const D: Literal = Literal {
    variable: 3,
    negated: false,
};

/// Variable 4.
pub const E: Literal = Literal {
    variable: 4,
    negated: false,
};

// ---- problems

pub fn are_within(literals: &[Literal], variables: u64) -> bool
    ensures { IsTrue result ↔ All (λ l. l.variable < variables) literals.now }
{
    literals.iter().all(|literal| literal.variable < variables)
}

/// Adds a clause, where its variables are those of the problem.
pub fn add_clause(
    alloc: Global,
    problem: &mut Problem,
    literals: &[Literal],
    weight: Option<u64>,
) -> Result<(), NoMemory>
    requires { problem_total problem.old < 2 ^ 99 }
    ensures width { OnOk result (problem.new.variables ≡ problem.old.variables) }
    ensures total { OnOk result (problem_total problem.new ≤ problem_total problem.old + 2 ^ 64) }
{
    if !are_within(literals, problem.variables) {
        return Ok(());
    }
    let mut written = Vec::from_slice(alloc, literals)?;
    problem.add_literals(&mut written, weight)
}

/// Adds a product, where its variables are those of the problem.
pub fn add_product(
    alloc: Global,
    problem: &mut Problem,
    literals: &[Literal],
    coefficient: i16,
) -> Result<(), NoMemory>
    requires { problem_total problem.old < 2 ^ 99 }
    ensures same { OnOk result (problem.new.variables ≡ problem.old.variables) }
    ensures total { OnOk result (problem_total problem.new ≤ problem_total problem.old + 2 ^ 16) }
{
    if !are_within(literals, problem.variables) {
        return Ok(());
    }
    let mut written = Vec::from_slice(alloc, literals)?;
    problem.add_term(&mut written, i128::from(coefficient))
}

// ---- tables

/// Adds a term, where it is a set of at most five literals and its coefficient is small.
pub fn add_term(
    table: &mut Table,
    width: usize,
    literals: &[Literal],
    coefficient: i128,
) -> Result<(), NoMemory>
    requires width { table.old.content.width ≡ width }
    requires total { terms_total table.old.content.terms ≤ 2 ^ 40 }
    ensures width { OnOk result (table.new.content.width ≡ width) }
    ensures total { OnOk result
        (terms_total table.new.content.terms ≤ terms_total table.old.content.terms + 1000) }
    ensures size { OnOk result
        (terms_size table.new.content.terms ≤ terms_size table.old.content.terms + 25) }
{
    if literals.len() > 5 || coefficient.unsigned_abs() > 1000 || !is_set(literals, width) {
        return Ok(());
    }
    table.add(literals, coefficient)
}

/// Adds terms, one after another.
pub fn add_terms(
    table: &mut Table,
    width: usize,
    terms: &[(&[Literal], i128)],
) -> Result<(), NoMemory>
    requires few { length terms.now < 100 }
    requires width { table.old.content.width ≡ width }
    requires total { terms_total table.old.content.terms ≤ 100000 }
    ensures width { OnOk result (table.new.content.width ≡ width) }
    ensures total { OnOk result
        (terms_total table.new.content.terms ≤ terms_total table.old.content.terms + 100000) }
    ensures size { OnOk result
        (terms_size table.new.content.terms ≤ terms_size table.old.content.terms + 2500) }
{
    for (literals, coefficient) in terms {
        add_term(table, width, literals, *coefficient)?;
    }
    Ok(())
}

/// A table of these terms, which is small.
pub fn table_of(
    alloc: Global,
    width: usize,
    terms: &[(&[Literal], i128)],
) -> Result<Table, NoMemory>
    requires { length terms.now < 100 }
    ensures width { IfOk result (λ t. t.content.width ≡ width) }
    ensures total { IfOk result (λ t. terms_total t.content.terms ≤ 100000) }
    ensures size { IfOk result (λ t. terms_size t.content.terms ≤ 2500) }
{
    let mut table = Table::new(alloc, width);
    add_terms(&mut table, width, terms)?;
    Ok(table)
}

/// Whether these are all terms that are left, in order.
pub fn are_terms(mut terms: Terms<'_>, rows: &[(&[Literal], i128)]) -> bool {
    for (literals, coefficient) in rows {
        match terms.next() {
            Some((found, sum)) if found == *literals && sum == *coefficient => {}
            _ => return false,
        }
    }
    terms.next().is_none()
}

// ---- states

/// The lowest bits of a number, as a state of so many nodes.
pub fn state(alloc: Global, width: usize, number: u64) -> Result<Vec<bool>, NoMemory>
    ensures { IfOk result (λ y. length y.items ≡ width) }
{
    let mut bits = Vec::new(alloc);
    let mut rest = number;
    for _ in 0..width {
        bits.push(rest % 2 == 1)?;
        rest /= 2;
    }
    Ok(bits)
}
