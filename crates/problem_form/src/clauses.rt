//! Clauses in normal form.
ghost use Rattle.std.specs.Prelude.{◌≡◌, ◌++◌, ◌∷◌, [], None, pos, OnOk, OnErr};
ghost use Rattle.problem_form.specs.NormalForm.{clause_constant, is_plain_cost, kept_clause};

use crate::clause_list::ClauseList;
use base::NoMemory;
use literal_lists::{Literal, ShortSet, clashes, make_set};

/// What a clause adds to the constant: the weight of a soft one without literals.
pub(crate) fn weight_constant(weight: Option<u64>, literals: &[Literal]) -> u64
    ensures { pos result
        ≡ clause_constant (record { literals = literals.now; weight = weight }) }
{
    match weight {
        Some(weight) if literals.is_empty() => weight,
        _ => 0,
    }
}

/// Whether a soft clause of this weight is no more than a number: it weighs 0, or has no literals.
fn is_number(weight: Option<u64>, literals: &[Literal]) -> bool
    ensures { result ≡ is_plain_cost weight literals.now }
{
    match weight {
        Some(weight) => weight == 0 || literals.is_empty(),
        None => false,
    }
}

/// Appends a clause as written in normal form, where it is kept, and puts its literals in order.
/// Where memory is refused the list stays as it was.
#[inline(always)]
pub(crate) fn keep_clause(
    clauses: &mut ClauseList,
    literals: &mut Vec<Literal>,
    weight: Option<u64>,
) -> Result<(), NoMemory>
    ensures kept { OnOk result (clauses.new ≡ clauses.old
        ++ kept_clause (record { literals = literals.old.items; weight = weight })) }
    ensures unchanged { OnErr result (clauses.new ≡ clauses.old) }
{
    make_set(literals);
    if clashes(literals) {
        return Ok(());
    }
    if is_number(weight, literals) {
        return Ok(());
    }
    clauses.push(literals, weight)
}

/// Appends the hard clause of one literal. Where memory is refused the list stays as it was.
#[inline(always)]
pub(crate) fn keep_literal(clauses: &mut ClauseList, literal: Literal) -> Result<(), NoMemory>
    ensures kept { OnOk result (clauses.new ≡ clauses.old
        ++ kept_clause (record { literals = literal ∷ []; weight = None })) }
    ensures unchanged { OnErr result (clauses.new ≡ clauses.old) }
{
    clauses.push_hard(&[literal])
}

/// Appends the hard clause of two literals in normal form, where it is kept. Where memory is refused
/// the list stays as it was.
#[inline(always)]
pub(crate) fn keep_pair(
    clauses: &mut ClauseList,
    first: Literal,
    second: Literal,
) -> Result<(), NoMemory>
    ensures kept { OnOk result (clauses.new ≡ clauses.old
        ++ kept_clause (record { literals = first ∷ second ∷ []; weight = None })) }
    ensures unchanged { OnErr result (clauses.new ≡ clauses.old) }
{
    match ShortSet::of(first, second) {
        Some(set) => clauses.push_hard(set.as_slice()),
        None => Ok(()),
    }
}
