//! Rounds, in which parts get penalties by the prices of literals.
ghost use Rattle.std.specs.Prelude.{◌≡◌, ◌+◌, ◌-◌, ◌<◌, ◌≤◌, ◌^◌, ◌/◌, All, IfOk, drop, false, length, true, if◌then◌else◌};
ghost use Rattle.literal_lists.specs.declared.literal.Literal.{Literal};
ghost use Rattle.problem_form.specs.Problems.{IsNormalClause, constraint_total};
ghost use Rattle.problem_form.specs.PartPenalties.{own};
ghost use Rattle.local_penalties.specs.Hurting.{hurts_clause, hurts_constraint, most_missing};
ghost use Rattle.local_penalties.specs.Prices.{charge, clause_charges, constraint_charges};
ghost use Rattle.local_penalties.specs.Rounds.{next_clause, next_clauses, next_constraint, next_constraints};
ghost use Rattle.local_penalties.specs.Tallies.{AreWithin, HavePlaces, MayChange, is_marked, number_of};

use crate::local::{charge_of, clause_penalty, constraint_penalty, most_missing};
use crate::parts::change_hurting;
use crate::tallies::change_each;
use base::NoMemory;
use problem_form::{ClauseList, ClauseRef, ConstraintList, ConstraintRef};
use std::alloc::Global;

/// The penalty of the part at a place: its own where one is listed that is less than that of the
/// whole.
fn own_at(found: &[u64], i: usize, whole: u64) -> u64
    ensures { result ≡ own whole (drop i found.now) }
{
    match found.get(i) {
        Some(penalty) => (*penalty).min(whole),
        None => whole,
    }
}

// ---- what parts get

/// The penalty of a clause after a round.
fn next_clause(numbers: &[u128], clause: ClauseRef<'_>, own: u64, whole: u64) -> u64
    requires { AreWithin (length numbers.now) clause.literals }
    ensures { result ≡ next_clause (number_of numbers.now) whole own clause.entry }
{
    if clause.weight.is_some() || own < whole {
        return own;
    }
    clause_penalty(numbers, clause).min(u128::from(whole)) as u64
}

/// The penalties of the clauses after a round.
pub(crate) fn next_clauses(
    alloc: Global,
    numbers: &[u128],
    clauses: &ClauseList,
    found: &[u64],
    whole: u64,
) -> Result<Vec<u64>, NoMemory>
    requires { All (λ c. AreWithin (length numbers.now) c.literals) clauses.now }
    ensures { IfOk result (λ next. next.items
        ≡ next_clauses (number_of numbers.now) whole found.now clauses.now) }
{
    let mut next = Vec::new(alloc);
    for i in 0..clauses.len() {
        let own = own_at(found, i, whole);
        let clause = clauses.at(i);
        let penalty = next_clause(numbers, clause, own, whole);
        next.push(penalty)?;
    }
    Ok(next)
}

/// The penalty of a constraint after a round. The buffer is used for it.
fn next_constraint(
    buffer: &mut Vec<u128>,
    numbers: &[u128],
    constraint: &ConstraintRef<'_>,
    own: u64,
    whole: u64,
) -> Result<u64, NoMemory>
    requires total { constraint_total constraint.now < 2 ^ 100 }
    requires within { HavePlaces (length numbers.now) constraint.now.products }
    ensures { IfOk result (λ next.
        next ≡ next_constraint (number_of numbers.now) whole own constraint.now) }
{
    if own < whole {
        return Ok(own);
    }
    let penalty = constraint_penalty(buffer, numbers, constraint)?;
    Ok(penalty.min(u128::from(whole)) as u64)
}

/// The penalties of the constraints after a round.
pub(crate) fn next_constraints(
    alloc: Global,
    numbers: &[u128],
    constraints: &ConstraintList,
    found: &[u64],
    whole: u64,
) -> Result<Vec<u64>, NoMemory>
    requires totals { All (λ k. constraint_total k < 2 ^ 100) constraints.now }
    requires within { All (λ k. HavePlaces (length numbers.now) k.products) constraints.now }
    ensures { IfOk result (λ next. next.items
        ≡ next_constraints (number_of numbers.now) whole found.now constraints.now) }
{
    let mut next = Vec::new(alloc);
    let mut buffer = Vec::new(alloc);
    for i in 0..constraints.len() {
        let own = own_at(found, i, whole);
        let constraint = constraints.at(i);
        let penalty = next_constraint(&mut buffer, numbers, &constraint, own, whole)?;
        next.push(penalty)?;
    }
    Ok(next)
}

// ---- what prices become

/// Changes the prices of the literals that hurt a clause, whose penalty was one and is another.
fn enter_clause(numbers: &mut [u128], clause: ClauseRef<'_>, was: u64, is: u64, whole: u64)
    requires normal { IsNormalClause (length numbers.old / 2) clause }
    requires room { (l : Literal) → hurts_clause clause l ≡ true
        → MayChange numbers.old (charge whole is 1) (charge whole was 1) l }
    ensures { (l : Literal) → number_of numbers.new l ≡ (if hurts_clause clause.entry l
        then number_of numbers.old l - charge whole was 1 + charge whole is 1
        else number_of numbers.old l) }
{
    if was != is && clause.weight.is_none() {
        let plus = charge_of(whole, is, 1);
        let minus = charge_of(whole, was, 1);
        change_each(numbers, clause.literals, true, plus, minus);
    }
}

/// Changes the prices of the literals that hurt clauses, whose penalties were some and are others.
pub(crate) fn enter_clauses(
    numbers: &mut [u128],
    clauses: &ClauseList,
    was: &[u64],
    is: &[u64],
    whole: u64,
)
    requires normal { All (IsNormalClause (length numbers.old / 2)) clauses.now }
    requires counted { (l : Literal)
        → clause_charges whole was.now clauses.now l ≤ number_of numbers.old l }
    requires room { (l : Literal)
        → number_of numbers.old l + clause_charges whole is.now clauses.now l < 2 ^ 128 }
    ensures { (l : Literal) → number_of numbers.new l + clause_charges whole was.now clauses.now l
        ≡ number_of numbers.old l + clause_charges whole is.now clauses.now l }
{
    for i in 0..clauses.len() {
        let before = own_at(was, i, whole);
        let after = own_at(is, i, whole);
        let clause = clauses.at(i);
        enter_clause(numbers, clause, before, after, whole);
    }
}

/// Changes the prices of the literals that hurt a constraint, whose penalty was one and is another.
fn enter_constraint(
    numbers: &mut [u128],
    marks: &mut [bool],
    constraint: &ConstraintRef<'_>,
    was: u64,
    is: u64,
    whole: u64,
)
    requires lengths { length marks.old ≡ length numbers.old }
    requires total { constraint_total constraint.now < 2 ^ 100 }
    requires missing { most_missing constraint.now < 2 ^ 32 }
    requires within { HavePlaces (length numbers.old) constraint.now.products }
    requires unmarked { (l : Literal) → is_marked marks.old l ≡ false }
    requires room { (l : Literal) → hurts_constraint constraint.now l ≡ true
        → MayChange numbers.old (charge whole is (most_missing constraint.now))
        (charge whole was (most_missing constraint.now)) l }
    ensures numbers { (l : Literal) → number_of numbers.new l
        ≡ (if hurts_constraint constraint.now l
        then number_of numbers.old l - charge whole was (most_missing constraint.now)
        + charge whole is (most_missing constraint.now)
        else number_of numbers.old l) }
    ensures unmarked { (l : Literal) → is_marked marks.new l ≡ false }
{
    if was != is {
        let missing = most_missing(constraint);
        let plus = charge_of(whole, is, missing);
        let minus = charge_of(whole, was, missing);
        change_hurting(numbers, marks, constraint, plus, minus);
    }
}

/// Changes the prices of the literals that hurt constraints, whose penalties were some and are
/// others.
pub(crate) fn enter_constraints(
    numbers: &mut [u128],
    marks: &mut [bool],
    constraints: &ConstraintList,
    was: &[u64],
    is: &[u64],
    whole: u64,
)
    requires lengths { length marks.old ≡ length numbers.old }
    requires totals { All (λ k. constraint_total k < 2 ^ 100) constraints.now }
    requires missing { All (λ k. most_missing k < 2 ^ 32) constraints.now }
    requires within { All (λ k. HavePlaces (length numbers.old) k.products) constraints.now }
    requires unmarked { (l : Literal) → is_marked marks.old l ≡ false }
    requires counted { (l : Literal)
        → constraint_charges whole was.now constraints.now l ≤ number_of numbers.old l }
    requires room { (l : Literal)
        → number_of numbers.old l + constraint_charges whole is.now constraints.now l < 2 ^ 128 }
    ensures numbers { (l : Literal)
        → number_of numbers.new l + constraint_charges whole was.now constraints.now l
        ≡ number_of numbers.old l + constraint_charges whole is.now constraints.now l }
    ensures unmarked { (l : Literal) → is_marked marks.new l ≡ false }
{
    for i in 0..constraints.len() {
        let before = own_at(was, i, whole);
        let after = own_at(is, i, whole);
        let constraint = constraints.at(i);
        enter_constraint(numbers, marks, &constraint, before, after, whole);
    }
}
