//! Two runs as one.
//!
//! The lesser of the two first sets goes first, and equal sets are summed. The terms are copied, so
//! both runs stay as they are.
//!
//! No run of the program comes here: its tables are made at once, of all that was gathered.
ghost use Rattle.std.specs.Prelude.{◌≡◌, ◌≢◌, ◌≤◌, ◌^◌, ◌++◌, [], pos, unsigned_abs, All, IfOk, OnOk};
ghost use Rattle.term_table.specs.Terms.{in_front, Ascends};
ghost use Rattle.term_table.specs.Runs.{merged};

use crate::run::Run;
use crate::run_term::RunTerm;
use base::NoMemory;
use std::alloc::Global;
use std::cmp::Ordering;

/// Appends the set of a term with a coefficient, unless that is 0.
fn append(
    alloc: Global,
    terms: &mut Vec<RunTerm>,
    term: &RunTerm,
    coefficient: i128,
) -> Result<(), NoMemory>
    ensures { OnOk result
        (terms.new.items ≡ terms.old.items ++ in_front term.now.0 coefficient []) }
{
    if coefficient == 0 {
        return Ok(());
    }
    let copy = term.with_weight(alloc, coefficient)?;
    terms.push(copy)?;
    Ok(())
}

/// Appends copies of terms.
fn append_all(alloc: Global, terms: &mut Vec<RunTerm>, rest: &[RunTerm]) -> Result<(), NoMemory>
    ensures { OnOk result (terms.new.items ≡ terms.old.items ++ rest.now) }
{
    for term in rest {
        let copy = term.with_weight(alloc, term.weight())?;
        terms.push(copy)?;
    }
    Ok(())
}

/// The merging of two runs.
pub fn merge(alloc: Global, older: &[RunTerm], newer: &[RunTerm]) -> Result<Run, NoMemory>
    requires older { Ascends older.now }
    requires newer { Ascends newer.now }
    requires older_some { All (λ t. t.1 ≢ pos 0) older.now }
    requires newer_some { All (λ t. t.1 ≢ pos 0) newer.now }
    requires older_small { All (λ t. unsigned_abs t.1 ≤ 2 ^ 125) older.now }
    requires newer_small { All (λ t. unsigned_abs t.1 ≤ 2 ^ 125) newer.now }
    ensures { IfOk result (λ r. r ≡ merged older.now newer.now) }
{
    let mut terms = Vec::with_capacity(alloc, older.len().saturating_add(newer.len()))?;
    let mut i = 0;
    let mut j = 0;
    while i < older.len() && j < newer.len() {
        let left = &older[i];
        let right = &newer[j];
        match left.cmp_sets(right) {
            Ordering::Less => {
                append(alloc, &mut terms, left, left.weight())?;
                i += 1;
            }
            Ordering::Equal => {
                append(alloc, &mut terms, left, left.weight() + right.weight())?;
                i += 1;
                j += 1;
            }
            Ordering::Greater => {
                append(alloc, &mut terms, right, right.weight())?;
                j += 1;
            }
        }
    }
    append_all(alloc, &mut terms, &older[i..])?;
    append_all(alloc, &mut terms, &newer[j..])?;
    Ok(Run { terms })
}
