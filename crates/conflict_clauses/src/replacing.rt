//! Conflicts and covers of a problem, replaced by clauses.
ghost use Rattle.std.specs.Prelude.{◌≡◌, ◌<◌, ◌≤◌, ◌^◌, [], not, OnOk, IfOk, Some, length, slice_get};
ghost use Rattle.problem_form.specs.declared.terms.Constraint.{Constraint};
ghost use Rattle.problem_form.specs.Problems.{problem_total};
ghost use Rattle.conflict_clauses.specs.Conflicts.{CostsAlike, is_cover, is_replaced, most_pairs, spent_after, is_left, without, without_conflicts, without_covers};
ghost use Rattle.conflict_clauses.specs.Steps.{IsCoverTakenAt, IsTakenAt, staying, with_clauses_from, with_clauses_of, with_conflict, with_cover};

use crate::clauses::{Wanted, add_each, add_pairs, take_wanted};
use crate::conflicts::{Found, find_conflict};
use crate::covers::is_cover;
use base::NoMemory;
use problem_form::Problem;
use std::alloc::Global;

/// Takes what the constraint at a place wants, where it is to be replaced as a conflict after
/// so many pairs, and says how many pairs it has.
fn take_at(
    lists: &mut Wanted,
    problem: &Problem,
    i: usize,
    spent: usize,
) -> Result<Option<usize>, NoMemory>
    requires within { i < length problem.now.constraints }
    requires spent { spent ≤ most_pairs }
    ensures small { problem_total problem.now < 2 ^ 100 }
    ensures taken { IfOk result
        (IsTakenAt problem.now i spent lists.new.needed.items lists.new.others.items) }
{
    let constraint = problem.constraints.at(i);
    let Some(Found { room, pairs }) = find_conflict(&constraint, spent) else {
        return Ok(None);
    };
    take_wanted(lists, constraint.products, room)?;
    Ok(Some(pairs))
}

/// Adds the clauses of the constraint at a place, where it is to be replaced as a conflict after so
/// many pairs, and says whether it stays.
fn replace_conflict(
    lists: &mut Wanted,
    problem: &mut Problem,
    i: usize,
    spent: &mut usize,
) -> Result<bool, NoMemory>
    requires within { i < length problem.old.constraints }
    requires spent { spent.old ≤ most_pairs }
    ensures clauses { OnOk result ((k : Constraint) → slice_get problem.old.constraints i ≡ Some k
        → problem.new ≡ with_conflict problem.old spent.old k) }
    ensures spent { OnOk result ((k : Constraint) → slice_get problem.old.constraints i ≡ Some k
        → spent.new ≡ spent_after spent.old k) }
    ensures stays { IfOk result (λ stays. (k : Constraint)
        → slice_get problem.old.constraints i ≡ Some k → stays ≡ not (is_replaced spent.old k)) }
    ensures bounded { spent.new ≤ most_pairs }
{
    let Some(pairs) = take_at(lists, problem, i, *spent)? else {
        return Ok(true);
    };
    add_each(problem, &lists.needed)?;
    add_pairs(problem, &lists.others)?;
    *spent += pairs;
    Ok(false)
}

/// Takes what the constraint at a place wants, where it is a cover, and says whether it is one.
/// With no room no product may miss, so all literals stand in one list.
fn take_cover(lists: &mut Wanted, problem: &Problem, i: usize) -> Result<bool, NoMemory>
    requires within { i < length problem.now.constraints }
    ensures small { problem_total problem.now < 2 ^ 100 }
    ensures taken { IfOk result (IsCoverTakenAt problem.now i lists.new.needed.items) }
{
    let constraint = problem.constraints.at(i);
    if !is_cover(&constraint) {
        return Ok(false);
    }
    take_wanted(lists, constraint.products, 0)?;
    Ok(true)
}

/// Adds the clause of the constraint at a place, where it is a cover, and says whether it stays.
fn replace_cover(lists: &mut Wanted, problem: &mut Problem, i: usize) -> Result<bool, NoMemory>
    requires { i < length problem.old.constraints }
    ensures clauses { OnOk result ((k : Constraint) → slice_get problem.old.constraints i ≡ Some k
        → problem.new ≡ with_cover problem.old k) }
    ensures stays { IfOk result (λ stays. (k : Constraint)
        → slice_get problem.old.constraints i ≡ Some k → stays ≡ not (is_cover k)) }
{
    if !take_cover(lists, problem, i)? {
        return Ok(true);
    }
    problem.add_literals(&mut lists.needed, None)?;
    Ok(false)
}

/// Adds the clauses of the constraint at a place, where it is to be replaced after so many pairs,
/// and says whether it stays.
fn replace_at(
    lists: &mut Wanted,
    problem: &mut Problem,
    i: usize,
    spent: &mut usize,
    covers: bool,
) -> Result<bool, NoMemory>
    requires within { i < length problem.old.constraints }
    requires spent { spent.old ≤ most_pairs }
    ensures clauses { OnOk result ((k : Constraint) → slice_get problem.old.constraints i ≡ Some k
        → problem.new ≡ with_clauses_of covers problem.old spent.old k) }
    ensures spent { OnOk result ((k : Constraint) → slice_get problem.old.constraints i ≡ Some k
        → spent.new ≡ spent_after spent.old k) }
    ensures stays { IfOk result (λ stays. (k : Constraint)
        → slice_get problem.old.constraints i ≡ Some k → stays ≡ is_left covers spent.old k) }
    ensures bounded { spent.new ≤ most_pairs }
{
    let stays = replace_conflict(lists, problem, i, spent)?;
    if stays && covers {
        replace_cover(lists, problem, i)
    } else {
        Ok(stays)
    }
}

/// Adds the clauses of all constraints that are to be replaced, and marks those that stay.
fn replace_each(
    lists: &mut Wanted,
    problem: &mut Problem,
    kept: &mut Vec<bool>,
    covers: bool,
) -> Result<(), NoMemory>
    requires { kept.old.items ≡ [] }
    ensures clauses { OnOk result
        (problem.new ≡ with_clauses_from covers problem.old 0 problem.old.constraints) }
    ensures kept { OnOk result (kept.new.items ≡ staying covers 0 problem.old.constraints) }
{
    let mut spent = 0;
    for i in 0..problem.constraints.len() {
        let stays = replace_at(lists, problem, i, &mut spent, covers)?;
        kept.push(stays)?;
    }
    Ok(())
}

/// Puts clauses in place of the conflicts and, where they are to be replaced too, of the covers.
fn replace(alloc: Global, problem: &mut Problem, covers: bool) -> Result<(), NoMemory>
    ensures { OnOk result (problem.new ≡ without covers problem.old) }
{
    let mut kept = Vec::new(alloc);
    let mut lists = Wanted::new(alloc);
    replace_each(&mut lists, problem, &mut kept, covers)?;
    problem.keep_constraints(&kept);
    Ok(())
}

/// The problem with hard clauses, behind its own, in place of its conflicts. Each assignment costs
/// the same. Beside the clauses it takes a byte for each constraint.
pub fn without_conflicts(alloc: Global, problem: Problem) -> Result<Problem, NoMemory>
    ensures exact { IfOk result (λ replaced. replaced ≡ without_conflicts problem) }
    ensures alike { IfOk result (λ replaced. CostsAlike replaced problem) }
{
    let mut problem = problem;
    replace(alloc, &mut problem, false)?;
    Ok(problem)
}

/// The problem with hard clauses, behind its own, in place of its conflicts and its covers. Each
/// assignment costs the same. Beside the clauses it takes a byte for each constraint.
pub fn without_covers(alloc: Global, problem: Problem) -> Result<Problem, NoMemory>
    ensures exact { IfOk result (λ replaced. replaced ≡ without_covers problem) }
    ensures alike { IfOk result (λ replaced. CostsAlike replaced problem) }
{
    let mut problem = problem;
    replace(alloc, &mut problem, true)?;
    Ok(problem)
}
