//! The squares of all constraints.
ghost use Rattle.std.specs.Prelude.{◌≡◌, ◌+◌, ◌*◌, ◌<◌, ◌≤◌, ◌^◌, All, OnOk};
ghost use Rattle.std.specs.List.{sum_by};
ghost use Rattle.problem_form.specs.Problems.{constraint_total};
ghost use Rattle.problem_form.specs.Limits.{reach, slack_bits};
ghost use Rattle.term_table.specs.Rooms.{Fills, HasRoomFor};
ghost use Rattle.penalty_layer.specs.Sets.{IsSet};
ghost use Rattle.penalty_layer.specs.Penalty.{node_count, Admits};
ghost use Rattle.penalty_layer.specs.Squares.{constraint_terms};

use crate::own::{after_first, own_or};
use crate::parts::Parts;
use crate::slack::slack_bits_of;
use crate::squares::add_square;
use base::NoMemory;
use literal_lists::Literal;
use problem_form::{ConstraintList, Problem};
use std::alloc::Global;
use term_table::Gather;

/// The nodes of a problem's image: its variables, and the slack bits of its constraints.
pub fn node_count(problem: &Problem) -> usize
    requires { Admits problem.now }
    ensures value { result ≡ node_count problem.now }
    ensures small { result ≤ 2 ^ 26 }
{
    let mut count = problem.variables as usize;
    for constraint in problem.constraints.iter() {
        count += slack_bits_of(&constraint);
    }
    count
}

/// Adds the squares of constraints, each times its penalty, its own or that of the whole. The slack
/// bits are numbered on from a first node. The parts and the list serve for each constraint.
fn add_squares<T: Gather>(
    terms: &mut T,
    parts: &mut Parts,
    set: &mut Vec<Literal>,
    penalty: u128,
    own: &[u64],
    first: usize,
    constraints: &ConstraintList,
) -> Result<(), NoMemory>
    requires sets { All (λ k. All (λ t. IsSet t.literals) k.products) constraints.now }
    requires narrow { first + sum_by slack_bits constraints.now ≤ 2 ^ 26 }
    requires totals { sum_by constraint_total constraints.now < 2 ^ 100 }
    requires penalty { penalty ≤ 2 ^ 100 }
    requires small { sum_by (λ k. penalty * reach k ^ 2) constraints.now ≤ 2 ^ 97 }
    requires room { HasRoomFor T.takes terms.old
        (constraint_terms penalty own.now first constraints.now) }
    ensures { OnOk result (Fills T.takes T.holds terms.old terms.new
        (constraint_terms penalty own.now first constraints.now)) }
{
    let mut next = first;
    let mut left = own;
    for constraint in constraints.iter() {
        parts.fill(set, next, &constraint)?;
        add_square(terms, set, own_or(left, penalty), parts)?;
        next += slack_bits_of(&constraint);
        left = after_first(left);
    }
    Ok(())
}

/// Adds the squares of constraints, each times its penalty, its own or that of the whole. The slack
/// bits are numbered on from a first node.
pub(crate) fn add_constraints<T: Gather>(
    alloc: Global,
    terms: &mut T,
    penalty: u128,
    own: &[u64],
    first: usize,
    constraints: &ConstraintList,
) -> Result<(), NoMemory>
    requires sets { All (λ k. All (λ t. IsSet t.literals) k.products) constraints.now }
    requires narrow { first + sum_by slack_bits constraints.now ≤ 2 ^ 26 }
    requires totals { sum_by constraint_total constraints.now < 2 ^ 100 }
    requires penalty { penalty ≤ 2 ^ 100 }
    requires small { sum_by (λ k. penalty * reach k ^ 2) constraints.now ≤ 2 ^ 97 }
    requires room { HasRoomFor T.takes terms.old
        (constraint_terms penalty own.now first constraints.now) }
    ensures { OnOk result (Fills T.takes T.holds terms.old terms.new
        (constraint_terms penalty own.now first constraints.now)) }
{
    let mut parts = Parts::empty(alloc);
    let mut set = Vec::new(alloc);
    add_squares(
        terms,
        &mut parts,
        &mut set,
        penalty,
        own,
        first,
        constraints,
    )
}
