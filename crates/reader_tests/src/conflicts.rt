//! Which clauses take the place of conflicts and covers, worked by hand, what assignments cost then,
//! and how many pairs they may be.
ghost use Rattle.std.specs.Prelude.{◌≤◌, ◌^◌, length};

use base::{Cost, NoMemory};
use conflict_clauses::{without_conflicts, without_covers};
use opb_reader::read_opb;
use problem_form::{ClauseList, ClauseRef, ConstraintList, Literal, Problem};
use std::alloc::Global;
use std::test::Fail;
use whole_text::{TextAnswer, push_number};

/// The problem of a text, with clauses in place of its conflicts and, where they are to go too, of
/// its covers.
fn cleared(alloc: Global, text: &[u8], covers: bool) -> Result<Problem, TextAnswer>
    requires { length text.now ≤ 2 ^ 24 }
{
    let problem = read_opb(alloc, text)?;
    let cleared = if covers {
        without_covers(alloc, problem)
    } else {
        without_conflicts(alloc, problem)
    };
    Ok(cleared?)
}

// ---- small problems

/// Whether a literal is this variable, counted from 1, or its complement below 0.
fn is_literal(found: Literal, wanted: i16) -> bool {
    found.variable.saturating_add(1) == u64::from(wanted.unsigned_abs())
        && found.negated == (wanted < 0)
}

/// Whether a clause is hard, and has these literals.
fn is_hard(clause: ClauseRef<'_>, wanted: &[i16]) -> bool {
    let mut literals = clause.literals;
    for number in wanted {
        match literals.next() {
            Some(found) if is_literal(found, *number) => {}
            _ => return false,
        }
    }
    literals.next().is_none() && clause.weight.is_none()
}

/// Whether these are all clauses, in order.
fn are_clauses(clauses: &ClauseList, rows: &[&[i16]]) -> bool {
    let mut clauses = clauses.iter();
    for row in rows {
        let Some(clause) = clauses.next() else {
            return false;
        };
        if !is_hard(clause, row) {
            return false;
        }
    }
    clauses.next().is_none()
}

/// Whether the constraints have so many products, in order.
fn are_left(constraints: &ConstraintList, counts: &[u32]) -> bool {
    let mut constraints = constraints.iter();
    for count in counts {
        match constraints.next() {
            Some(constraint) if constraint.products.len() == *count as usize => {}
            _ => return false,
        }
    }
    constraints.next().is_none()
}

/// Whether these clauses take the place of conflicts and, where they are to go too, of covers, and
/// constraints of so many products stay.
fn becomes(alloc: Global, text: &[u8], covers: bool, clauses: &[&[i16]], left: &[u32]) -> bool
    requires { length text.now ≤ 2 ^ 24 }
{
    match &cleared(alloc, text, covers) {
        Ok(problem) => {
            are_clauses(&problem.clauses, clauses) && are_left(&problem.constraints, left)
        }
        Err(_) => false,
    }
}

const ROWS: &[(&[u8], &[&[i16]], &[u32])] = &[
    // at least one of two, and at most one of two, written in two ways, and of three
    (b"+1 x1 +1 x2 >= 1 ;\n", &[&[1, 2]], &[]),
    (b"-1 x1 -1 x2 >= -1 ;\n", &[&[-1, -2]], &[]),
    (b"+3 x1 +4 x2 <= 5 ;\n", &[&[-1, -2]], &[]),
    (
        b"+1 x1 +1 x2 +1 x3 <= 1 ;\n",
        &[&[-1, -2], &[-1, -3], &[-2, -3]],
        &[],
    ),
    // an implication, also of other sizes, and the literal that stands in the text
    (b"-1 x1 +1 x2 >= 0 ;\n", &[&[-1, 2]], &[]),
    (b"-2 x2 +2 x1 >= 0 ;\n", &[&[1, -2]], &[]),
    (b"-1 ~x1 +1 ~x2 >= 0 ;\n", &[&[1, -2]], &[]),
    // two may miss, by no more than the room
    (b"+1 x1 +1 x2 +1 x3 >= 1 ;\n", &[], &[3]),
    (b"+2 x1 +1 x2 +1 x3 >= 2 ;\n", &[], &[3]),
    // literals that may not miss at all, before the pairs of the others
    (b"+3 x1 +1 x2 >= 3 ;\n", &[&[1]], &[]),
    (b"+2 x1 +1 x2 +1 x3 >= 3 ;\n", &[&[1], &[2, 3]], &[]),
    (b"-1 x2 -1 x3 +5 x1 >= 4 ;\n", &[&[1], &[-2, -3]], &[]),
    (b"+1 x1 +1 ~x2 >= 2 ;\n", &[&[1], &[-2]], &[]),
    // one product is needed, or may always miss
    (b"+1 ~x1 >= 1 ;\n", &[&[-1]], &[]),
    (b"+1 x1 >= 0 ;\n", &[], &[]),
    // a literal twice, and beside its complement
    (b"+1 x1 +1 x1 >= 1 ;\n", &[&[1]], &[]),
    (b"+1 x1 +1 ~x1 >= 1 ;\n", &[], &[]),
    // an equation, a product of two, a sum out of reach and one of nothing stay
    (b"+1 x1 +1 x2 = 1 ;\n", &[], &[2]),
    (b"+1 x1 x2 +1 x3 >= 1 ;\n", &[], &[2]),
    (b"+1 x1 +1 x2 >= 3 ;\n", &[], &[2]),
    (b"+0 x1 >= 0 ;\n", &[], &[0]),
    // conflicts in order, around a constraint that stays
    (
        b"+1 x2 +1 x1 >= 1 ;\n+1 x1 +1 x2 = 1 ;\n-1 x1 +1 x3 >= 0 ;\n",
        &[&[1, 2], &[-1, 3]],
        &[2],
    ),
];

#[test]
fn conflicts_become_clauses(rt: HostRuntime) {
    for (text, clauses, left) in ROWS {
        let so = text.len() <= 1 << 24 && becomes(rt.alloc(), text, false, clauses, left);
        assert!(rt; so, "{text:?}");
    }
}

/// The same with covers, and under which assignments all hold: the digit of 2^0 for the one where all
/// variables are 0, that of 2^1 for the one where x1 alone is 1, and so on.
const COVERED: &[(&[u8], &[&[i16]], &[u32], u16)] = &[
    // one literal of three is enough, as written, as complements, and of other sizes
    (b"+1 x1 +1 x2 +1 x3 >= 1 ;\n", &[&[1, 2, 3]], &[], 0xfefe),
    (
        b"-1 x1 -1 x2 -1 x3 >= -2 ;\n",
        &[&[-1, -2, -3]],
        &[],
        0x7f7f,
    ),
    (
        b"+2 x1 -3 x2 +2 x3 +5 ~x4 >= -1 ;\n",
        &[&[1, -2, 3, -4]],
        &[],
        0xfbff,
    ),
    // a great product is enough and a small one is not, or one is never enough
    (b"+2 x1 +1 x2 +1 x3 >= 2 ;\n", &[], &[3], 0xeaea),
    (b"+1 x1 +1 x2 +1 x3 +1 x4 >= 2 ;\n", &[], &[4], 0xfee8),
    (b"+1 x1 +1 x2 +1 x3 >= 4 ;\n", &[], &[3], 0),
    // nothing is needed
    (b"+1 x1 +1 x2 +1 x3 >= 0 ;\n", &[], &[3], 0xffff),
    (b"-1 x1 -1 x2 -1 x3 >= -3 ;\n", &[], &[3], 0xffff),
    // a literal twice, and beside its complement
    (b"+1 x1 +1 x2 +1 x1 >= 1 ;\n", &[&[1, 2]], &[], 0xeeee),
    (b"+1 x1 +1 ~x1 +1 x2 >= 1 ;\n", &[], &[], 0xffff),
    // an equation and a product of two stay
    (b"+1 x1 +1 x2 +1 x3 = 1 ;\n", &[], &[3], 0x1616),
    (b"+1 x1 x2 +1 x3 +1 x4 >= 1 ;\n", &[], &[3], 0xfff8),
    // conflicts and covers in order
    (
        b"+1 x1 +1 x2 +1 x3 >= 1 ;\n-1 x1 -1 x2 >= -1 ;\n+1 x2 +1 x3 +1 x4 >= 1 ;\n",
        &[&[1, 2, 3], &[-1, -2], &[2, 3, 4]],
        &[],
        0x7674,
    ),
];

#[test]
fn covers_become_clauses(rt: HostRuntime) {
    for (text, clauses, left, _holding) in COVERED {
        let so = text.len() <= 1 << 24 && becomes(rt.alloc(), text, true, clauses, left);
        assert!(rt; so, "{text:?}");
    }
}

// ---- what assignments cost

/// The last four binary digits of a number.
fn bits_of(number: u16) -> [bool; 4] {
    [
        number & 1 == 1,
        number & 2 == 2,
        number & 4 == 4,
        number & 8 == 8,
    ]
}

/// Whether exactly these assignments cost nothing, and the others are infeasible.
fn holds_under(problem: &Problem, holding: u16) -> bool {
    for number in 0..16 {
        let cost = if holding >> number & 1 == 1 {
            Cost::Whole(0)
        } else {
            Cost::Infinite
        };
        if problem.own_cost(&bits_of(number)) != cost {
            return false;
        }
    }
    true
}

/// The same of the problem of a text, with clauses in place of its conflicts or of its covers too.
fn still_holds(alloc: Global, text: &[u8], covers: bool, holding: u16) -> bool
    requires { length text.now ≤ 2 ^ 24 }
{
    match &cleared(alloc, text, covers) {
        Ok(problem) => holds_under(problem, holding),
        Err(_) => false,
    }
}

#[test]
fn assignments_cost_what_they_did(rt: HostRuntime) {
    for (text, _clauses, _left, holding) in COVERED {
        for covers in [false, true] {
            let so = text.len() <= 1 << 24 && still_holds(rt.alloc(), text, covers, *holding);
            assert!(rt; so, "{text:?} {covers}");
        }
    }
}

// ---- the most nodes

/// Appends that the number times one of so many variables is needed.
fn push_at_least_one(text: &mut Vec<u8>, size: u32, count: u32) -> Result<(), NoMemory> {
    for variable in 1..=count {
        push_number(text, i128::from(size))?;
        text.extend_from_slice(b" x")?;
        push_number(text, i128::from(variable))?;
        text.push(b' ')?;
    }
    text.extend_from_slice(b">= ")?;
    push_number(text, i128::from(size))?;
    text.extend_from_slice(b" ;\n")?;
    Ok(())
}

/// Whether at least one of so many variables becomes a clause.
fn is_cover_of(alloc: Global, size: u32, count: u32) -> Result<bool, Fail> {
    let mut text = Vec::new(alloc);
    push_at_least_one(&mut text, size, count)?;
    if text.len() > 1 << 24 {
        return Ok(false);
    }
    Ok(match &cleared(alloc, &text, true) {
        Ok(problem) => problem.clauses.len() == 1 && problem.constraints.len() == 0,
        Err(_) => false,
    })
}

/// A size, a number of products, and whether their clause has no more nodes than slack bits: 4 and 4,
/// 5 and 4, 5 and 5, 6 and 5, 7 and 7, 8 and 7.
const LENGTHS: &[(u32, u32, bool)] = &[
    (1, 10, true),
    (1, 11, false),
    (2, 11, true),
    (2, 13, false),
    (8, 16, true),
    (4, 18, false),
];

#[test]
fn covers_of_more_nodes_than_slack_bits_stay(rt: HostRuntime) -> Result<(), Fail> {
    for (size, count, so) in LENGTHS {
        let found = is_cover_of(rt.alloc(), *size, *count)?;
        assert!(rt; found == *so, "{size} {count}");
    }
    Ok(())
}

// ---- the most pairs

/// Appends that at most one of so many variables is 1.
fn push_at_most_one(text: &mut Vec<u8>, count: u32) -> Result<(), NoMemory> {
    for variable in 1..=count {
        text.extend_from_slice(b"-1 x")?;
        push_number(text, i128::from(variable))?;
        text.push(b' ')?;
    }
    text.extend_from_slice(b">= -1 ;\n")?;
    Ok(())
}

/// The text of conflicts of so many literals.
fn text_of(alloc: Global, counts: &[u32]) -> Result<Vec<u8>, NoMemory> {
    let mut text = Vec::new(alloc);
    for count in counts {
        push_at_most_one(&mut text, *count)?;
    }
    Ok(text)
}

/// Whether so many clauses take the place of conflicts and, where they are to go too, of covers, and
/// those of so many literals stay.
fn is_bounded(alloc: Global, text: &[u8], covers: bool, clauses: usize, left: &[u32]) -> bool
    requires { length text.now ≤ 2 ^ 24 }
{
    match &cleared(alloc, text, covers) {
        Ok(problem) => { problem.clauses.len() == clauses && are_left(&problem.constraints, left) }
        Err(_) => false,
    }
}

/// Conflicts of so many literals. The first is too long, and four take 2,095,104 pairs; then 2,080
/// are too many and 2,016 are not, 36 too many and 28 not; 3 and 1 take the last of 2,097,152.
const COUNTS: &[u32] = &[1025, 1024, 1024, 1024, 1024, 65, 64, 9, 8, 3, 2, 2];

/// Those that stay.
const LEFT: &[u32] = &[1025, 65, 9, 2];

#[test]
fn conflicts_beyond_the_most_pairs_stay(rt: HostRuntime) -> Result<(), Fail> {
    let text = text_of(rt.alloc(), COUNTS)?;
    let so = text.len() <= 1 << 24 && is_bounded(rt.alloc(), &text, false, 2_097_152, LEFT);
    assert!(rt; so);
    Ok(())
}

/// Of those that stay, the one of two literals is a cover.
#[test]
fn a_conflict_beyond_the_most_pairs_may_be_a_cover(rt: HostRuntime) -> Result<(), Fail> {
    let text = text_of(rt.alloc(), COUNTS)?;
    let left = &[1025, 65, 9];
    let so = text.len() <= 1 << 24 && is_bounded(rt.alloc(), &text, true, 2_097_153, left);
    assert!(rt; so);
    Ok(())
}
