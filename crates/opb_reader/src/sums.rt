//! Sums of terms: each is a number, and one or more literals.
ghost use Rattle.std.specs.Prelude.{◌≡◌, ◌+◌, ◌*◌, ◌-◌, ◌<◌, ◌≤◌, ◌^◌, ◌++◌, ◌∷◌, [], ℕ, length, nat_abs, All, OnOk, IfOk};
ghost use Rattle.whole_text.specs.TokenTexts.{word_of};
ghost use Rattle.whole_text.specs.Steps.{Gives};
ghost use Rattle.whole_text.specs.Rows.{left};
ghost use Rattle.problem_form.specs.Problems.{products_total, problem_total};
ghost use Rattle.opb_reader.specs.Opb.{literals_in, widened, is_operator, product_at, term_at, sum_at};
ghost use Rattle.opb_reader.specs.Views.{literals_read, objective_read};

use crate::judging::{begins_literal, coefficient, is_operator, is_semicolon, literal};
use base::NoMemory;
use literal_lists::Literal;
use problem_form::{Problem, ProductList};
use whole_text::{TextAnswer, TextKind, WordRef, Words, fault, next_word};

/// Appends a literal, and gives so many variables that it has one.
#[inline(always)]
fn push(list: &mut Vec<Literal>, variables: &mut u64, literal: Literal) -> Result<(), NoMemory>
    requires { literal.variable < 2 ^ 64 - 1 }
    ensures pushed { OnOk result (list.new.items ≡ list.old.items ++ literal ∷ []) }
    ensures counted { OnOk result (variables.new ≡ widened variables.old (literal ∷ [])) }
{
    list.push(literal)?;
    *variables = (*variables).max(literal.variable + 1);
    Ok(())
}

/// Appends the literals that follow one. The word after them is taken, and is the answer.
#[inline(always)]
fn more_literals<'a>(
    words: &mut Words<'a>,
    list: &mut Vec<Literal>,
    variables: &mut u64,
    limit: u64,
) -> Result<Option<WordRef<'a>>, TextAnswer>
    ensures read { Gives (λ next. (list.new.items, left next words.new)) result
        (literals_read limit list.old.items words.old) }
    ensures counted { (v : ℕ) → variables.old ≡ widened v list.old.items
        → OnOk result (variables.new ≡ widened v list.new.items) }
    ensures shorter { IfOk result (λ next. length (left next words.new) ≤ length words.old) }
{
    while let Some(word) = words.next() {
        if !begins_literal(word.bytes) {
            return Ok(Some(word));
        }
        push(list, variables, literal(word, limit)?)?;
    }
    Ok(None)
}

/// Puts one or more literals into a list that is empty. The word after them is taken, and is the
/// answer.
#[inline(always)]
#[tactic(auto, using(whole_text::proofs::Lengths::next_less), unfolding(crate::specs::Opb::product_at))]
fn product<'a>(
    words: &mut Words<'a>,
    list: &mut Vec<Literal>,
    variables: &mut u64,
    limit: u64,
    end: u64,
) -> Result<Option<WordRef<'a>>, TextAnswer>
    requires { list.old.items ≡ [] }
    ensures read { Gives (λ next. (list.new.items, left next words.new)) result
        (product_at limit end words.old) }
    ensures counted { OnOk result (variables.new ≡ widened variables.old list.new.items) }
    ensures shorter { IfOk result (λ next. length (left next words.new) < length words.old) }
{
    let first = next_word(words, end)?;
    push(list, variables, literal(first, limit)?)?;
    more_literals(words, list, variables, limit)
}

/// The term that begins with this word: its literals go into a list that is empty, and its number
/// is the answer, with the word after the term, which is taken.
#[inline(always)]
#[tactic(auto, unfolding(crate::specs::Opb::term_at))]
fn term<'a>(
    first: WordRef<'a>,
    words: &mut Words<'a>,
    list: &mut Vec<Literal>,
    variables: &mut u64,
    limit: u64,
    end: u64,
) -> Result<(i128, Option<WordRef<'a>>), TextAnswer>
    requires { list.old.items ≡ [] }
    ensures read { Gives
        (λ x. (record { literals = list.new.items; coefficient = x.0 }, left x.1 words.new)) result
        (term_at limit end (word_of first.entry) words.old) }
    ensures small { IfOk result (λ x. nat_abs x.0 < 2 ^ 64) }
    ensures counted { OnOk result (variables.new ≡ widened variables.old list.new.items) }
    ensures shorter { IfOk result (λ x. length (left x.1 words.new) < length words.old) }
{
    let coefficient = coefficient(first)?;
    let next = product(words, list, variables, limit, end)?;
    Ok((coefficient, next))
}

/// Puts the terms up to an operator into a list that is empty. The operator is taken, and is the
/// answer; `None` where the words end before it. No index is above the limit.
#[inline(always)]
pub fn sum<'a>(
    first: WordRef<'a>,
    words: &mut Words<'a>,
    list: &mut Vec<Literal>,
    terms: &mut ProductList,
    variables: &mut u64,
    limit: u64,
    end: u64,
) -> Result<Option<WordRef<'a>>, TextAnswer>
    requires emptied { list.old.items ≡ [] }
    requires none { terms.old ≡ [] }
    ensures read { Gives (λ next. (terms.new, left next words.new)) result
        (sum_at limit is_operator end (word_of first.entry ∷ words.old)) }
    ensures counted { OnOk result (variables.new ≡ widened variables.old (literals_in terms.new)) }
    ensures small { IfOk result (λ next. products_total terms.new
        + length (left next words.new) * 2 ^ 64 ≤ (1 + length words.old) * 2 ^ 64) }
    ensures emptied { OnOk result (list.new.items ≡ []) }
{
    let mut next = Some(first);
    while let Some(word) = next {
        if is_operator(word.bytes) {
            return Ok(Some(word));
        }
        let (coefficient, after) = term(word, words, list, variables, limit, end)?;
        terms.push(list, coefficient)?;
        list.clear();
        next = after;
    }
    Ok(None)
}

/// Adds the terms of an objective to a problem, up to its `;`, which is taken.
#[inline(always)]
pub(crate) fn objective(
    problem: &mut Problem,
    words: &mut Words<'_>,
    list: &mut Vec<Literal>,
    end: u64,
) -> Result<(), TextAnswer>
    requires emptied { list.old.items ≡ [] }
    requires small { problem_total problem.old + length words.old * 2 ^ 64 < 2 ^ 100 }
    ensures read { Gives (λ _. (problem.new, words.new)) result
        (objective_read problem.old end words.old) }
    ensures small { OnOk result (problem_total problem.new + length words.new * 2 ^ 64
        ≤ problem_total problem.old + length words.old * 2 ^ 64) }
    ensures emptied { OnOk result (list.new.items ≡ []) }
{
    let mut next = words.next();
    while let Some(word) = next {
        if is_semicolon(word.bytes) {
            return Ok(());
        }
        let mut variables = problem.variables;
        let (coefficient, after) = term(word, words, list, &mut variables, u64::MAX, end)?;
        problem.widen(variables);
        problem.add_term(list, coefficient)?;
        next = after;
    }
    Err(TextAnswer::Bad(fault(TextKind::End, end)))
}
