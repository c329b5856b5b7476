//! A whole text.
ghost use Rattle.std.specs.Prelude.{◌≡◌, ◌+◌, ◌*◌, ◌<◌, ◌≤◌, ◌^◌, [], length, OnOk};
ghost use Rattle.whole_text.specs.TokenTexts.{word_of, words_of};
ghost use Rattle.whole_text.specs.Steps.{Gives};
ghost use Rattle.problem_form.specs.Problems.{problem_total};
ghost use Rattle.problem_form.specs.NormalForm.{blank};
ghost use Rattle.opb_reader.specs.Cost.{normal_reading, problem_of_words};
ghost use Rattle.opb_reader.specs.Views.{head_read, constraint_read, constraints_read};

use crate::comparing::{compare, comparison};
use crate::sums::{objective, sum};
use literal_lists::Literal;
use problem_form::{Constraint, Problem, ProductList};
use std::alloc::Global;
use whole_text::{Style, TextAnswer, TokenText, WordRef, Words, cut_words};

/// Adds the objective to a problem, where there is one.
#[inline(always)]
fn head(
    problem: &mut Problem,
    words: &mut Words<'_>,
    list: &mut Vec<Literal>,
    end: u64,
) -> Result<(), TextAnswer>
    requires emptied { list.old.items ≡ [] }
    requires small { problem_total problem.old + length words.old * 2 ^ 64 < 2 ^ 100 }
    ensures read { Gives (λ _. (problem.new, words.new)) result
        (head_read problem.old end words.old) }
    ensures small { OnOk result (problem_total problem.new + length words.new * 2 ^ 64
        ≤ problem_total problem.old + length words.old * 2 ^ 64) }
    ensures emptied { OnOk result (list.new.items ≡ []) }
{
    match words.peek() {
        Some(word) if word.bytes == b"min:".as_slice() => {
            words.next();
            objective(problem, words, list, end)
        }
        _ => Ok(()),
    }
}

/// Adds the constraint that begins with this word to a problem. It is written down first, in place
/// of what was written before.
#[inline(always)]
fn constraint<'a>(
    first: WordRef<'a>,
    problem: &mut Problem,
    written: &mut Constraint,
    words: &mut Words<'a>,
    list: &mut Vec<Literal>,
    end: u64,
) -> Result<(), TextAnswer>
    requires emptied { list.old.items ≡ [] }
    requires small { problem_total problem.old + (1 + length words.old) * 2 ^ 64 < 2 ^ 100 }
    ensures read { Gives (λ _. (problem.new, words.new)) result
        (constraint_read problem.old end (word_of first.entry) words.old) }
    ensures small { OnOk result (problem_total problem.new + length words.new * 2 ^ 64
        ≤ problem_total problem.old + (1 + length words.old) * 2 ^ 64) }
    ensures emptied { OnOk result (list.new.items ≡ []) }
    ensures shorter { OnOk result (length words.new ≤ length words.old) }
{
    written.products.clear();
    let mut variables = problem.variables;
    let next = sum(
        first,
        words,
        list,
        &mut written.products,
        &mut variables,
        u64::MAX,
        end,
    )?;
    let (operator, bound) = comparison(next, words, end)?;
    compare(written, operator, bound);
    problem.widen(variables);
    problem.add_constraint(written)?;
    Ok(())
}

/// Adds the constraints up to the end. Each is written down in place of the one before.
#[inline(always)]
fn constraints(
    problem: &mut Problem,
    written: &mut Constraint,
    words: &mut Words<'_>,
    list: &mut Vec<Literal>,
    end: u64,
) -> Result<(), TextAnswer>
    requires emptied { list.old.items ≡ [] }
    requires small { problem_total problem.old + length words.old * 2 ^ 64 < 2 ^ 100 }
    ensures { Gives (λ _. problem.new) result (constraints_read problem.old end words.old) }
{
    while let Some(first) = words.next() {
        constraint(first, problem, written, words, list, end)?;
    }
    Ok(())
}

/// Adds the objective and the constraints of a text to a problem that is new.
fn add_text(
    problem: &mut Problem,
    written: &mut Constraint,
    list: &mut Vec<Literal>,
    text: &TokenText,
) -> Result<(), TextAnswer>
    requires empty { problem.old ≡ blank }
    requires emptied { list.old.items ≡ [] }
    requires short { length text.now.bytes ≤ 2 ^ 24 }
    ensures { Gives (λ _. problem.new) result (problem_of_words (words_of text.now)) }
{
    let mut words = text.words();
    let end = text.end_line();
    head(problem, &mut words, list, end)?;
    constraints(problem, written, &mut words, list, end)
}

/// Reads a text that was cut into words into a problem that is new.
fn read_into(alloc: Global, problem: &mut Problem, text: &TokenText) -> Result<(), TextAnswer>
    requires empty { problem.old ≡ blank }
    requires short { length text.now.bytes ≤ 2 ^ 24 }
    ensures { Gives (λ _. problem.new) result (problem_of_words (words_of text.now)) }
{
    let mut list = Vec::new(alloc);
    let mut written = Constraint {
        products: ProductList::empty(alloc),
        bound: 0,
        exact: false,
    };
    add_text(problem, &mut written, &mut list, text)
}

/// The problem of a text that was cut into words, in normal form, or the first fault of the text.
pub fn read_opb_tokens(alloc: Global, text: &TokenText) -> Result<Problem, TextAnswer>
    requires { length text.now.bytes ≤ 2 ^ 24 }
    ensures { Gives (λ problem. problem) result (problem_of_words (words_of text.now)) }
{
    let mut problem = Problem::new(alloc);
    read_into(alloc, &mut problem, text)?;
    Ok(problem)
}

/// The problem of a text, in normal form, or the first fault of the text.
#[tactic(auto, unfolding(crate::specs::Cost::normal_reading, crate::specs::Cost::problem_of_words, crate::specs::Opb::reading))]
pub fn read_opb(alloc: Global, text: &[u8]) -> Result<Problem, TextAnswer>
    requires { length text.now ≤ 2 ^ 24 }
    ensures { Gives (λ problem. problem) result (normal_reading text.now) }
{
    read_opb_tokens(alloc, &cut_words(alloc, text, Style::Opb)?)
}
