//! A whole text, in the layout that its first word says.
ghost use Rattle.std.specs.Prelude.{◌≡◌, ◌≤◌, ◌^◌, length};
ghost use Rattle.problem_form.specs.NormalForm.{blank, with_variables};
ghost use Rattle.whole_text.specs.TokenTexts.{words_of};
ghost use Rattle.whole_text.specs.Steps.{Gives};
ghost use Rattle.wcnf_reader.specs.Cost.{normal_reading, problem_of_words};
ghost use Rattle.wcnf_reader.specs.Views.{header_of, problem_read, older_read, headerless_read};

use crate::header::{Start, header};
use crate::layout::ClauseLayout;
use crate::listed::{clause, widened};
use problem_form::Problem;
use std::alloc::Global;
use whole_text::{Style, TextAnswer, TextKind, TokenText, Words, cut_words, fault, next_word};

/// The clauses that the header counts.
#[inline(always)]
fn counted(
    alloc: Global,
    problem: &mut Problem,
    words: &mut Words<'_>,
    start: Start,
    end: u64,
) -> Result<(), TextAnswer>
    requires empty { problem.old ≡ with_variables blank start.variables }
    requires short { length words.old ≤ 2 ^ 24 }
    ensures { Gives (λ _. (problem.new, words.new)) result
        (problem_read (header_of start) end words.old) }
{
    let mut literals = Vec::new(alloc);
    let layout = ClauseLayout::Older(start.top);
    for _ in 0..start.clauses {
        let first = next_word(words, end)?;
        let weight = clause(
            first,
            words,
            &mut literals,
            layout,
            Some(start.variables),
            end,
        )?;
        problem.add_literals(&mut literals, weight)?;
    }
    Ok(())
}

/// A text of the older layout, after a `p` on this line.
#[inline(always)]
fn older(
    alloc: Global,
    problem: &mut Problem,
    mut words: Words<'_>,
    line: u64,
    end: u64,
) -> Result<(), TextAnswer>
    requires empty { problem.old ≡ blank }
    requires short { length words ≤ 2 ^ 24 }
    ensures { Gives (λ _. problem.new) result (older_read line end words.entry) }
{
    let start = header(&mut words, line, end)?;
    problem.widen(start.variables);
    counted(alloc, problem, &mut words, start, end)?;
    match words.next() {
        None => Ok(()),
        Some(word) => Err(TextAnswer::Bad(fault(TextKind::Extra, word.line))),
    }
}

/// A text of the layout of 2022. The problem is widened as larger literals come.
fn headerless(
    alloc: Global,
    problem: &mut Problem,
    mut words: Words<'_>,
    end: u64,
) -> Result<(), TextAnswer>
    requires empty { problem.old ≡ blank }
    requires short { length words ≤ 2 ^ 24 }
    ensures { Gives (λ _. problem.new) result (headerless_read end words.entry) }
{
    let mut literals = Vec::new(alloc);
    let layout = ClauseLayout::WithoutHeader;
    while let Some(first) = words.next() {
        let weight = clause(first, &mut words, &mut literals, layout, None, end)?;
        let variables = widened(problem.variables, &literals);
        problem.widen(variables);
        problem.add_literals(&mut literals, weight)?;
    }
    Ok(())
}

/// A text that was cut into words, in the layout that its first word says.
#[tactic(auto, unfolding(crate::specs::Cost::problem_of_words, crate::specs::Wcnf::reading_of_words))]
fn read_into(alloc: Global, problem: &mut Problem, text: &TokenText) -> Result<(), TextAnswer>
    requires empty { problem.old ≡ blank }
    requires short { length text.now.bytes ≤ 2 ^ 24 }
    ensures { Gives (λ _. problem.new) result (problem_of_words (words_of text.now)) }
{
    let mut words = text.words();
    let end = text.end_line();
    match words.next() {
        None => Err(TextAnswer::Bad(fault(TextKind::End, end))),
        Some(first) if first.bytes == b"p".as_slice() => older(
            alloc, problem, words, first.line, end,
        ),
        Some(_) => headerless(alloc, problem, text.words(), end),
    }
}

/// The problem of a text that was cut into words, in normal form, or the first fault of the text.
pub fn read_wcnf_tokens(alloc: Global, text: &TokenText) -> Result<Problem, TextAnswer>
    requires { length text.now.bytes ≤ 2 ^ 24 }
    ensures { Gives (λ problem. problem) result (problem_of_words (words_of text.now)) }
{
    let mut problem = Problem::new(alloc);
    read_into(alloc, &mut problem, text)?;
    Ok(problem)
}

/// The problem of a text, in normal form, or the first fault of the text.
#[tactic(auto, unfolding(crate::specs::Cost::normal_reading, crate::specs::Cost::problem_of_words, crate::specs::Wcnf::reading))]
pub fn read_wcnf(alloc: Global, text: &[u8]) -> Result<Problem, TextAnswer>
    requires { length text.now ≤ 2 ^ 24 }
    ensures { Gives (λ problem. problem) result (normal_reading text.now) }
{
    read_wcnf_tokens(alloc, &cut_words(alloc, text, Style::Plain)?)
}
