//! A whole text: a header, and entries up to the end.
ghost use Rattle.std.specs.Prelude.{◌≡◌, ◌≤◌, ◌^◌, length};
ghost use Rattle.whole_text.specs.TokenTexts.{words_of};
ghost use Rattle.whole_text.specs.Steps.{Gives};
ghost use Rattle.problem_form.specs.NormalForm.{blank, with_variables};
ghost use Rattle.entry_reader.specs.Problems.{normal_reading, problem_of_words, problem_read};

use crate::added::add_entry;
use crate::entries::{entry, none_to_come};
use crate::header::header;
use crate::layout::{Counts, Layout};
use problem_form::Problem;
use std::alloc::Global;
use whole_text::{Style, TextAnswer, TokenText, Words, cut_words};

/// Adds the entries up to the end of the words to a problem that has their nodes alone.
#[inline(always)]
fn entries(
    problem: &mut Problem,
    words: &mut Words<'_>,
    layout: Layout,
    counts: Counts,
    end: u64,
) -> Result<(), TextAnswer>
    requires empty { problem.old ≡ with_variables blank counts.nodes }
    requires short { length words.old ≤ 2 ^ 24 }
    ensures { Gives (λ _. problem.new) result (problem_read layout end counts words.old) }
{
    let mut to_come = counts;
    while let Some(first) = words.next() {
        let (entry, fewer) = entry(first, words, to_come, end)?;
        add_entry(problem, layout, entry)?;
        to_come = fewer;
    }
    none_to_come(end, to_come)?;
    Ok(())
}

/// Reads a text that was cut into words into a problem that is new.
fn read_into(problem: &mut Problem, layout: Layout, text: &TokenText) -> Result<(), TextAnswer>
    requires empty { problem.old ≡ blank }
    requires short { length text.now.bytes ≤ 2 ^ 24 }
    ensures { Gives (λ _. problem.new) result (problem_of_words layout (words_of text.now)) }
{
    let mut words = text.words();
    let end = text.end_line();
    let counts = header(&mut words, layout, end)?;
    problem.widen(counts.nodes);
    entries(problem, &mut words, layout, counts, end)
}

/// The problem of a text that was cut into words, in normal form, or the first fault of the text.
pub fn read_entries_tokens(
    alloc: Global,
    layout: Layout,
    text: &TokenText,
) -> Result<Problem, TextAnswer>
    requires { length text.now.bytes ≤ 2 ^ 24 }
    ensures { Gives (λ problem. problem) result (problem_of_words layout (words_of text.now)) }
{
    let mut problem = Problem::new(alloc);
    read_into(&mut problem, layout, text)?;
    Ok(problem)
}

/// The problem of a text, in normal form, or the first fault of the text.
#[tactic(auto, unfolding(crate::specs::Problems::normal_reading, crate::specs::Problems::problem_of_words, crate::specs::Entries::reading))]
pub fn read_entries(alloc: Global, layout: Layout, text: &[u8]) -> Result<Problem, TextAnswer>
    requires { length text.now ≤ 2 ^ 24 }
    ensures { Gives (λ problem. problem) result (normal_reading layout text.now) }
{
    read_entries_tokens(alloc, layout, &cut_words(alloc, text, Style::Plain)?)
}
