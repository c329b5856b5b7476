//! A whole text.
ghost use Rattle.std.specs.Prelude.{◌≡◌, ◌+◌, ◌*◌, ◌<◌, ◌≤◌, ◌^◌, [], length, OnOk};
ghost use Rattle.whole_text.specs.TokenTexts.{word_of, words_of};
ghost use Rattle.whole_text.specs.Steps.{Gives};
ghost use Rattle.wbo_reader.specs.Wbo.{wbo_total};
ghost use Rattle.wbo_reader.specs.Reading.{content_of_words, greatest_index, normal_reading};
ghost use Rattle.wbo_reader.specs.Gathering.{constraint_read, constraints_read};

use crate::gathered::Gathered;
use crate::heads::{front, head};
use crate::wbo::Wbo;
use literal_lists::Literal;
use opb_reader::{compare, comparison, sum};
use problem_form::{Constraint, ProductList};
use std::alloc::Global;
use whole_text::{Style, TextAnswer, TokenText, WordRef, Words, cut_words};

/// The greatest index.
const GREATEST_INDEX: u64 = (1 << 63) - 1;

/// Adds the constraint that begins with this word to those before it. It is written down first, in
/// place of what was written before.
fn constraint<'a>(
    first: WordRef<'a>,
    gathered: &mut Gathered,
    written: &mut Constraint,
    words: &mut Words<'a>,
    list: &mut Vec<Literal>,
    end: u64,
) -> Result<(), TextAnswer>
    requires emptied { list.old.items ≡ [] }
    requires small { wbo_total gathered.old + (1 + length words.old) * 2 ^ 64 < 2 ^ 90 }
    ensures read { Gives (λ _. (gathered.new, words.new)) result
        (constraint_read gathered.old end (word_of first.entry) words.old) }
    ensures small { OnOk result (wbo_total gathered.new + length words.new * 2 ^ 64
        ≤ wbo_total gathered.old + (1 + length words.old) * 2 ^ 64) }
    ensures emptied { OnOk result (list.new.items ≡ []) }
    ensures shorter { OnOk result (length words.new ≤ length words.old) }
{
    let (weight, first) = front(first, words, end)?;
    written.products.clear();
    let mut variables = gathered.variables;
    let next = sum(
        first,
        words,
        list,
        &mut written.products,
        &mut variables,
        GREATEST_INDEX,
        end,
    )?;
    let (operator, bound) = comparison(next, words, end)?;
    compare(written, operator, bound);
    gathered.variables = variables;
    gathered.add(weight, written)?;
    Ok(())
}

/// Adds the constraints up to the end. Each is written down in place of the one before.
fn constraints(
    gathered: &mut Gathered,
    written: &mut Constraint,
    words: &mut Words<'_>,
    list: &mut Vec<Literal>,
    end: u64,
) -> Result<(), TextAnswer>
    requires emptied { list.old.items ≡ [] }
    requires small { wbo_total gathered.old + length words.old * 2 ^ 64 < 2 ^ 90 }
    ensures read { Gives (λ _. gathered.new) result
        (constraints_read gathered.old end words.old) }
    ensures small { OnOk result (wbo_total gathered.new < 2 ^ 90) }
{
    while let Some(first) = words.next() {
        constraint(first, gathered, written, words, list, end)?;
    }
    Ok(())
}

/// Reads what stands behind the head of a text.
fn read_into(
    alloc: Global,
    gathered: &mut Gathered,
    words: &mut Words<'_>,
    end: u64,
) -> Result<(), TextAnswer>
    requires { wbo_total gathered.old + length words.old * 2 ^ 64 < 2 ^ 90 }
    ensures read { Gives (λ _. gathered.new) result
        (constraints_read gathered.old end words.old) }
    ensures small { OnOk result (wbo_total gathered.new < 2 ^ 90) }
{
    let mut list = Vec::new(alloc);
    let mut written = Constraint {
        products: ProductList::empty(alloc),
        bound: 0,
        exact: false,
    };
    constraints(gathered, &mut written, words, &mut list, end)
}

/// The source of a text that was cut into words, in normal form, or the first fault of the text.
pub fn read_wbo_tokens(alloc: Global, text: &TokenText) -> Result<Wbo, TextAnswer>
    requires { length text.now.bytes ≤ 2 ^ 24 }
    ensures { Gives (λ wbo. wbo) result (content_of_words (words_of text.now)) }
{
    let mut words = text.words();
    let end = text.end_line();
    let top = head(&mut words, end)?;
    let mut gathered = Gathered::new(alloc, top);
    read_into(alloc, &mut gathered, &mut words, end)?;
    Ok(gathered.into_wbo())
}

/// The source of a text, in normal form, or the first fault of the text.
#[tactic(auto, unfolding(crate::specs::Reading::normal_reading, crate::specs::Reading::content_of_words, crate::specs::Reading::reading))]
pub fn read_wbo(alloc: Global, text: &[u8]) -> Result<Wbo, TextAnswer>
    requires { length text.now ≤ 2 ^ 24 }
    ensures { Gives (λ wbo. wbo) result (normal_reading text.now) }
{
    read_wbo_tokens(alloc, &cut_words(alloc, text, Style::Wbo)?)
}
