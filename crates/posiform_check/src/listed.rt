//! A line of a text: a number, and the literals that follow on its line.
ghost use Rattle.std.specs.Prelude.{◌≡◌, ◌<◌, ◌≤◌, ◌^◌, ◌+◌, ◌+ℤ◌, ◌++◌, [], pos, length, nat_abs, unsigned_abs, All, OnOk, IfOk, if◌then◌else◌};
ghost use Rattle.std.specs.Char.{is_ascii_digit};
ghost use Rattle.std.specs.List.{list_all};
ghost use Rattle.whole_text.specs.declared.faults.TextKind.TheVariants as kinds;
ghost use Rattle.whole_text.specs.Numbers.{are_digits};
ghost use Rattle.whole_text.specs.TokenTexts.{word_of};
ghost use Rattle.whole_text.specs.Steps.{Gives, GivesAlways};
ghost use Rattle.problem_form.specs.NormalForm.{is_empty};
ghost use Rattle.whole_text.specs.Rows.{left};
ghost use Rattle.posiform_check.specs.Texts.{node_at, literal_at, kept_line, written};
ghost use Rattle.posiform_check.specs.ReadingSteps.{literals_read, line_read};

use crate::lines::LineList;
use base::NoMemory;
use literal_lists::{Literal, clashes, make_set};
use whole_text::{
    TextAnswer, TextFault, TextKind, WordRef, Words, digits, fault, integer_word, kind_of_digits,
};

/// The node of digits, which is below this number.
#[tactic(auto, unfolding(crate::specs::Texts::node_at, whole_text::specs::Numbers::digits_number))]
fn node(bytes: &[u8], nodes: u64, line: u64) -> Result<u64, TextFault>
    ensures value { result ≡ node_at nodes line bytes.now }
    ensures small { IfOk result (λ n. n < nodes) }
{
    match digits(bytes) {
        Some(node) if node < nodes => Ok(node),
        Some(_) => Err(fault(TextKind::Range, line)),
        None => Err(fault(kind_of_digits(bytes), line)),
    }
}

/// A literal.
#[tactic(auto, unfolding(crate::specs::Texts::literal_at))]
fn literal(word: WordRef<'_>, nodes: u64) -> Result<Literal, TextFault>
    ensures value { result ≡ literal_at nodes (word_of word.entry) }
    ensures small { IfOk result (λ l. l.variable < nodes) }
{
    match word.bytes {
        [b'~', rest @ ..] => Ok(Literal {
            variable: node(rest, nodes, word.line)?,
            negated: true,
        }),
        bytes => Ok(Literal {
            variable: node(bytes, nodes, word.line)?,
            negated: false,
        }),
    }
}

/// Puts the literals that follow on this line into a list, in place of what it has. The word after
/// them is taken, and is the answer.
fn literals<'a>(
    line: u64,
    words: &mut Words<'a>,
    nodes: u64,
    list: &mut Vec<Literal>,
) -> Result<Option<WordRef<'a>>, TextAnswer>
    ensures read { Gives (λ next. (list.new.items, left next words.new)) result
        (literals_read nodes line [] words.old) }
    ensures within { OnOk result (All (λ l. l.variable < nodes) list.new.items) }
    ensures shorter { IfOk result (λ next. length (left next words.new) ≤ length words.old) }
{
    list.clear();
    while let Some(word) = words.next() {
        if word.line != line {
            return Ok(Some(word));
        }
        list.push(literal(word, nodes)?)?;
    }
    Ok(None)
}

/// The line that begins with this word: its literals go into a list, in place of what it has, and
/// its number is the answer, with the word after the line, which is taken.
pub(crate) fn line<'a>(
    first: WordRef<'a>,
    words: &mut Words<'a>,
    nodes: u64,
    list: &mut Vec<Literal>,
) -> Result<(i128, Option<WordRef<'a>>), TextAnswer>
    ensures read { Gives (λ x. (written list.new.items x.0 first.entry.line, left x.1 words.new))
        result (line_read nodes (word_of first.entry) words.old) }
    ensures small { IfOk result (λ x. nat_abs x.0 < 2 ^ 64) }
    ensures within { OnOk result (All (λ l. l.variable < nodes) list.new.items) }
    ensures shorter { IfOk result (λ x. length (left x.1 words.new) ≤ length words.old) }
{
    let coefficient = integer_word(first)?;
    let next = literals(first.line, words, nodes, list)?;
    Ok((coefficient, next))
}

/// What a line adds to the bound: its number, where it has no literals.
pub(crate) fn added(literals: &[Literal], coefficient: i128) -> i128
    ensures { result ≡ (if is_empty literals.now then coefficient else pos 0) }
{
    if literals.is_empty() { coefficient } else { 0 }
}

/// A sum of two numbers.
pub(crate) fn plus(bound: i128, coefficient: i128) -> i128
    requires { unsigned_abs bound + unsigned_abs coefficient < 2 ^ 100 }
    ensures { result ≡ bound +ℤ coefficient }
{
    bound + coefficient
}

/// Appends a line as written, where it is kept, and puts its literals in order, each once.
pub(crate) fn keep_line(
    lines: &mut LineList,
    literals: &mut Vec<Literal>,
    coefficient: i128,
    line: u64,
) -> Result<(), NoMemory>
    ensures { OnOk result (lines.new
        ≡ lines.old ++ kept_line (written literals.old.items coefficient line)) }
{
    if literals.is_empty() {
        return Ok(());
    }
    make_set(literals);
    if clashes(literals) {
        return Ok(());
    }
    lines.push(literals, coefficient, line)
}
