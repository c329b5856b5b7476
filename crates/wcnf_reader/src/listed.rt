//! A clause of a text: a weight or `h`, literals, and a number of value 0.
ghost use Rattle.std.specs.Prelude.{◌≡◌, ◌+◌, ◌<◌, ◌≤◌, ◌^◌, [], length, Some, None, All, OnOk, IfOk, IfSome, unwrap_or};
ghost use Rattle.whole_text.specs.TokenTexts.{word_of};
ghost use Rattle.whole_text.specs.Steps.{Gives, GivesAlways};
ghost use Rattle.wcnf_reader.specs.Wcnf.{mark_of};
ghost use Rattle.wcnf_reader.specs.declared.layout.ClauseLayout.TheVariants.{Older};
ghost use Rattle.wcnf_reader.specs.Views.{weight_kept, weight_read, literal_read, literals_read, bound_of, widened, clause_read};

use crate::layout::ClauseLayout;
use literal_lists::Literal;
use whole_text::{
    TextAnswer, TextFault, TextKind, WordRef, Words, fault, integer_word, natural_word, number,
};

/// The weight of a clause of the older layout, or `None` for a hard one: there is a TOP, and the
/// weight is at least TOP.
#[inline(always)]
fn soft_below(top: Option<u64>, weight: u64) -> Option<u64>
    ensures { result ≡ weight_kept (Older top) (Some weight) }
{
    match top {
        Some(top) if weight >= top => None,
        _ => Some(weight),
    }
}

/// `h` as `None`, or a weight.
#[inline(always)]
#[tactic(auto, unfolding(crate::specs::Wcnf::mark_of))]
fn mark(word: WordRef<'_>) -> Result<Option<u64>, TextFault>
    ensures { result ≡ mark_of (word_of word.entry) }
{
    if word.bytes == b"h".as_slice() {
        return Ok(None);
    }
    let number = number(word.bytes).ok_or(fault(TextKind::Word, word.line))?;
    match u64::try_from(number) {
        Ok(weight) => Ok(Some(weight)),
        Err(_) => Err(fault(TextKind::Range, word.line)),
    }
}

/// The weight of a clause, from its first word. `None` for a hard clause.
#[inline(always)]
fn weight(word: WordRef<'_>, layout: ClauseLayout) -> Result<Option<u64>, TextFault>
    ensures { GivesAlways (λ weight. weight) result (weight_read layout (word_of word.entry)) }
{
    match layout {
        ClauseLayout::Older(top) => Ok(soft_below(top, natural_word(word, 0)?)),
        ClauseLayout::WithoutHeader => mark(word),
    }
}

/// A literal of one of so many variables, or of any without a count. `None` for 0.
#[inline(always)]
#[tactic(auto, unfolding(crate::specs::Wcnf::literal_at))]
fn literal(word: WordRef<'_>, variables: Option<u64>) -> Result<Option<Literal>, TextFault>
    ensures read { GivesAlways (λ l. l) result (literal_read variables (word_of word.entry)) }
    ensures within { IfOk result (λ o. IfSome o (λ l. l.variable < bound_of variables)) }
{
    let number = integer_word(word)?;
    let size = number.unsigned_abs();
    if variables.is_some_and(|variables| size > u128::from(variables)) {
        return Err(fault(TextKind::Range, word.line));
    }
    if size == 0 {
        return Ok(None);
    }
    Ok(Some(Literal {
        variable: (size - 1) as u64,
        negated: number < 0,
    }))
}

/// Puts the literals up to a 0 into a list that is empty.
#[inline(always)]
fn literals(
    words: &mut Words<'_>,
    list: &mut Vec<Literal>,
    variables: Option<u64>,
    end: u64,
) -> Result<(), TextAnswer>
    requires { list.old.items ≡ [] }
    ensures read { Gives (λ _. (list.new.items, words.new)) result
        (literals_read variables end words.old) }
    ensures within { OnOk result (All (λ l. l.variable < bound_of variables) list.new.items) }
    ensures shorter { OnOk result (length words.new ≤ length words.old) }
{
    while let Some(word) = words.next() {
        match literal(word, variables)? {
            Some(literal) => list.push(literal)?,
            None => return Ok(()),
        }
    }
    Err(TextAnswer::Bad(fault(TextKind::End, end)))
}

/// The clause that begins with this word: its literals go into a list that is empty, and its weight
/// is the answer, `None` for a hard one.
#[inline(always)]
#[tactic(auto, unfolding(crate::specs::Wcnf::clause_at))]
pub(crate) fn clause(
    first: WordRef<'_>,
    words: &mut Words<'_>,
    list: &mut Vec<Literal>,
    layout: ClauseLayout,
    variables: Option<u64>,
    end: u64,
) -> Result<Option<u64>, TextAnswer>
    requires { list.old.items ≡ [] }
    ensures read { Gives
        (λ weight. (record { literals = list.new.items; weight = weight }, words.new)) result
        (clause_read layout variables end (word_of first.entry) words.old) }
    ensures within { OnOk result (All (λ l. l.variable < bound_of variables) list.new.items) }
    ensures small { IfOk result (λ weight. unwrap_or weight 0 < 2 ^ 64) }
    ensures shorter { OnOk result (length words.new ≤ length words.old) }
{
    let weight = weight(first, layout)?;
    literals(words, list, variables, end)?;
    Ok(weight)
}

/// The least number of variables, at least so many, that has all these literals.
#[inline(always)]
pub(crate) fn widened(variables: u64, literals: &[Literal]) -> u64
    requires { All (λ l. l.variable < bound_of None) literals.now }
    ensures least { result ≡ widened variables literals.now }
    ensures wider { variables ≤ result }
    ensures within { All (λ l. l.variable < result) literals.now }
{
    let mut widened = variables;
    for literal in literals {
        widened = widened.max(literal.variable + 1);
    }
    widened
}
