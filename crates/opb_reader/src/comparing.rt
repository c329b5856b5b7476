//! What follows the sum of a constraint: an operator, a number and a `;`.
ghost use Rattle.std.specs.Prelude.{◌≡◌, ◌<◌, ◌≤◌, ◌^◌, List, length, nat_abs, All, OnOk, IfOk, unsigned_abs};
ghost use Rattle.whole_text.specs.Tokens.{Word};
ghost use Rattle.whole_text.specs.TokenTexts.{word_of};
ghost use Rattle.whole_text.specs.Steps.{GivesAlways, next_of};
ghost use Rattle.whole_text.specs.Rows.{left};
ghost use Rattle.opb_reader.specs.Opb.{closed_at, comparison_at};
ghost use Rattle.opb_reader.specs.Cost.{compared};

use crate::judging::{is_semicolon, operator};
use crate::operator::Operator;
use problem_form::Constraint;
use whole_text::{TextFault, TextKind, WordRef, Words, fault, integer_word, next_word};

/// A `;`.
#[inline(always)]
#[tactic(auto, using(whole_text::proofs::Lengths::next_less), unfolding(crate::specs::Opb::closed_at))]
pub fn closed(words: &mut Words<'_>, end: u64) -> Result<(), TextFault>
    ensures read { GivesAlways (λ _. words.new) result (closed_at end words.old) }
    ensures shorter { OnOk result (length words.new ≤ length words.old) }
{
    let word = next_word(words, end)?;
    if is_semicolon(word.bytes) {
        Ok(())
    } else {
        Err(fault(TextKind::Word, word.line))
    }
}

/// The word that was taken, if one was left.
#[inline(always)]
fn taken<'a>(next: Option<WordRef<'a>>, end: u64) -> Result<WordRef<'a>, TextFault>
    ensures { (ws : List Word) → GivesAlways (λ w. (word_of w, ws)) result
        (next_of end (left next.entry ws)) }
{
    match next {
        Some(word) => Ok(word),
        None => Err(fault(TextKind::End, end)),
    }
}

/// The operator and the bound of a constraint, and its `;`.
#[inline(always)]
#[tactic(auto, using(whole_text::proofs::Lengths::next_less), unfolding(crate::specs::Opb::comparison_at))]
pub fn comparison<'a>(
    next: Option<WordRef<'a>>,
    words: &mut Words<'a>,
    end: u64,
) -> Result<(Operator, i128), TextFault>
    ensures read { GivesAlways (λ x. (x.0, x.1, words.new)) result
        (comparison_at end (left next.entry words.old)) }
    ensures small { IfOk result (λ x. nat_abs x.1 < 2 ^ 64) }
    ensures shorter { OnOk result (length words.new < length (left next.entry words.old)) }
{
    let word = taken(next, end)?;
    let operator = operator(word)?;
    let number = next_word(words, end)?;
    let bound = integer_word(number)?;
    closed(words, end)?;
    Ok((operator, bound))
}

/// Gives a sum its comparison.
#[inline(always)]
pub fn compare(constraint: &mut Constraint, operator: Operator, bound: i128)
    requires terms { All (λ t. unsigned_abs t.coefficient < 2 ^ 127) constraint.old.products }
    requires bound { nat_abs bound < 2 ^ 64 }
    ensures { constraint.new ≡ compared operator constraint.old.products bound }
{
    constraint.exact = operator == Operator::Equal;
    constraint.bound = bound;
    if operator == Operator::AtMost {
        constraint.products.negate();
        constraint.bound = -bound;
    }
}
