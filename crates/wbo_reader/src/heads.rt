//! What stands before the constraints of a text, and before the sum of a constraint.
ghost use Rattle.std.specs.Prelude.{◌≡◌, ◌≢◌, ◌+◌, ◌*◌, ◌^◌, ◌≤◌, List, Some, length, unwrap_or, OnOk, IfOk};
ghost use Rattle.whole_text.specs.Tokens.{Word};
ghost use Rattle.whole_text.specs.TokenTexts.{word_of};
ghost use Rattle.whole_text.specs.Steps.{GivesAlways};
ghost use Rattle.wbo_reader.specs.Reading.{after_word, weight_at, front_at, top_at, head_at};

use opb_reader::closed;
use whole_text::{TextFault, TextKind, WordRef, Words, fault, natural_word, next_word};

/// A word that is to have these bytes.
fn wanted(word: WordRef<'_>, bytes: &[u8]) -> Result<(), TextFault>
    ensures { (ws : List Word) → GivesAlways (λ _. ws) result
        (after_word bytes.now (word_of word.entry, ws)) }
{
    if word.bytes == bytes {
        Ok(())
    } else {
        Err(fault(TextKind::Word, word.line))
    }
}

/// A weight and its `]`.
#[tactic(auto, using(whole_text::proofs::Lengths::next_less), unfolding(crate::specs::Reading::weight_at))]
fn weight(words: &mut Words<'_>, end: u64) -> Result<u64, TextFault>
    ensures read { GivesAlways (λ weight. (weight, words.new)) result (weight_at end words.old) }
    ensures shorter { OnOk result (1 + length words.new ≤ length words.old) }
{
    let number = next_word(words, end)?;
    let weight = natural_word(number, 0)?;
    let close = next_word(words, end)?;
    wanted(close, b"]")?;
    Ok(weight)
}

/// The weight of the constraint that begins with this word, if it is soft, and the first word of
/// its sum.
#[tactic(auto, using(whole_text::proofs::Lengths::next_less), unfolding(crate::specs::Reading::front_at))]
pub(crate) fn front<'a>(
    first: WordRef<'a>,
    words: &mut Words<'a>,
    end: u64,
) -> Result<(Option<u64>, WordRef<'a>), TextFault>
    ensures read { GivesAlways (λ x. (x.0, word_of x.1, words.new)) result
        (front_at end (word_of first.entry) words.old) }
    ensures small { IfOk result (λ x. unwrap_or x.0 0 + length words.new * 2 ^ 64
        ≤ length words.old * 2 ^ 64) }
{
    if first.bytes != b"[".as_slice() {
        return Ok((None, first));
    }
    let weight = weight(words, end)?;
    let first = next_word(words, end)?;
    Ok((Some(weight), first))
}

/// A `;`, or a top and its `;`.
#[tactic(auto, using(whole_text::proofs::Lengths::next_less), unfolding(crate::specs::Reading::top_at))]
fn top(words: &mut Words<'_>, end: u64) -> Result<Option<u64>, TextFault>
    ensures read { GivesAlways (λ top. (top, words.new)) result (top_at end words.old) }
    ensures some { IfOk result (λ top. top ≢ Some 0) }
    ensures small { IfOk result (λ top. unwrap_or top 0 + length words.new * 2 ^ 64
        ≤ length words.old * 2 ^ 64) }
{
    let word = next_word(words, end)?;
    if word.bytes == b";".as_slice() {
        return Ok(None);
    }
    let top = natural_word(word, 1)?;
    closed(words, end)?;
    Ok(Some(top))
}

/// `soft:`, and a top or none.
#[tactic(auto, using(whole_text::proofs::Lengths::next_less), unfolding(crate::specs::Reading::head_at))]
pub(crate) fn head(words: &mut Words<'_>, end: u64) -> Result<Option<u64>, TextFault>
    ensures read { GivesAlways (λ top. (top, words.new)) result (head_at end words.old) }
    ensures some { IfOk result (λ top. top ≢ Some 0) }
    ensures small { IfOk result (λ top. unwrap_or top 0 + length words.new * 2 ^ 64
        ≤ length words.old * 2 ^ 64) }
{
    let first = next_word(words, end)?;
    wanted(first, b"soft:")?;
    top(words, end)
}
