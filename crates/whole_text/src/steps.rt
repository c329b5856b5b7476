//! The steps that readers are made of: each gives a value, or the first fault.
//!
//! A reading is a function of the words that the tokens stand for. `end` is the line of the last
//! one, where a text that ends too soon has its fault.

ghost use Rattle.std.specs.Prelude.{◌≡◌, ◌<◌, ◌^◌, nat_abs, IfOk, if◌then◌else◌};
ghost use Rattle.std.specs.Char.{is_ascii_digit};
ghost use Rattle.std.specs.List.{list_all};
ghost use Rattle.whole_text.specs.declared.faults.TextKind.TheVariants as kinds;
ghost use Rattle.whole_text.specs.Numbers.{are_digits};
ghost use Rattle.whole_text.specs.TokenTexts.{word_of};
ghost use Rattle.whole_text.specs.Steps.{GivesAlways, fault, next_of, integer_at, natural_at};

use crate::faults::{TextFault, TextKind};
use crate::numbers::number;
use crate::words::{WordRef, Words};

/// A fault of this kind on this line.
pub fn fault(kind: TextKind, line: u64) -> TextFault
    ensures { result ≡ fault kind line }
{
    TextFault { kind, line }
}

/// Whether all bytes are ASCII digits.
fn all_digits(bytes: &[u8]) -> bool
    ensures { result ≡ list_all is_ascii_digit bytes.now }
{
    bytes.iter().all(|byte| byte.is_ascii_digit())
}

/// What bytes are that stand for no number in its range: digits that do not fit, or no digits.
#[inline(never)]
pub fn kind_of_digits(bytes: &[u8]) -> TextKind
    ensures { result ≡ (if are_digits bytes.now then kinds.Range else kinds.Word) }
{
    if bytes.len() > 0 && all_digits(bytes) {
        TextKind::Range
    } else {
        TextKind::Word
    }
}

/// The next word, or the fault that the text ended.
#[inline(always)]
pub fn next_word<'a>(words: &mut Words<'a>, end: u64) -> Result<WordRef<'a>, TextFault>
    ensures { GivesAlways (λ w. (word_of w, words.new)) result (next_of end words.old) }
{
    match words.next() {
        Some(word) => Ok(word),
        None => Err(fault(TextKind::End, end)),
    }
}

/// A number.
#[tactic(auto, unfolding(crate::specs::Steps::integer_at))]
#[inline(always)]
pub fn integer_word(word: WordRef<'_>) -> Result<i128, TextFault>
    ensures value { result ≡ integer_at (word_of word.entry) }
    ensures small { IfOk result (λ z. nat_abs z < 2 ^ 64) }
{
    number(word.bytes).ok_or(fault(TextKind::Number, word.line))
}

/// A number that is at least this.
#[tactic(auto, unfolding(crate::specs::Steps::natural_at))]
#[inline(always)]
pub fn natural_word(word: WordRef<'_>, least: u64) -> Result<u64, TextFault>
    ensures { result ≡ natural_at least (word_of word.entry) }
{
    match u64::try_from(integer_word(word)?) {
        Ok(n) if n >= least => Ok(n),
        Ok(_) | Err(_) => Err(fault(TextKind::Range, word.line)),
    }
}
