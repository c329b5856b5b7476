//! Words of 64 bits that mark assignments.
ghost use Rattle.std.specs.Prelude.{ℕ, ◌≡◌, ◌<◌, ◌==◌, if◌then◌else◌};
ghost use Rattle.std.specs.List.{slice_index_or};
ghost use Rattle.literal_lists.specs.Literals.{all_hold, holds};
ghost use Rattle.batch_costs.specs.Assigned.{assignment, is_marked};

use literal_lists::{Literal, Literals};

/// The word with a bit at a place, and its other bits as they are.
#[inline]
pub(crate) fn with_bit(word: u64, place: usize, bit: bool) -> u64
    requires { place < 64 }
    ensures { (k : ℕ) → k < 64
        → is_marked result k ≡ (if k == place then bit else is_marked word k) }
{
    if bit {
        word | 1 << place
    } else {
        word & !(1 << place)
    }
}

/// The word of a variable. No assignment is marked past the last one.
#[inline]
pub(crate) fn word_of(words: &[u64], variable: u64) -> u64
    ensures { result ≡ slice_index_or words.now variable 0 }
{
    match words.get(variable as usize) {
        Some(word) => *word,
        None => 0,
    }
}

/// The assignments that a literal is true under.
fn marks_of(literal: Literal, words: &[u64]) -> u64
    ensures { (k : ℕ) → k < 64
        → is_marked result k ≡ holds (assignment words.now k) literal }
{
    let word = word_of(words, literal.variable);
    if literal.negated { !word } else { word }
}

/// The assignments that all literals are true under.
#[inline]
pub(crate) fn marks_of_all(literals: Literals<'_>, words: &[u64]) -> u64
    ensures { (k : ℕ) → k < 64
        → is_marked result k ≡ all_hold (assignment words.now k) literals.entry }
{
    let mut marks = u64::MAX;
    for literal in literals {
        marks &= marks_of(literal, words);
    }
    marks
}
