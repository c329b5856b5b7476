//! The reading of a QUBO text.
ghost use Rattle.std.specs.Prelude.{◌≡◌, ◌≤◌, ◌^◌, length};
ghost use Rattle.whole_text.specs.TokenTexts.{words_of};
ghost use Rattle.whole_text.specs.Steps.{Gives};
ghost use Rattle.entry_reader.specs.declared.layout.Layout.TheVariants.{Qubo};
ghost use Rattle.entry_reader.specs.Problems.{normal_reading, problem_of_words};

use entry_reader::{Layout, read_entries, read_entries_tokens};
use problem_form::Problem;
use std::alloc::Global;
use whole_text::{TextAnswer, TokenText};

/// The problem of a text, in normal form, or the first fault of the text. Each entry is the product
/// of one variable or of two.
pub fn read_qubo(alloc: Global, text: &[u8]) -> Result<Problem, TextAnswer>
    requires { length text.now ≤ 2 ^ 24 }
    ensures { Gives (λ problem. problem) result (normal_reading Qubo text.now) }
{
    read_entries(alloc, Layout::Qubo, text)
}

/// The same, of a text that was cut into words.
pub fn read_qubo_tokens(alloc: Global, text: &TokenText) -> Result<Problem, TextAnswer>
    requires { length text.now.bytes ≤ 2 ^ 24 }
    ensures { Gives (λ problem. problem) result (problem_of_words Qubo (words_of text.now)) }
{
    read_entries_tokens(alloc, Layout::Qubo, text)
}
