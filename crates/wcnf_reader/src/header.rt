//! The header of a text: `p wcnf VARIABLES CLAUSES TOP` on one line, TOP left out or not.
ghost use Rattle.std.specs.Prelude.{◌≡◌, ◌≤◌, length, OnOk};
ghost use Rattle.whole_text.specs.TokenTexts.{word_of};
ghost use Rattle.whole_text.specs.Steps.{GivesAlways};
ghost use Rattle.wcnf_reader.specs.Wcnf.{wanted_word, header_number, top_at, header_at};
ghost use Rattle.wcnf_reader.specs.Views.{header_of};

use whole_text::{TextFault, TextKind, WordRef, Words, fault, natural_word, next_word};

/// The numbers of the header. Without a TOP every clause is soft.
#[derive(Clone, Copy)]
pub(crate) struct Start {
    pub variables: u64,
    pub clauses: u64,
    pub top: Option<u64>,
}

/// These bytes, on this line.
#[inline(always)]
#[tactic(auto, unfolding(crate::specs::Wcnf::wanted_word))]
fn wanted_word(word: WordRef<'_>, line: u64, bytes: &[u8]) -> Result<u64, TextFault>
    ensures { result ≡ wanted_word line bytes.now (word_of word.entry) }
{
    if word.line == line && word.bytes == bytes {
        Ok(line)
    } else {
        Err(fault(TextKind::Word, word.line))
    }
}

/// A number on this line.
#[inline(always)]
#[tactic(auto, unfolding(crate::specs::Wcnf::header_number))]
fn header_number(word: WordRef<'_>, line: u64) -> Result<u64, TextFault>
    ensures { result ≡ header_number line (word_of word.entry) }
{
    if word.line == line {
        natural_word(word, 0)
    } else {
        Err(fault(TextKind::Word, word.line))
    }
}

/// The last number of the header, if anything more stands on its line.
#[inline(always)]
#[tactic(auto, unfolding(crate::specs::Wcnf::top_at, crate::specs::Wcnf::at_line_end))]
fn top(words: &mut Words<'_>, line: u64) -> Result<Option<u64>, TextFault>
    ensures read { GivesAlways (λ top. (top, words.new)) result (top_at line words.old) }
    ensures shorter { OnOk result (length words.new ≤ length words.old) }
{
    match words.peek() {
        Some(word) if word.line == line => {
            words.next();
            let top = natural_word(word, 1)?;
            match words.peek() {
                Some(after) if after.line == line => Err(fault(TextKind::Extra, line)),
                _ => Ok(Some(top)),
            }
        }
        _ => Ok(None),
    }
}

/// The header, and what is left.
#[inline(always)]
#[tactic(auto, using(whole_text::proofs::Lengths::next_less), unfolding(crate::specs::Wcnf::header_at))]
pub(crate) fn header(words: &mut Words<'_>, line: u64, end: u64) -> Result<Start, TextFault>
    ensures read { GivesAlways (λ start. (header_of start, words.new)) result
        (header_at line end words.old) }
    ensures shorter { OnOk result (length words.new ≤ length words.old) }
{
    let format = next_word(words, end)?;
    wanted_word(format, line, b"wcnf")?;
    let variables = next_word(words, end)?;
    let variables = header_number(variables, line)?;
    let clauses = next_word(words, end)?;
    let clauses = header_number(clauses, line)?;
    let top = top(words, line)?;
    Ok(Start {
        variables,
        clauses,
        top,
    })
}
