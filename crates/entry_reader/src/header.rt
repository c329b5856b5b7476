//! The header of a text: `p`, the words of the layout, and the numbers of nodes, of node entries and
//! of couplers.
ghost use Rattle.std.specs.Prelude.{◌≡◌, ◌≤◌, bytes_eq, length, OnOk};
ghost use Rattle.whole_text.specs.Steps.{GivesAlways};
ghost use Rattle.entry_reader.specs.Entries.{name_of, wanted_at, topology_of, count_at, header_at};

use crate::layout::{Counts, Layout};
use whole_text::{TextFault, TextKind, Words, fault, natural_word, next_word};

/// This word.
#[inline(always)]
#[tactic(auto, using(whole_text::proofs::Lengths::next_less), unfolding(crate::specs::Entries::wanted_at))]
fn wanted(words: &mut Words<'_>, end: u64, bytes: &[u8]) -> Result<(), TextFault>
    ensures read { GivesAlways (λ _. words.new) result
        (wanted_at end (bytes_eq bytes.now) words.old) }
    ensures shorter { OnOk result (length words.new ≤ length words.old) }
{
    let word = next_word(words, end)?;
    if bytes == word.bytes {
        Ok(())
    } else {
        Err(fault(TextKind::Word, word.line))
    }
}

/// The word that names a layout.
fn name_of(layout: Layout) -> &'static [u8]
    ensures { result.now ≡ name_of layout }
{
    match layout {
        Layout::Qubo => b"qubo",
        Layout::Ising => b"ising",
    }
}

/// The topology, `0` or `unconstrained`, which a QUBO alone has.
#[inline(always)]
#[tactic(auto, using(whole_text::proofs::Lengths::next_less), unfolding(crate::specs::Entries::wanted_at, crate::specs::Entries::topology_of))]
fn topology_of(words: &mut Words<'_>, layout: Layout, end: u64) -> Result<(), TextFault>
    ensures read { GivesAlways (λ _. words.new) result (topology_of layout end words.old) }
    ensures shorter { OnOk result (length words.new ≤ length words.old) }
{
    match layout {
        Layout::Qubo => {
            let word = next_word(words, end)?;
            if word.bytes == b"0".as_slice() || word.bytes == b"unconstrained".as_slice() {
                Ok(())
            } else {
                Err(fault(TextKind::Word, word.line))
            }
        }
        Layout::Ising => Ok(()),
    }
}

/// A number.
#[inline(always)]
#[tactic(auto, using(whole_text::proofs::Lengths::next_less), unfolding(crate::specs::Entries::count_at))]
fn count(words: &mut Words<'_>, end: u64) -> Result<u64, TextFault>
    ensures read { GivesAlways (λ n. (n, words.new)) result (count_at end words.old) }
    ensures shorter { OnOk result (length words.new ≤ length words.old) }
{
    let word = next_word(words, end)?;
    natural_word(word, 0)
}

/// The header.
#[inline(always)]
#[tactic(auto, unfolding(crate::specs::Entries::header_at))]
pub(crate) fn header(words: &mut Words<'_>, layout: Layout, end: u64) -> Result<Counts, TextFault>
    ensures read { GivesAlways (λ counts. (counts, words.new)) result
        (header_at layout end words.old) }
    ensures shorter { OnOk result (length words.new ≤ length words.old) }
{
    wanted(words, end, b"p")?;
    wanted(words, end, name_of(layout))?;
    topology_of(words, layout, end)?;
    let nodes = count(words, end)?;
    let entries = count(words, end)?;
    let couplers = count(words, end)?;
    Ok(Counts {
        nodes,
        entries,
        couplers,
    })
}
