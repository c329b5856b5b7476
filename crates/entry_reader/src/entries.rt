//! An entry of a text: the numbers of two nodes, and a weight.
ghost use Rattle.std.specs.Prelude.{◌≡◌, ◌<◌, ◌≤◌, ◌∷◌, [], length, IfOk, OnOk};
ghost use Rattle.whole_text.specs.TokenTexts.{word_of};
ghost use Rattle.whole_text.specs.Steps.{GivesAlways};
ghost use Rattle.entry_reader.specs.Entries.{IsListed, node_at, one_fewer, counted, entry_at, none_to_come};

use crate::layout::{Counts, Listed};
use whole_text::{
    TextFault, TextKind, WordRef, Words, fault, integer_word, natural_word, next_word,
};

/// One of the nodes.
#[tactic(auto, unfolding(crate::specs::Entries::node_at))]
#[inline(always)]
fn node(word: WordRef<'_>, nodes: u64) -> Result<u64, TextFault>
    ensures read { result ≡ node_at nodes (word_of word.entry) }
    ensures within { IfOk result (λ n. n < nodes) }
{
    let node = natural_word(word, 0)?;
    if node < nodes {
        Ok(node)
    } else {
        Err(fault(TextKind::Range, word.line))
    }
}

/// One fewer, or the fault that nothing more may stand on this line.
#[tactic(auto, unfolding(crate::specs::Entries::one_fewer))]
#[inline(always)]
fn one_fewer(line: u64, count: u64) -> Result<u64, TextFault>
    ensures { result ≡ one_fewer line count }
{
    if count == 0 {
        Err(fault(TextKind::Extra, line))
    } else {
        Ok(count - 1)
    }
}

/// What may come after an entry of these nodes.
#[tactic(auto, unfolding(crate::specs::Entries::counted))]
#[inline(always)]
fn counted(line: u64, counts: Counts, first: u64, second: u64) -> Result<Counts, TextFault>
    ensures read { result ≡ counted line counts first second }
    ensures same { IfOk result (λ fewer. fewer.nodes ≡ counts.nodes) }
{
    let mut fewer = counts;
    if first == second {
        fewer.entries = one_fewer(line, counts.entries)?;
    } else {
        fewer.couplers = one_fewer(line, counts.couplers)?;
    }
    Ok(fewer)
}

/// The entry that begins with this word, and what may come after it.
#[tactic(auto, using(whole_text::proofs::Lengths::next_less), unfolding(crate::specs::Entries::entry_at))]
#[inline(always)]
pub(crate) fn entry(
    first: WordRef<'_>,
    words: &mut Words<'_>,
    counts: Counts,
    end: u64,
) -> Result<(Listed, Counts), TextFault>
    ensures read { GivesAlways (λ x. (x.0, x.1, words.new)) result
        (entry_at end counts (word_of first.entry ∷ words.old)) }
    ensures listed { IfOk result (λ x. IsListed counts.nodes x.0 x.1) }
    ensures shorter { OnOk result (length words.new ≤ length words.old) }
{
    let first = node(first, counts.nodes)?;
    let word = next_word(words, end)?;
    let second = node(word, counts.nodes)?;
    let fewer = counted(word.line, counts, first, second)?;
    let word = next_word(words, end)?;
    let weight = integer_word(word)?;
    let entry = Listed {
        first,
        second,
        weight,
    };
    Ok((entry, fewer))
}

/// Nothing, where nothing is to come, and else the fault that the text ended.
#[tactic(auto, unfolding(crate::specs::Entries::none_to_come))]
pub(crate) fn none_to_come(end: u64, counts: Counts) -> Result<(), TextFault>
    ensures { GivesAlways (λ _. []) result (none_to_come end counts) }
{
    if counts.entries == 0 && counts.couplers == 0 {
        Ok(())
    } else {
        Err(fault(TextKind::End, end))
    }
}
