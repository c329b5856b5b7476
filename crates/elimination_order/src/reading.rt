//! The text of an order: the nodes, each once.
ghost use Rattle.std.specs.Prelude.{◌≡◌, ◌<◌, ◌^◌, List, ℕ, [], length, IfOk};
ghost use Rattle.whole_text.specs.TokenTexts.{word_of, words_of};
ghost use Rattle.whole_text.specs.Steps.{Gives, GivesAlways};
ghost use Rattle.elimination_order.specs.Orders.{AreMarks, AreNodes, after_front, new_node, nodes_at, order_of};

use std::alloc::Global;
use whole_text::{TextAnswer, TextFault, TextKind, TokenText, WordRef, Words, fault, natural_word};

/// The node of a word, where it is not marked.
fn node_word(word: WordRef<'_>, marks: &[bool]) -> Result<u64, TextFault>
    ensures read { (named : List ℕ) → AreMarks (length marks.now) marks.now named
        → GivesAlways (λ n. n) result (new_node (length marks.now) named (word_of word.entry)) }
    ensures below { IfOk result (λ node. node < length marks.now) }
{
    let node = natural_word(word, 0)?;
    if node < marks.len() as u64 && !marks[node as usize] {
        Ok(node)
    } else {
        Err(fault(TextKind::Range, word.line))
    }
}

/// The nodes that the words name, and marks of them.
fn read_words(
    words: &mut Words<'_>,
    marks: &mut [bool],
    order: &mut Vec<u64>,
) -> Result<(), TextAnswer>
    requires marks { AreMarks (length marks.old) marks.old [] }
    requires empty { order.old.items ≡ [] }
    ensures { Gives (λ _. order.new.items) result (nodes_at (length marks.old) [] words.old) }
{
    while let Some(word) = words.next() {
        let node = node_word(word, marks)?;
        marks[node as usize] = true;
        order.push(node)?;
    }
    Ok(())
}

/// The order that a text says for so many nodes, or the first fault of the text.
pub fn read_order(alloc: Global, text: &TokenText, nodes: usize) -> Result<Vec<u64>, TextAnswer>
    ensures read { Gives (λ order. order.items) result (order_of nodes (words_of text.now)) }
    ensures nodes { IfOk result (λ order. AreNodes nodes order.items) }
{
    let mut marks = vec![in alloc; false; nodes]?;
    let mut order = Vec::with_capacity(alloc, nodes)?;
    let mut words = text.words();
    read_words(&mut words, &mut marks, &mut order)?;
    if order.len() == nodes {
        Ok(order)
    } else {
        Err(TextAnswer::Bad(fault(TextKind::End, text.end_line())))
    }
}
