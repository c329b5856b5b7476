//! The text of a map: a line for each node, with its number and the qubits of its chain.
ghost use Rattle.std.specs.Prelude.{◌≡◌, ◌≤◌, length, map, take, slice_range, IfOk};
ghost use Rattle.std.specs.List.{position_or_len};
ghost use Rattle.whole_text.specs.declared.token.Style.TheVariants.{Plain};
ghost use Rattle.whole_text.specs.Tokens.{is_blank, word, words, tokens_of_line};
ghost use Rattle.whole_text.specs.Steps.{Gives, GivesAlways, natural_at};
ghost use Rattle.whole_text.specs.Rows.{each};
ghost use Rattle.chain_map.specs.Maps.{node_at, after_front, chain_at, reading};

use crate::digits::first_number;
use crate::map::ChainMap;
use std::alloc::Global;
use whole_text::{TextAnswer, TextFault, TextKind, blank_len, fault, is_blank, line_len};

/// The length of the first word, where it is the number of this node.
#[tactic(auto, unfolding(crate::specs::Maps::node_at))]
fn node_len(bytes: &[u8], line: u64, node: u64) -> Result<usize, TextFault>
    ensures value { GivesAlways (λ _. node) result
        (node_at node (word line (take (position_or_len is_blank bytes.now) bytes.now))) }
    ensures len { IfOk result (λ len. len ≡ position_or_len is_blank bytes.now) }
{
    let (found, len) = first_number(bytes, line)?;
    if found == node {
        Ok(len)
    } else {
        Err(fault(TextKind::Range, line))
    }
}

/// The numbers of the words that stand from `from` to `end`, all of them on this line, in place of
/// what the list had.
fn fill_qubits(
    text: &[u8],
    from: usize,
    end: usize,
    line: u64,
    qubits: &mut Vec<u64>,
) -> Result<(), TextAnswer>
    requires ordered { from ≤ end }
    requires within { end ≤ length text.now }
    ensures { Gives (λ _. qubits.new.items) result
        (each (natural_at 0) (map (word line) (words (slice_range text.now from end)))) }
{
    qubits.clear();
    let mut at = from;
    while at < end {
        if is_blank(text[at]) {
            at += 1;
        } else {
            let (qubit, len) = first_number(&text[at..end], line)?;
            qubits.push(qubit)?;
            at += len;
        }
    }
    Ok(())
}

/// Adds the chain that the words of a line say, if it has words and is no comment. Its numbers are
/// read into a list that is used again for the next line.
fn push_row(
    text: &[u8],
    start: usize,
    end: usize,
    line: u64,
    map: &mut ChainMap,
    qubits: &mut Vec<u64>,
) -> Result<(), TextAnswer>
    requires ordered { start ≤ end }
    requires within { end ≤ length text.now }
    ensures { Gives (λ _. map.new) result (after_front map.old
        (chain_at (length map.old) (tokens_of_line Plain line (slice_range text.now start end)))) }
{
    let at = start + blank_len(&text[start..end]);
    if at == end || text[at] == b'c' {
        return Ok(());
    }
    let len = node_len(&text[at..end], line, map.len() as u64)?;
    fill_qubits(text, at + len, end, line, qubits)?;
    map.push(qubits)?;
    Ok(())
}

/// The map of a text, or the first fault of the text.
pub fn read_map(alloc: Global, text: &[u8]) -> Result<ChainMap, TextAnswer>
    ensures { Gives (λ map. map) result (reading text.now) }
{
    let mut map = ChainMap::new(alloc);
    let mut qubits = Vec::new(alloc);
    let mut start = 0;
    let mut line = 1;
    loop {
        let end = start + line_len(&text[start..]);
        push_row(text, start, end, line, &mut map, &mut qubits)?;
        if end == text.len() {
            return Ok(map);
        }
        start = end + 1;
        line += 1;
    }
}
