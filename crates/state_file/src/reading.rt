//! The first line of a text that is a state.
//!
//! A line is judged where it stands in the text, and only of the first that is a state are bits made.

ghost use Rattle.std.specs.Prelude.{◌≡◌, ◌≤◌, length, map, IfOk, IsErrOf, None, Some};
ghost use Rattle.std.specs.List.{list_all, suffix_len};
ghost use Rattle.whole_text.specs.Tokens.{is_blank};
ghost use Rattle.state_file.specs.States.{is_zero, is_one, is_bit, is_state, trimmed_line, state_of};

use crate::answer::StateAnswer;
use crate::lines::States;
use base::NoMemory;
use std::alloc::Global;
use whole_text::{blank_len, is_blank};

fn is_zero(byte: u8) -> bool
    ensures { result ≡ is_zero byte }
{
    byte == b'0' || byte == b'-'
}

pub(crate) fn is_one(byte: u8) -> bool
    ensures { result ≡ is_one byte }
{
    byte == b'1' || byte == b'+'
}

fn blanks_at_end(line: &[u8]) -> usize
    ensures count { result ≡ suffix_len is_blank line.now }
    ensures within { result ≤ length line.now }
{
    line.iter()
        .rev()
        .take_while(|byte| is_blank(**byte))
        .count()
}

#[tactic(auto, using(crate::proofs::StateLines::blanks_in_front))]
pub(crate) fn trimmed_line(line: &[u8]) -> &[u8]
    ensures { result.now ≡ trimmed_line line.now }
{
    let rest = &line[blank_len(line)..];
    &rest[..rest.len() - blanks_at_end(rest)]
}

fn is_bit(byte: u8) -> bool
    ensures { result ≡ is_bit byte }
{
    is_zero(byte) || is_one(byte)
}

/// Whether each byte stands for a bit. All are looked at, so that many are at once.
fn are_bits(bytes: &[u8]) -> bool
    ensures { result ≡ list_all is_bit bytes.now }
{
    let mut all = true;
    for byte in bytes {
        all &= is_bit(*byte);
    }
    all
}

/// Whether a trimmed line is a state of this many bits.
pub(crate) fn is_state(line: &[u8], width: usize) -> bool
    ensures { result ≡ is_state width line.now }
{
    line.len() == width && are_bits(line)
}

fn bits(alloc: Global, state: &[u8]) -> Result<Vec<bool>, NoMemory>
    ensures { IfOk result (λ bits. bits.items ≡ map is_one state.now) }
{
    Ok(state.iter().map(|byte| is_one(*byte)).collect(alloc)?)
}

/// The bits of the first line that is a state of `length` bits, and `NoState` where no line is one.
pub fn read_state(alloc: Global, text: &[u8], length: usize) -> Result<Vec<bool>, StateAnswer>
    ensures state { IfOk result (λ bits. state_of length text.now ≡ Some bits.items) }
    ensures no_state { IsErrOf result StateAnswer.NoState → state_of length text.now ≡ None }
{
    let mut states = States::new(text, length);
    match states.next_line() {
        Some((_, state)) => Ok(bits(alloc, state)?),
        None => Err(StateAnswer::NoState),
    }
}
