//! Every line of a text that is a state, one after the other.
//!
//! A line is judged where it stands in the text, and a state's bits go into a buffer that is lent, so
//! nothing here takes memory.
ghost use Rattle.std.specs.Prelude.{◌≡◌, ◌+◌, ◌≤◌, ◌<◌, ◌^◌, ◌∷◌, [], All, length, map, IfSome, MatchOption, option_copied};
ghost use Rattle.state_file.specs.States.{is_one, lines_left, lines_of, states_of, trimmed_line};

use crate::reading::{is_one, is_state, trimmed_line};
use std::marker::Model;
use whole_text::line_len;

/// The first line of a text, trimmed, and what follows its line feed, where it has one.
fn cut_line(text: &[u8]) -> (&[u8], Option<&[u8]>)
    ensures { lines_of text.now ≡ result.0.now ∷ lines_left (option_copied result.1) }
{
    let end = line_len(text);
    let line = trimmed_line(&text[..end]);
    if end == text.len() {
        (line, None)
    } else {
        (line, Some(&text[end + 1..]))
    }
}

/// Writes the bits of a state into a buffer.
fn write_bits(state: &[u8], bits: &mut [bool])
    requires { length bits.old ≡ length state.now }
    ensures { bits.new ≡ map is_one state.now }
{
    for i in 0..bits.len() {
        bits[i] = is_one(state[i]);
    }
}

/// The states of a text, in their order, which contracts see as those that are left.
#[derive(Drop)]
pub struct States<'a> {
    rest: Option<&'a [u8]>,
    number: u64,
    width: usize,
}

impl<'a> Model for States<'a> {
    ghost use Rattle.std.specs.Prelude.{◌+◌, ◌^◌, ◌<◌, length, option_copied};
    ghost use Rattle.state_file.specs.States.{StatesLeft, lines_left, states_from};

    ghost Value = { StatesLeft };

    ghost view = { λ s. record {
      width = s.width;
      states = states_from s.width (s.number + 1) (lines_left (option_copied s.rest));
    } };

    ghost invariant = { λ s. s.number + length (lines_left (option_copied s.rest)) < 2 ^ 64 };
}

impl<'a> States<'a> {
    /// The states of so many bits that a text holds.
    pub fn new(text: &'a [u8], width: usize) -> States<'a>
        ensures width { result.width ≡ width }
        ensures states { result.states ≡ states_of width text.now }
        ensures few { length result.states ≤ length text.now + 1 }
        ensures numbers { All (λ state. state.0 ≤ length text.now + 1) result.states }
    {
        States {
            rest: Some(text),
            number: 0,
            width,
        }
    }

    /// The next line that is a state, trimmed, and its number.
    pub(crate) fn next_line(&mut self) -> Option<(u64, &'a [u8])>
        ensures width { self.new.width ≡ self.old.width }
        ensures next { MatchOption result ((self.old.states ≡ []) × (self.new.states ≡ []))
            (λ found. self.old.states ≡ (found.0, map is_one found.1.now) ∷ self.new.states) }
        ensures fits { IfSome result (λ found. length found.1.now ≡ self.old.width) }
    {
        while let Some(text) = self.rest {
            let (line, rest) = cut_line(text);
            self.rest = rest;
            self.number += 1;
            if is_state(line, self.width) {
                return Some((self.number, line));
            }
        }
        None
    }

    /// Writes the bits of the next state into a buffer, and says which line it is, counted from 1
    /// over all lines of the text. Where no state is left, the bits mean nothing.
    pub fn next_into(&mut self, bits: &mut [bool]) -> Option<u64>
        requires { length bits.old ≡ self.old.width }
        ensures width { self.new.width ≡ self.old.width }
        ensures next { MatchOption result ((self.old.states ≡ []) × (self.new.states ≡ []))
            (λ line. self.old.states ≡ (line, bits.new) ∷ self.new.states) }
    {
        let (number, line) = self.next_line()?;
        write_bits(line, bits);
        Some(number)
    }
}

/// How many states of so many bits a text holds.
pub fn count_states(text: &[u8], width: usize) -> usize
    ensures { result ≡ length (states_of width text.now) }
{
    let mut states = States::new(text, width);
    let mut count = 0;
    while states.next_line().is_some() {
        count += 1;
    }
    count
}
