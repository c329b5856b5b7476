//! The words of a text, taken one by one.
ghost use Rattle.std.specs.Prelude.{◌≡◌, ◌∷◌, [], MatchOption, drop};
ghost use Rattle.whole_text.specs.TokenTexts.{word_of};
ghost use Rattle.whole_text.specs.Packed.{strides, words_along, IsCursor};

use crate::packed::Stride;
use std::marker::Model;

/// A word: its bytes, and its line.
#[derive(Clone, Copy)]
pub struct WordRef<'a> {
    pub bytes: &'a [u8],
    pub line: u64,
}

/// The words that are left of a text, from the next one on.
#[derive(Drop)]
pub struct Words<'a> {
    bytes: &'a [u8],
    marks: &'a [u8],
    wide: &'a [Stride],
    line: u64,
}

impl<'a> Model for Words<'a> {
    ghost use Rattle.std.specs.Prelude.{List};
    ghost use Rattle.whole_text.specs.Tokens.{Word};
    ghost use Rattle.whole_text.specs.Packed.{strides, words_along, IsCursor};

    ghost Value = { List Word };

    ghost view = { λ ws. words_along ws.line ws.bytes.now (strides ws.marks.now ws.wide.now) };

    ghost invariant = { λ ws. IsCursor ws.line ws.bytes.now ws.marks.now ws.wide.now };
}

impl<'a> Words<'a> {
    /// The words that these marks and wide strides cut from the bytes.
    pub(crate) fn new(bytes: &'a [u8], marks: &'a [u8], wide: &'a [Stride]) -> Words<'a>
        requires { IsCursor 1 bytes.now marks.now wide.now }
        ensures { result ≡ words_along 1 bytes.now (strides marks.now wide.now) }
    {
        Words {
            bytes,
            marks,
            wide,
            line: 1,
        }
    }

    /// Takes the next word. `None` where no word is left.
    #[inline(always)]
    pub fn next(&mut self) -> Option<WordRef<'a>>
        ensures { MatchOption result ((self.old ≡ []) × (self.new ≡ []))
            (λ w. self.old ≡ word_of w ∷ self.new) }
    {
        match self.marks {
            [] => None,
            [mark, marks @ ..] if *mark != 0 => {
                let (bytes, rest) = self.bytes.split_at(usize::from(*mark % 128));
                self.line += u64::from(*mark / 128);
                self.bytes = rest;
                self.marks = marks;
                Some(WordRef {
                    bytes,
                    line: self.line,
                })
            }
            [_, marks @ ..] => match self.wide {
                [] => None,
                [stride, wide @ ..] => {
                    let (bytes, rest) = self.bytes.split_at(stride.len);
                    self.line += stride.lines;
                    self.bytes = rest;
                    self.marks = marks;
                    self.wide = wide;
                    Some(WordRef {
                        bytes,
                        line: self.line,
                    })
                }
            },
        }
    }

    /// The next word, which stays. `None` where no word is left.
    pub fn peek(&self) -> Option<WordRef<'a>>
        ensures { MatchOption result (self.now ≡ []) (λ w. self.now ≡ word_of w ∷ drop 1 self.now) }
    {
        let mut ahead = Words {
            bytes: self.bytes,
            marks: self.marks,
            wide: self.wide,
            line: self.line,
        };
        ahead.next()
    }
}
