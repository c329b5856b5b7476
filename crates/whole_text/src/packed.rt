//! Tokens that stand one right after another, packed: a byte a token.
ghost use Rattle.std.specs.Prelude.{◌≡◌, ◌++◌, ◌∷◌, [], ◌<◌, ◌≤◌, ◌/◌, ◌%◌, length, OnOk, OnErr};
ghost use Rattle.whole_text.specs.Tokens.{AreJoined, TakeAll, words_at, last_line};
ghost use Rattle.whole_text.specs.Packed.{strides, wide_marks};

use crate::token::Token;
use crate::words::Words;
use base::NoMemory;
use std::alloc::Global;
use std::marker::Model;

/// The length of a word, and how many lines it stands below the word before.
#[derive(Clone, Copy, PartialEq, Eq)]
pub(crate) struct Stride {
    pub len: usize,
    pub lines: u64,
}

/// A list of tokens, each of which begins where the one before ends. It takes a byte a token, and
/// more for a token of more than 127 bytes or more than one line below the one before.
#[derive(Drop)]
pub struct TokenList {
    marks: Vec<u8>,
    wide: Vec<Stride>,
    line: u64,
}

impl Model for TokenList {
    ghost use Rattle.std.specs.Prelude.{List};
    ghost use Rattle.whole_text.specs.declared.token.Token.{Token};
    ghost use Rattle.whole_text.specs.Packed.{strides, placed, IsPacked};

    ghost Value = { List Token };

    ghost view = { λ list. placed 0 1 (strides list.marks.items list.wide.items) };

    ghost invariant = { λ list. IsPacked list.marks.items list.wide.items list.line };
}

impl TokenList {
    /// The list without tokens.
    pub fn new(alloc: Global) -> TokenList
        ensures { result ≡ [] }
    {
        TokenList {
            marks: Vec::new(alloc),
            wide: Vec::new(alloc),
            line: 1,
        }
    }

    /// How many tokens there are.
    pub fn len(&self) -> usize
        ensures { result ≡ length self.now }
    {
        self.marks.as_slice().len()
    }

    /// The line of the last token, or 1 where there is none.
    pub fn last_line(&self) -> u64
        ensures { result ≡ last_line self.now }
    {
        self.line
    }

    /// Appends a token, which begins where the last one ends.
    #[inline(always)]
    pub fn push(&mut self, token: Token) -> Result<(), NoMemory>
        requires joined { AreJoined 0 self.old token.start }
        requires some { token.start < token.end }
        requires below { last_line self.old ≤ token.line }
        ensures pushed { OnOk result (self.new ≡ self.old ++ token ∷ []) }
        ensures unchanged { OnErr result (self.new ≡ self.old) }
    {
        let stride = Stride {
            len: token.end - token.start,
            lines: token.line - self.line,
        };
        push_stride(&mut self.marks, &mut self.wide, stride)?;
        self.line = token.line;
        Ok(())
    }

    /// The words of these bytes, one after the other.
    pub(crate) fn words_in<'a>(&'a self, bytes: &'a [u8]) -> Words<'a>
        requires { TakeAll self.now bytes.now }
        ensures { result ≡ words_at bytes.now self.now }
    {
        Words::new(bytes, &self.marks, &self.wide)
    }
}

/// Appends a stride: as a mark where one can say it.
#[inline(always)]
fn push_stride(marks: &mut Vec<u8>, wide: &mut Vec<Stride>, stride: Stride) -> Result<(), NoMemory>
    requires some { 0 < stride.len }
    requires every { wide_marks marks.old.items ≡ length wide.old.items }
    ensures pushed { OnOk result (strides marks.new.items wide.new.items
        ≡ strides marks.old.items wide.old.items ++ stride ∷ []) }
    ensures unchanged { OnErr result (strides marks.new.items wide.new.items
        ≡ strides marks.old.items wide.old.items) }
    ensures every { wide_marks marks.new.items ≡ length wide.new.items }
{
    if stride.len < 128 && stride.lines < 2 {
        marks.push(stride.lines as u8 * 128 + stride.len as u8)?;
        return Ok(());
    }
    push_wide(marks, wide, stride)
}

/// Appends a stride that no mark can say, with its mark of 0.
#[inline(never)]
fn push_wide(marks: &mut Vec<u8>, wide: &mut Vec<Stride>, stride: Stride) -> Result<(), NoMemory>
    requires { wide_marks marks.old.items ≡ length wide.old.items }
    ensures pushed { OnOk result (strides marks.new.items wide.new.items
        ≡ strides marks.old.items wide.old.items ++ stride ∷ []) }
    ensures unchanged { OnErr result (strides marks.new.items wide.new.items
        ≡ strides marks.old.items wide.old.items) }
    ensures every { wide_marks marks.new.items ≡ length wide.new.items }
{
    wide.push(stride)?;
    match marks.push(0) {
        Ok(()) => Ok(()),
        Err(_) => {
            wide.pop();
            Err(NoMemory)
        }
    }
}
