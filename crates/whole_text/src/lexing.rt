//! The words of a text that comes in pieces. The text isn't held, only its words.
ghost use Rattle.std.specs.Prelude.{◌≡◌, ℕ, ◌+◌, ◌-◌, ◌^◌, ◌<◌, ◌≤◌, ◌++◌, ◌∷◌, [], List, false, length, take, slice_index, IfOk, OnOk, OnErr};
ghost use Rattle.std.specs.List.{prefix_len};
ghost use Rattle.whole_text.specs.Tokens.{is_feed, is_blank, joins, tokens_of, words_at};
ghost use Rattle.whole_text.specs.TokenTexts.{words_of};
ghost use Rattle.whole_text.specs.Lexing.{Inside, StandsFor, HasRoom};
ghost use Rattle.whole_text.specs.LexerPlaces.{ended, begun, after_blank, is_above_blank, IsLive};

use crate::cutting::{comment_byte, is_blank, joins};
use crate::packed::TokenList;
use crate::token::{Style, Token};
use crate::token_text::TokenText;
use base::{Items, NoMemory};
use std::alloc::Global;
use std::marker::Model;
use std::mem;
use std::simd::prelude::*;

/// How many bytes of a word are taken at once.
const LANES: usize = 16;

/// Where a lexer stands in a line.
#[derive(Clone, Copy, PartialEq, Eq)]
enum At {
    /// Only blanks so far.
    Fresh,
    /// Between two words.
    Between,
    /// Inside a word.
    Inside,
    /// In a comment.
    Comment,
    /// Memory was refused, and no more is read.
    Spent,
}

/// The words so far of a text that comes in pieces, and where it stands in a line.
#[derive(Drop)]
pub struct Lexer {
    alloc: Global,
    style: Style,
    bytes: Vec<u8>,
    tokens: TokenList,
    at: At,
    start: usize,
    line: u64,
}

impl Model for Lexer {
    ghost use Rattle.std.specs.Prelude.{length, drop};
    ghost use Rattle.whole_text.specs.Tokens.{words_at};
    ghost use Rattle.whole_text.specs.Lexing.{LexerState};
    ghost use Rattle.whole_text.specs.LexerPlaces.{place_at, IsLexer};

    ghost Value = { LexerState };

    ghost view = { λ lexer. record {
      style = lexer.style;
      words = words_at lexer.bytes.items lexer.tokens;
      place = place_at lexer.at (drop lexer.start lexer.bytes.items);
      line = lexer.line;
      size = length lexer.bytes.items;
    } };

    ghost invariant = { λ lexer.
        IsLexer lexer.at lexer.tokens lexer.start (length lexer.bytes.items) lexer.line };
}

/// Whether a byte goes on with the token of the last of these bytes.
#[inline(always)]
fn goes_on(style: Style, bytes: &[u8], byte: u8) -> bool
    requires { 0 < length bytes.now }
    ensures { result ≡ joins style (slice_index bytes.now (length bytes.now - 1)) byte }
{
    joins(style, bytes[bytes.len() - 1], byte)
}

/// How many of the first 16 bytes stand before one up to `b' '`.
#[inline(always)]
fn run_len(bytes: &[u8]) -> usize
    requires { LANES ≤ length bytes.now }
    ensures { result ≡ prefix_len is_above_blank (take LANES bytes.now) }
{
    let stops = u8x16::from_slice(bytes)
        .simd_lt(u8x16::splat(b' ' + 1))
        .to_bitmask();
    if stops == 0 {
        LANES
    } else {
        stops.trailing_zeros() as usize
    }
}

impl Lexer {
    /// A lexer of no text so far.
    pub fn new(alloc: Global, style: Style) -> Lexer
        ensures empty { StandsFor result [] }
        ensures style { result.style ≡ style }
    {
        Lexer {
            alloc,
            style,
            bytes: Vec::new(alloc),
            tokens: TokenList::new(alloc),
            at: At::Fresh,
            start: 0,
            line: 1,
        }
    }

    /// A lexer that may only be dropped.
    fn spent(alloc: Global, style: Style) -> Lexer
        ensures spent { (text : List ℕ) → StandsFor result text → ⊥ }
        ensures style { result.style ≡ style }
    {
        Lexer {
            alloc,
            style,
            bytes: Vec::new(alloc),
            tokens: TokenList::new(alloc),
            at: At::Spent,
            start: 0,
            line: 1,
        }
    }

    /// Takes the next piece of the text. After `NoMemory` it is spent, and may only be dropped.
    pub fn feed(&mut self, piece: &[u8]) -> Result<(), NoMemory>
        requires { HasRoom self.old piece.now (2 ^ 32) }
        ensures fed { OnOk result ((text : List ℕ) → StandsFor self.old text
            → StandsFor self.new (text ++ piece.now)) }
        ensures spent { OnErr result ((text : List ℕ) → StandsFor self.new text → ⊥) }
        ensures style { self.new.style ≡ self.old.style }
    {
        let spent = Lexer::spent(self.alloc, self.style);
        *self = mem::replace(self, spent).fed(piece)?;
        Ok(())
    }

    /// The words of the text, which ends here.
    pub fn finish(mut self) -> Result<TokenText, NoMemory>
        requires { (text : List ℕ) × StandsFor self text }
        ensures words { IfOk result (λ t. (text : List ℕ) → StandsFor self text
            → words_of t ≡ tokens_of self.style text) }
        ensures size { IfOk result (λ t. (text : List ℕ) → StandsFor self text
            → length t.bytes ≤ length text) }
    {
        self.end_word()?;
        Ok(TokenText {
            bytes: Items::new(self.bytes),
            tokens: self.tokens,
        })
    }

    /// The lexer after the next piece of the text. The style is passed along, so that each has a
    /// loop of its own.
    fn fed(self, piece: &[u8]) -> Result<Lexer, NoMemory>
        requires { HasRoom self piece.now (2 ^ 32) }
        ensures fed { IfOk result (λ lexer. (text : List ℕ) → StandsFor self text
            → StandsFor lexer (text ++ piece.now)) }
        ensures style { IfOk result (λ lexer. lexer.style ≡ self.style) }
    {
        match self.style {
            Style::Plain => self.steps(piece, Style::Plain),
            Style::Opb => self.steps(piece, Style::Opb),
            Style::Wbo => self.steps(piece, Style::Wbo),
        }
    }

    /// A step for each byte. The room for their words is reserved at once. The lexer is the
    /// function's own, so that its fields need not be read again after each byte that is written.
    #[inline(always)]
    fn steps(mut self, piece: &[u8], style: Style) -> Result<Lexer, NoMemory>
        requires room { HasRoom self piece.now (2 ^ 32) }
        requires own { style ≡ self.style }
        ensures fed { IfOk result (λ lexer. (text : List ℕ) → StandsFor self text
            → StandsFor lexer (text ++ piece.now)) }
        ensures style { IfOk result (λ lexer. lexer.style ≡ self.style) }
    {
        self.bytes.reserve(piece.len())?;
        let mut rest = piece;
        while let [byte, more @ ..] = rest {
            self.step(*byte, style)?;
            let len = self.run(more, style)?;
            rest = &more[len..];
        }
        Ok(self)
    }

    /// Inside a word of the plain style, takes bytes that go on with it, and answers how many. Most
    /// words end among the bytes that are taken at once, so no branch depends on where, but for
    /// words of one byte, which end here.
    #[inline(always)]
    fn run(&mut self, rest: &[u8], style: Style) -> Result<usize, NoMemory>
        requires own { style ≡ self.old.style }
        ensures fed { IfOk result (λ len. (text : List ℕ) → StandsFor self.old text
            → StandsFor self.new (text ++ take len rest.now)) }
        ensures within { IfOk result (λ len. len ≤ length rest.now) }
        ensures style { self.new.style ≡ self.old.style }
    {
        if style == Style::Plain && self.at == At::Inside && rest.len() >= LANES && rest[0] > b' ' {
            let len = run_len(rest);
            self.append(&rest[..LANES], len)?;
            return Ok(len);
        }
        Ok(0)
    }

    /// Appends the first of these bytes to the word that the lexer stands in. All are written, since
    /// that takes one move, and the others are taken off again.
    #[inline(always)]
    fn append(&mut self, bytes: &[u8], len: usize) -> Result<(), NoMemory>
        requires inside { (w : List ℕ) × (self.old.place ≡ Inside w) }
        requires within { len ≤ length bytes.now }
        ensures appended { OnOk result (self.new ≡ record self.old {
          place = Inside (begun self.old.place ++ take len bytes.now);
          size = self.old.size + len;
        }) }
        ensures style { self.new.style ≡ self.old.style }
    {
        let end = self.bytes.len() + len;
        self.bytes.extend_from_slice(bytes)?;
        self.bytes.truncate(end);
        Ok(())
    }

    /// One byte more.
    #[inline(always)]
    fn step(&mut self, byte: u8, style: Style) -> Result<(), NoMemory>
        requires live { IsLive self.old.place }
        requires few { self.old.line < 2 ^ 64 - 1 }
        requires own { style ≡ self.old.style }
        ensures stepped { OnOk result ((text : List ℕ) → StandsFor self.old text
            → StandsFor self.new (text ++ byte ∷ [])) }
        ensures style { self.new.style ≡ self.old.style }
    {
        if byte > b' ' {
            self.ink(byte, style)
        } else if byte == b'\n' {
            self.line_feed()
        } else if is_blank(byte) {
            self.end_word()
        } else {
            self.ink(byte, style)
        }
    }

    /// A byte that is neither a blank nor a line feed.
    #[inline(always)]
    fn ink(&mut self, byte: u8, style: Style) -> Result<(), NoMemory>
        requires live { IsLive self.old.place }
        requires own { style ≡ self.old.style }
        requires no_feed { is_feed byte ≡ false }
        requires no_blank { is_blank byte ≡ false }
        ensures stepped { OnOk result ((text : List ℕ) → StandsFor self.old text
            → StandsFor self.new (text ++ byte ∷ [])) }
        ensures style { self.new.style ≡ self.old.style }
    {
        match self.at {
            At::Inside => self.next_ink(byte, style),
            At::Between => self.push(byte),
            _ => self.first_ink(byte, style),
        }
    }

    /// A byte that is neither a blank nor a line feed, inside a token: it goes on with it, or begins
    /// the next one.
    #[inline(always)]
    fn next_ink(&mut self, byte: u8, style: Style) -> Result<(), NoMemory>
        requires inside { (w : List ℕ) × (self.old.place ≡ Inside w) }
        requires own { style ≡ self.old.style }
        requires no_feed { is_feed byte ≡ false }
        requires no_blank { is_blank byte ≡ false }
        ensures stepped { OnOk result ((text : List ℕ) → StandsFor self.old text
            → StandsFor self.new (text ++ byte ∷ [])) }
        ensures style { self.new.style ≡ self.old.style }
    {
        if goes_on(style, &self.bytes, byte) {
            return self.push(byte);
        }
        self.end_word()?;
        self.push(byte)
    }

    /// A byte that is neither a blank nor a line feed, at any place; `ink` takes the two usual
    /// places before it.
    #[inline(always)]
    fn first_ink(&mut self, byte: u8, style: Style) -> Result<(), NoMemory>
        requires live { IsLive self.old.place }
        requires own { style ≡ self.old.style }
        requires no_feed { is_feed byte ≡ false }
        requires no_blank { is_blank byte ≡ false }
        ensures stepped { OnOk result ((text : List ℕ) → StandsFor self.old text
            → StandsFor self.new (text ++ byte ∷ [])) }
        ensures style { self.new.style ≡ self.old.style }
    {
        match self.at {
            At::Comment => Ok(()),
            At::Fresh => {
                if byte == comment_byte(self.style) {
                    self.at = At::Comment;
                    Ok(())
                } else {
                    self.push(byte)
                }
            }
            At::Between => self.push(byte),
            At::Inside => self.next_ink(byte, style),
            At::Spent => Err(NoMemory),
        }
    }

    /// Appends a byte to the word that the lexer stands in, or begins a word with it.
    #[inline(always)]
    fn push(&mut self, byte: u8) -> Result<(), NoMemory>
        requires { IsLive self.old.place }
        ensures pushed { OnOk result (self.new ≡ record self.old {
          place = Inside (begun self.old.place ++ byte ∷ []);
          size = self.old.size + 1;
        }) }
        ensures style { self.new.style ≡ self.old.style }
    {
        self.bytes.push(byte)?;
        self.at = At::Inside;
        Ok(())
    }

    /// A line feed ends the word and the line.
    #[inline(always)]
    fn line_feed(&mut self) -> Result<(), NoMemory>
        requires live { IsLive self.old.place }
        requires few { self.old.line < 2 ^ 64 - 1 }
        ensures stepped { OnOk result ((text : List ℕ) → StandsFor self.old text
            → StandsFor self.new (text ++ 10 ∷ [])) }
        ensures style { self.new.style ≡ self.old.style }
    {
        self.end_word()?;
        self.line += 1;
        self.at = At::Fresh;
        Ok(())
    }

    /// Ends the word that the lexer stands in, if it stands in one.
    #[inline(always)]
    fn end_word(&mut self) -> Result<(), NoMemory>
        requires { IsLive self.old.place }
        ensures ended { OnOk result (self.new ≡ record self.old {
          words = self.old.words ++ ended self.old.line self.old.place;
          place = after_blank self.old.place;
        }) }
        ensures style { self.new.style ≡ self.old.style }
    {
        if self.at == At::Inside {
            let end = self.bytes.len();
            self.tokens.push(Token {
                start: self.start,
                end,
                line: self.line,
            })?;
            self.start = end;
            self.at = At::Between;
        }
        Ok(())
    }
}

/// The words of a whole text, as a lexer of that style cuts it.
pub fn cut_words(alloc: Global, text: &[u8], style: Style) -> Result<TokenText, NoMemory>
    requires { length text.now ≤ 2 ^ 32 }
    ensures words { IfOk result (λ t. words_of t ≡ tokens_of style text.now) }
    ensures size { IfOk result (λ t. length t.bytes ≤ length text.now) }
{
    Lexer::new(alloc, style).fed(text)?.finish()
}
