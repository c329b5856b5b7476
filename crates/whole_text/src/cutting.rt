//! A text is cut into tokens: at line feeds into lines, these at blanks into words, and these
//! between neighbours that do not join.

ghost use Rattle.std.specs.Prelude.{◌≡◌, ◌<◌, ◌≤◌, ◌++◌, ◌∷◌, false, not, length, take, drop, All, slice_range, slice_index, OnOk, IfOk};
ghost use Rattle.std.specs.List.{position_or_len};
ghost use Rattle.whole_text.specs.Tokens.{is_feed, is_blank, is_operator, is_bracket, joins, terms_join, comment_byte, is_comment, pieces_of_line, tokens_of_line, tokens_of, words_at, AreInOrder, IsOnItsLine, IsOnLine, IsWithin};

use crate::token::{Style, Token};
use base::NoMemory;
use std::alloc::Global;

/// Whether a byte stands between words.
#[inline(always)]
pub fn is_blank(byte: u8) -> bool
    ensures { result ≡ is_blank byte }
{
    byte == b' ' || byte == b'\t' || byte == b'\r'
}

/// The byte that begins a comment line.
pub(crate) fn comment_byte(style: Style) -> u8
    ensures { result ≡ comment_byte style }
{
    match style {
        Style::Plain => b'c',
        Style::Opb | Style::Wbo => b'*',
    }
}

/// Whether a byte is `<`, `=` or `>`.
#[inline(always)]
fn is_operator(byte: u8) -> bool
    ensures { result ≡ is_operator byte }
{
    byte == b'<' || byte == b'=' || byte == b'>'
}

/// Whether two neighbours in a word stand in one token of a linear program.
#[inline(always)]
fn terms_join(byte: u8, next: u8) -> bool
    ensures { result ≡ terms_join byte next }
{
    byte != b';' && next != b';' && byte != b':' && is_operator(byte) == is_operator(next)
}

/// Whether a byte is `[` or `]`.
#[inline(always)]
fn is_bracket(byte: u8) -> bool
    ensures { result ≡ is_bracket byte }
{
    byte == b'[' || byte == b']'
}

/// Whether two neighbours in a word stand in one token.
#[inline(always)]
pub(crate) fn joins(style: Style, byte: u8, next: u8) -> bool
    ensures { result ≡ joins style byte next }
{
    match style {
        Style::Plain => true,
        Style::Opb => terms_join(byte, next),
        Style::Wbo => !is_bracket(byte) && !is_bracket(next) && terms_join(byte, next),
    }
}

/// How many bytes stand before the first line feed.
pub fn line_len(bytes: &[u8]) -> usize
    ensures first { result ≡ position_or_len is_feed bytes.now }
    ensures within { result ≤ length bytes.now }
{
    bytes
        .iter()
        .position(|byte| *byte == b'\n')
        .unwrap_or(bytes.len())
}

/// How many bytes stand before the first blank.
pub fn word_len(bytes: &[u8]) -> usize
    ensures first { result ≡ position_or_len is_blank bytes.now }
    ensures within { result ≤ length bytes.now }
{
    bytes
        .iter()
        .position(|byte| is_blank(*byte))
        .unwrap_or(bytes.len())
}

/// How many blanks stand in front.
pub fn blank_len(bytes: &[u8]) -> usize
    ensures first { result ≡ position_or_len (λ c. not (is_blank c)) bytes.now }
    ensures within { result ≤ length bytes.now }
{
    bytes
        .iter()
        .position(|byte| !is_blank(*byte))
        .unwrap_or(bytes.len())
}

/// How many bytes the piece in front has, whose first byte is no blank.
fn piece_len(bytes: &[u8], style: Style) -> usize
    requires some { 0 < length bytes.now }
    requires ink { is_blank (slice_index bytes.now 0) ≡ false }
    ensures cut { pieces_of_line style bytes.now
        ≡ take result bytes.now ∷ pieces_of_line style (drop result bytes.now) }
    ensures some { 0 < result }
    ensures within { result ≤ length bytes.now }
{
    for i in 1..bytes.len() {
        if is_blank(bytes[i]) || !joins(style, bytes[i - 1], bytes[i]) {
            return i;
        }
    }
    bytes.len()
}

/// How many bytes the token in front has, whose first byte is no blank.
fn token_len(bytes: &[u8], style: Style) -> usize
    requires some { 0 < length bytes.now }
    requires ink { is_blank (slice_index bytes.now 0) ≡ false }
    ensures cut { pieces_of_line style bytes.now
        ≡ take result bytes.now ∷ pieces_of_line style (drop result bytes.now) }
    ensures some { 0 < result }
    ensures within { result ≤ length bytes.now }
{
    match style {
        Style::Plain => word_len(bytes),
        Style::Opb => piece_len(bytes, Style::Opb),
        Style::Wbo => piece_len(bytes, Style::Wbo),
    }
}

/// Whether the first byte of the line that is no blank begins a comment.
fn is_comment(line: &[u8], style: Style) -> bool
    ensures { result ≡ is_comment style line.now }
{
    match line.get(blank_len(line)) {
        Some(byte) => *byte == comment_byte(style),
        None => false,
    }
}

/// Appends the tokens of the line that stands from `start` to `end`.
pub fn push_line(
    tokens: &mut Vec<Token>,
    text: &[u8],
    start: usize,
    end: usize,
    line: u64,
    style: Style,
) -> Result<(), NoMemory>
    requires ordered { start ≤ end }
    requires within { end ≤ length text.now }
    ensures cut { OnOk result (words_at text.now tokens.new.items
        ≡ words_at text.now tokens.old.items
        ++ tokens_of_line style line (slice_range text.now start end)) }
    ensures in_order { OnOk result (AreInOrder 0 tokens.old.items start
        → AreInOrder 0 tokens.new.items end) }
    ensures lines { OnOk result (IsOnLine text.now start end line
        → All (IsOnItsLine text.now) tokens.old.items
        → All (IsOnItsLine text.now) tokens.new.items) }
{
    if is_comment(&text[start..end], style) {
        return Ok(());
    }
    let mut at = start + blank_len(&text[start..end]);
    while at < end {
        let stop = at + token_len(&text[at..end], style);
        tokens.push(Token {
            start: at,
            end: stop,
            line,
        })?;
        at = stop + blank_len(&text[stop..end]);
    }
    Ok(())
}

/// The tokens of a text, from left to right; its lines are numbered from 1.
pub fn tokens(alloc: Global, text: &[u8], style: Style) -> Result<Vec<Token>, NoMemory>
    ensures cut { IfOk result (λ v. words_at text.now v.items ≡ tokens_of style text.now) }
    ensures in_order { IfOk result (λ v. AreInOrder 0 v.items (length text.now)) }
    ensures within { IfOk result (λ v. All (IsWithin text.now) v.items) }
    ensures lines { IfOk result (λ v. All (IsOnItsLine text.now) v.items) }
{
    let mut tokens = Vec::new(alloc);
    let mut start = 0;
    let mut line = 1;
    loop {
        let end = start + line_len(&text[start..]);
        push_line(&mut tokens, text, start, end, line, style)?;
        if end == text.len() {
            return Ok(tokens);
        }
        start = end + 1;
        line += 1;
    }
}
