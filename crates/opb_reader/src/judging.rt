//! Words, judged by their place.
ghost use Rattle.std.specs.Prelude.{◌≡◌, ◌<◌, ◌-◌, ◌^◌, ◌==◌, nat_abs, length, slice_index, IfOk, if◌then◌else◌};
ghost use Rattle.whole_text.specs.declared.faults.TextKind.TheVariants as kinds;
ghost use Rattle.whole_text.specs.TokenTexts.{word_of};
ghost use Rattle.opb_reader.specs.Opb.{is_operator, is_semicolon, begins_literal, ends_in_colon, stands_elsewhere, variable_at, index_at, name_at, literal_at, coefficient_at, operator_at};

use crate::operator::Operator;
use literal_lists::Literal;
use whole_text::{TextFault, TextKind, WordRef, digits, fault, kind_of_digits, number};

/// `>=`, `<=` or `=`.
#[inline(always)]
pub(crate) fn is_operator(bytes: &[u8]) -> bool
    ensures { result ≡ is_operator bytes.now }
{
    bytes == b">=".as_slice() || bytes == b"<=".as_slice() || bytes == b"=".as_slice()
}

#[inline(always)]
pub(crate) fn is_semicolon(bytes: &[u8]) -> bool
    ensures { result ≡ is_semicolon bytes.now }
{
    bytes == b";".as_slice()
}

/// Whether the first byte is `x` or `~`.
#[inline(always)]
pub(crate) fn begins_literal(bytes: &[u8]) -> bool
    ensures { result ≡ begins_literal bytes.now }
{
    match bytes {
        [] => false,
        [first, ..] => *first == b'x' || *first == b'~',
    }
}

/// Whether the last byte is `:`.
fn ends_in_colon(bytes: &[u8]) -> bool
    ensures { result ≡ ends_in_colon bytes.now }
{
    match bytes.last() {
        Some(last) => *last == b':',
        None => false,
    }
}

/// What a word is that is no number, where one is needed.
fn kind_of(bytes: &[u8]) -> TextKind
    ensures { result ≡ (if stands_elsewhere bytes.now then kinds.Word else kinds.Number) }
{
    if begins_literal(bytes) || ends_in_colon(bytes) || is_semicolon(bytes) || is_operator(bytes) {
        TextKind::Word
    } else {
        TextKind::Number
    }
}

/// A number, where a term may begin.
#[inline(always)]
#[tactic(auto, unfolding(crate::specs::Opb::coefficient_at))]
pub(crate) fn coefficient(word: WordRef<'_>) -> Result<i128, TextFault>
    ensures value { result ≡ coefficient_at (word_of word.entry) }
    ensures small { IfOk result (λ z. nat_abs z < 2 ^ 64) }
{
    match number(word.bytes) {
        Some(number) => Ok(number),
        None => Err(fault(kind_of(word.bytes), word.line)),
    }
}

/// One of the three operators.
#[inline(always)]
#[tactic(auto, unfolding(crate::specs::Opb::operator_at))]
pub(crate) fn operator(word: WordRef<'_>) -> Result<Operator, TextFault>
    ensures { result ≡ operator_at (word_of word.entry) }
{
    if word.bytes == b">=".as_slice() {
        Ok(Operator::AtLeast)
    } else if word.bytes == b"<=".as_slice() {
        Ok(Operator::AtMost)
    } else if word.bytes == b"=".as_slice() {
        Ok(Operator::Equal)
    } else {
        Err(fault(TextKind::Word, word.line))
    }
}

/// The variable of an index, where it is at most the limit.
#[inline(always)]
fn variable(index: u64, limit: u64, line: u64) -> Result<u64, TextFault>
    ensures value { result ≡ variable_at limit line (Some index) }
    ensures small { IfOk result (λ n. n < limit) }
{
    if 0 < index && index <= limit {
        Ok(index - 1)
    } else {
        Err(fault(TextKind::Range, line))
    }
}

/// The variable of an index of digits.
#[inline(always)]
#[tactic(auto, unfolding(crate::specs::Opb::index_at, whole_text::specs::Numbers::digits_number))]
fn index(bytes: &[u8], limit: u64, line: u64) -> Result<u64, TextFault>
    ensures value { result ≡ index_at limit line bytes.now }
    ensures small { IfOk result (λ n. n < limit) }
{
    match digits(bytes) {
        Some(index) => variable(index, limit, line),
        None => Err(fault(kind_of_digits(bytes), line)),
    }
}

/// The variable that `x` and an index stand for.
#[inline(always)]
#[tactic(auto, unfolding(crate::specs::Opb::name_at))]
fn name(bytes: &[u8], limit: u64, line: u64) -> Result<u64, TextFault>
    ensures value { result ≡ name_at limit line bytes.now }
    ensures small { IfOk result (λ n. n < limit) }
{
    match bytes {
        [b'x', digits @ ..] => index(digits, limit, line),
        _ => Err(fault(TextKind::Word, line)),
    }
}

/// A literal, whose index is at most the limit.
#[inline(always)]
#[tactic(auto, unfolding(crate::specs::Opb::literal_at))]
pub(crate) fn literal(word: WordRef<'_>, limit: u64) -> Result<Literal, TextFault>
    ensures value { result ≡ literal_at limit (word_of word.entry) }
    ensures small { IfOk result (λ l. l.variable < limit) }
{
    match word.bytes {
        [b'~', rest @ ..] => Ok(Literal {
            variable: name(rest, limit, word.line)?,
            negated: true,
        }),
        bytes => Ok(Literal {
            variable: name(bytes, limit, word.line)?,
            negated: false,
        }),
    }
}
