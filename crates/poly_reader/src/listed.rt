//! A product of a text: a number, and the literals that follow on its line.
ghost use Rattle.std.specs.Prelude.{◌≡◌, ◌<◌, ◌≤◌, ◌^◌, [], true, ℕ, length, nat_abs, All, OnOk, IfOk};
ghost use Rattle.std.specs.List.{list_all};
ghost use Rattle.whole_text.specs.TokenTexts.{word_of};
ghost use Rattle.whole_text.specs.Steps.{Gives, GivesAlways};
ghost use Rattle.whole_text.specs.Rows.{left};
ghost use Rattle.literal_lists.specs.Literals.{literal_set};
ghost use Rattle.poly_reader.specs.Poly.{is_name, is_name_byte, named_at, literal_at};
ghost use Rattle.poly_reader.specs.Views.{named_of, literals_read, product_of_list, product_read};

use crate::name_table::NameTable;
use crate::names::as_text;
use literal_lists::{Literal, make_set};
use whole_text::{TextAnswer, TextFault, TextKind, WordRef, Words, fault, integer_word};

/// So many literals of a product are kept as they come.
const MANY: usize = 1 << 12;

/// A literal as it is written: a name, and whether there is a `~` before it.
#[derive(Clone, Copy)]
pub(crate) struct NamedRef<'a> {
    pub name: &'a str,
    pub negated: bool,
}

/// Whether each byte is an ASCII letter, a digit or `_`.
fn all_name_bytes(bytes: &[u8]) -> bool
    ensures { result ≡ list_all is_name_byte bytes.now }
{
    bytes
        .iter()
        .all(|byte| byte.is_ascii_alphanumeric() || *byte == b'_')
}

/// An ASCII letter or `_`, and then letters, digits and `_`.
fn is_name(bytes: &[u8]) -> bool
    ensures { result ≡ is_name bytes.now }
{
    match bytes {
        [] => false,
        [first, rest @ ..] => {
            (first.is_ascii_alphabetic() || *first == b'_') && all_name_bytes(rest)
        }
    }
}

/// A name, after a `~` or not.
#[tactic(auto, unfolding(crate::specs::Poly::named_at))]
fn named(name: &[u8], negated: bool, line: u64) -> Result<NamedRef<'_>, TextFault>
    ensures read { GivesAlways named_of result (named_at line negated name.now) }
    ensures name { IfOk result (λ l. is_name l.name.now ≡ true) }
{
    if is_name(name) {
        Ok(NamedRef {
            name: as_text(name),
            negated,
        })
    } else {
        Err(fault(TextKind::Word, line))
    }
}

/// A literal.
#[inline(always)]
#[tactic(auto, unfolding(crate::specs::Poly::literal_at))]
fn literal(word: WordRef<'_>) -> Result<NamedRef<'_>, TextFault>
    ensures read { GivesAlways named_of result (literal_at (word_of word.entry)) }
    ensures name { IfOk result (λ l. is_name l.name.now ≡ true) }
{
    match word.bytes {
        [b'~', name @ ..] => named(name, true, word.line),
        name => named(name, false, word.line),
    }
}

/// Puts the literals in order, each once, where they are more than so many, and says how many they
/// may then become. So a product takes no more memory than twice its literals that differ.
#[inline(always)]
fn settle(list: &mut Vec<Literal>, most: usize) -> usize
    ensures same { literal_set list.new.items ≡ literal_set list.old.items }
    ensures within { (v : ℕ) → All (λ l. l.variable < v) list.old.items
        → All (λ l. l.variable < v) list.new.items }
{
    if list.len() <= most {
        return most;
    }
    make_set(list);
    MANY.max(list.len().saturating_mul(2))
}

/// Puts the literals that follow on this line into a list that is empty, and maybe in order, each
/// once. The word after them is taken, and is the answer.
#[inline(always)]
fn literals<'a>(
    line: u64,
    words: &mut Words<'a>,
    names: &mut NameTable<'a>,
    list: &mut Vec<Literal>,
) -> Result<Option<WordRef<'a>>, TextAnswer>
    requires { list.old.items ≡ [] }
    ensures read { Gives (λ next. (literal_set list.new.items, names.new, left next words.new))
        result (literals_read line names.old [] words.old) }
    ensures within { OnOk result (All (λ l. l.variable < length names.new) list.new.items) }
    ensures wider { OnOk result (length names.old ≤ length names.new) }
    ensures shorter { IfOk result (λ next. length (left next words.new) ≤ length words.old) }
{
    let mut most = MANY;
    while let Some(word) = words.next() {
        if word.line != line {
            return Ok(Some(word));
        }
        let literal = literal(word)?;
        let number = names.number(literal.name)?;
        list.push(Literal {
            variable: number as u64,
            negated: literal.negated,
        })?;
        most = settle(list, most);
    }
    Ok(None)
}

/// The product that begins with this word: its literals go into a list that is empty, maybe in
/// order, each once, and its number is the answer, with the word after the product, which is taken.
#[inline(always)]
pub(crate) fn product<'a>(
    first: WordRef<'a>,
    words: &mut Words<'a>,
    names: &mut NameTable<'a>,
    list: &mut Vec<Literal>,
) -> Result<(i128, Option<WordRef<'a>>), TextAnswer>
    requires { list.old.items ≡ [] }
    ensures read { Gives (λ x. (product_of_list list.new.items x.0, names.new, left x.1 words.new))
        result (product_read names.old (word_of first.entry) words.old) }
    ensures small { IfOk result (λ x. nat_abs x.0 < 2 ^ 64) }
    ensures within { OnOk result (All (λ l. l.variable < length names.new) list.new.items) }
    ensures wider { OnOk result (length names.old ≤ length names.new) }
    ensures shorter { IfOk result (λ x. length (left x.1 words.new) ≤ length words.old) }
{
    let coefficient = integer_word(first)?;
    let next = literals(first.line, words, names, list)?;
    Ok((coefficient, next))
}
