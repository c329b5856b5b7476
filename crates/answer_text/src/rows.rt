//! The rows of an answer, each appended by a function of its own.
ghost use Rattle.std.specs.Prelude.{◌≡◌, ◌++◌, ◌∷◌, [], OnOk};
ghost use Rattle.std.specs.Fmt.{signed_decimal};
ghost use Rattle.model_text.specs.Rows.{row_text, rows_text};
ghost use Rattle.answer_text.specs.Answers.{bits_word, cost_row, digit_of, name_row, name_rows, named_rows, optimum_rows};

use base::{Cost, NoMemory};
use poly_reader::Names;
use whole_text::push_number;

/// The digit of a bit.
fn digit_of(bit: bool) -> u8
    ensures { result ≡ digit_of bit }
{
    if bit { b'1' } else { b'0' }
}

/// A digit for each bit.
fn push_bits(text: &mut Vec<u8>, bits: &[bool]) -> Result<(), NoMemory>
    ensures { OnOk result (text.new.items ≡ text.old.items ++ bits_word bits.now) }
{
    text.reserve(bits.len())?;
    for bit in bits {
        text.push(digit_of(*bit))?;
    }
    Ok(())
}

/// The bits, after a word.
pub(crate) fn push_bits_row(text: &mut Vec<u8>, word: &[u8], bits: &[bool]) -> Result<(), NoMemory>
    ensures { let row = word.now ∷ bits_word bits.now ∷ [] in
        OnOk result (text.new.items ≡ text.old.items ++ row_text row) }
{
    text.extend_from_slice(word)?;
    text.push(b' ')?;
    push_bits(text, bits)?;
    text.push(b'\n')?;
    Ok(())
}

/// A name, and the bit of its variable.
fn push_name(text: &mut Vec<u8>, name: &str, bit: bool) -> Result<(), NoMemory>
    ensures { OnOk result (text.new.items ≡ text.old.items ++ row_text (name_row name.now bit)) }
{
    text.extend_from_slice(b"name ")?;
    text.extend_from_slice(name.as_bytes())?;
    text.extend_from_slice(&[b' ', digit_of(bit), b'\n'])?;
    Ok(())
}

/// Each name with its bit, up to the end of the shorter list.
fn push_each_name(text: &mut Vec<u8>, names: &Names, bits: &[bool]) -> Result<(), NoMemory>
    ensures { let rows = named_rows names.now bits.now in
        OnOk result (text.new.items ≡ text.old.items ++ rows_text rows) }
{
    let count = names.len().min(bits.len());
    for i in 0..count {
        push_name(text, names.name(i), bits[i])?;
    }
    Ok(())
}

/// Each name with its bit, where there are names.
pub(crate) fn push_names(
    text: &mut Vec<u8>,
    names: &Option<Names>,
    bits: &[bool],
) -> Result<(), NoMemory>
    ensures { let rows = name_rows names.now bits.now in
        OnOk result (text.new.items ≡ text.old.items ++ rows_text rows) }
{
    match names {
        Some(names) => push_each_name(text, names, bits),
        None => Ok(()),
    }
}

/// A number, after a word.
pub(crate) fn push_number_row(text: &mut Vec<u8>, word: &[u8], number: i128) -> Result<(), NoMemory>
    ensures { let row = word.now ∷ signed_decimal number ∷ [] in
        OnOk result (text.new.items ≡ text.old.items ++ row_text row) }
{
    text.extend_from_slice(word)?;
    text.push(b' ')?;
    push_number(text, number)?;
    text.push(b'\n')?;
    Ok(())
}

/// A cost.
pub(crate) fn push_cost(text: &mut Vec<u8>, cost: Cost) -> Result<(), NoMemory>
    ensures { OnOk result (text.new.items ≡ text.old.items ++ row_text (cost_row cost)) }
{
    match cost {
        Cost::Whole(value) => push_number_row(text, b"cost", value),
        Cost::Infinite => {
            text.extend_from_slice(b"cost infinite\n")?;
            Ok(())
        }
    }
}

/// An assignment of whole cost as an optimum, with the names of its variables where they have any, or
/// that there is none.
pub(crate) fn push_optimum(
    text: &mut Vec<u8>,
    x: &[bool],
    names: &Option<Names>,
    cost: Cost,
) -> Result<(), NoMemory>
    ensures { let rows = optimum_rows x.now names.now cost in
        OnOk result (text.new.items ≡ text.old.items ++ rows_text rows) }
{
    match cost {
        Cost::Whole(value) => {
            push_bits_row(text, b"assignment", x)?;
            push_names(text, names, x)?;
            push_number_row(text, b"optimum", value)
        }
        Cost::Infinite => {
            text.extend_from_slice(b"infeasible\n")?;
            Ok(())
        }
    }
}
