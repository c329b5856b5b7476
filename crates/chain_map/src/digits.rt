//! The number of the first word of a line's rest. Up to 19 digits are read as they are passed.
ghost use Rattle.std.specs.Prelude.{◌≡◌, ◌<◌, ◌≤◌, ◌^◌, true, length, take, IfOk};
ghost use Rattle.std.specs.Char.{is_ascii_digit};
ghost use Rattle.std.specs.List.{list_all, position_or_len};
ghost use Rattle.std.specs.Str.Parse.{digits_value};
ghost use Rattle.whole_text.specs.Tokens.{is_blank, word};
ghost use Rattle.whole_text.specs.Steps.{GivesAlways, natural_at};

use whole_text::{TextFault, WordRef, is_blank, natural_word, word_len};

/// The value of the digits in front, and how many they are; the first 19 at most.
#[inline(always)]
fn front_digits(bytes: &[u8]) -> (u64, usize)
    ensures within { result.1 ≤ length bytes.now }
    ensures small { result.0 < 2 ^ 64 }
    ensures digits { list_all is_ascii_digit (take result.1 bytes.now) ≡ true }
    ensures value { result.0 ≡ digits_value 10 (take result.1 bytes.now) }
{
    let mut value: u64 = 0;
    let mut len = 0;
    while len < bytes.len() && len < 19 && bytes[len].is_ascii_digit() {
        value = value * 10 + u64::from(bytes[len] - b'0');
        len += 1;
    }
    (value, len)
}

/// The number of the first word, of any form, and the length of the word.
#[inline(never)]
fn any_number(bytes: &[u8], line: u64) -> Result<(u64, usize), TextFault>
    ensures value { GivesAlways (λ x. x.0) result
        (natural_at 0 (word line (take (position_or_len is_blank bytes.now) bytes.now))) }
    ensures len { IfOk result (λ x. x.1 ≡ position_or_len is_blank bytes.now) }
{
    let len = word_len(bytes);
    let bytes = &bytes[..len];
    Ok((natural_word(WordRef { bytes, line }, 0)?, len))
}

/// The number of the first word, which is at least 0, and the length of the word.
#[inline(always)]
pub fn first_number(bytes: &[u8], line: u64) -> Result<(u64, usize), TextFault>
    ensures value { GivesAlways (λ x. x.0) result
        (natural_at 0 (word line (take (position_or_len is_blank bytes.now) bytes.now))) }
    ensures len { IfOk result (λ x. x.1 ≡ position_or_len is_blank bytes.now) }
{
    let (value, len) = front_digits(bytes);
    if len > 0 && (len == bytes.len() || is_blank(bytes[len])) {
        return Ok((value, len));
    }
    any_number(bytes, line)
}
