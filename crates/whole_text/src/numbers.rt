//! Numbers as a text writes them, and numbers written to a text.
//!
//! A number is an optional sign, one or more ASCII digits, and optionally a point and zeros. Its
//! size is below 2 ^ 64, with any count of zeros in front.

ghost use Rattle.std.specs.Prelude.{◌≡◌, ◌++◌, ◌<◌, ◌^◌, nat_abs, IfSome, OnOk, OnErr, pos, neg_ℤ, position};
ghost use Rattle.std.specs.List.{list_all};
ghost use Rattle.std.specs.Option.{option_map};
ghost use Rattle.std.specs.Fmt.{signed_decimal};
ghost use Rattle.whole_text.specs.Numbers.{digits_number, is_point, is_zero, size_of, number_of};

use base::NoMemory;
use itoa::Buffer;

/// The value of one or more digits, where it is below 2 ^ 64.
#[inline]
pub fn digits(bytes: &[u8]) -> Option<u64>
    ensures { result ≡ digits_number bytes.now }
{
    if bytes.is_empty() {
        return None;
    }
    let mut value: u64 = 0;
    for byte in bytes {
        if !byte.is_ascii_digit() {
            return None;
        }
        value = value.checked_mul(10)?.checked_add(u64::from(*byte - b'0'))?;
    }
    Some(value)
}

fn point_at(bytes: &[u8]) -> Option<usize>
    ensures { result ≡ position is_point bytes.now }
{
    bytes.iter().position(|byte| *byte == b'.')
}

fn are_zeros(bytes: &[u8]) -> bool
    ensures { result ≡ list_all is_zero bytes.now }
{
    bytes.iter().all(|byte| *byte == b'0')
}

/// The value of 1 to 19 digits, which needs no test for its size. `None` says nothing.
#[inline(always)]
fn few_digits(bytes: &[u8]) -> Option<u64>
    ensures { IfSome result (λ n. size_of bytes.now ≡ Some n) }
{
    if bytes.is_empty() || bytes.len() > 19 {
        return None;
    }
    let mut value: u64 = 0;
    for byte in bytes {
        if !byte.is_ascii_digit() {
            return None;
        }
        value = value * 10 + u64::from(*byte - b'0');
    }
    Some(value)
}

/// The size of a number, from its text without the sign.
#[inline(always)]
fn size(bytes: &[u8]) -> Option<u64>
    ensures { result ≡ size_of bytes.now }
{
    match few_digits(bytes) {
        Some(value) => Some(value),
        None => any_size(bytes),
    }
}

/// The size of a number of any length and form.
#[tactic(auto, unfolding(crate::specs::Numbers::size_of))]
#[inline(never)]
fn any_size(bytes: &[u8]) -> Option<u64>
    ensures { result ≡ size_of bytes.now }
{
    match point_at(bytes) {
        None => digits(bytes),
        Some(point) => {
            if are_zeros(&bytes[point + 1..]) {
                digits(&bytes[..point])
            } else {
                None
            }
        }
    }
}

/// The number of a size, where there is one.
#[inline(always)]
fn positive(size: Option<u64>) -> Option<i128>
    ensures value { result ≡ option_map pos size }
    ensures small { IfSome result (λ z. nat_abs z < 2 ^ 64) }
{
    match size {
        Some(size) => Some(i128::from(size)),
        None => None,
    }
}

/// The number below 0 of a size, where there is one.
#[inline(always)]
fn negative(size: Option<u64>) -> Option<i128>
    ensures value { result ≡ option_map (λ n. neg_ℤ (pos n)) size }
    ensures small { IfSome result (λ z. nat_abs z < 2 ^ 64) }
{
    match size {
        Some(size) => Some(-i128::from(size)),
        None => None,
    }
}

/// The value of a token, where it is a number.
#[tactic(auto, unfolding(crate::specs::Numbers::number_of))]
#[inline(always)]
pub fn number(token: &[u8]) -> Option<i128>
    ensures value { result ≡ number_of token.now }
    ensures small { IfSome result (λ z. nat_abs z < 2 ^ 64) }
{
    match token {
        [b'+', rest @ ..] => positive(size(rest)),
        [b'-', rest @ ..] => negative(size(rest)),
        [] => None,
        [_, ..] => positive(size(token)),
    }
}

/// Appends the decimal text: a `-` for a number below 0, and digits without a zero in front.
pub fn push_number(text: &mut Vec<u8>, value: i128) -> Result<(), NoMemory>
    ensures ok { OnOk result (text.new.items ≡ text.old.items ++ signed_decimal value) }
    ensures err { OnErr result (text.new.items ≡ text.old.items) }
{
    let mut buffer = Buffer::new();
    text.extend_from_slice(buffer.format(value).as_bytes())?;
    Ok(())
}
