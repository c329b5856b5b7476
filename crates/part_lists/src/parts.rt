//! Parts of a host, and the lines that name them: the number of a qubit, or those of two that the
//! host joins. The words of a line are read where they stand.
ghost use Rattle.std.specs.Prelude.{◌≡◌, ◌≤◌, true, length, map, take, slice_range, IfOk, IfSome};
ghost use Rattle.std.specs.List.{position_or_len};
ghost use Rattle.std.specs.Option.{option_to_list};
ghost use Rattle.whole_text.specs.Tokens.{is_blank, word, words};
ghost use Rattle.whole_text.specs.Steps.{GivesAlways};
ghost use Rattle.part_lists.specs.Lists.{qubit_at, joined_at, rest_at, parts_of_line, IsPartOf};

use chain_map::first_number;
use hardware::{Hardware, is_qubit};
use whole_text::{TextFault, TextKind, blank_len, fault};

/// A qubit, or a coupler by its two qubits.
#[derive(Clone, Copy)]
pub enum Part {
    Qubit(u32),
    Coupler(u32, u32),
}

/// The qubit of the host that the first word is the number of, and the length of the word.
#[tactic(auto, unfolding(crate::specs::Lists::qubit_at))]
#[inline(always)]
fn first_qubit<H: Hardware>(host: &H, bytes: &[u8], line: u64) -> Result<(u32, usize), TextFault>
    ensures value { GivesAlways (λ x. x.0) result
        (qubit_at (H.exists host.now)
        (word line (take (position_or_len is_blank bytes.now) bytes.now))) }
    ensures len { IfOk result (λ x. x.1 ≡ position_or_len is_blank bytes.now) }
    ensures exists { IfOk result (λ x. H.exists host.now x.0 ≡ true) }
{
    let (number, len) = first_number(bytes, line)?;
    if is_qubit(host, number) {
        Ok((number as u32, len))
    } else {
        Err(fault(TextKind::Range, line))
    }
}

/// The same for a qubit that is joined to another one.
#[tactic(auto, unfolding(crate::specs::Lists::joined_at))]
fn first_joined<H: Hardware>(
    host: &H,
    from: u32,
    bytes: &[u8],
    line: u64,
) -> Result<(u32, usize), TextFault>
    requires { H.exists host.now from ≡ true }
    ensures value { GivesAlways (λ x. x.0) result (joined_at (H.exists host.now)
        (H.joined host.now) from
        (word line (take (position_or_len is_blank bytes.now) bytes.now))) }
    ensures len { IfOk result (λ x. x.1 ≡ position_or_len is_blank bytes.now) }
    ensures exists { IfOk result (λ x. H.exists host.now x.0 ≡ true) }
    ensures joined { IfOk result (λ x. H.joined host.now from x.0 ≡ true) }
{
    let (qubit, len) = first_qubit(host, bytes, line)?;
    if host.joined(from, qubit) {
        Ok((qubit, len))
    } else {
        Err(fault(TextKind::Range, line))
    }
}

/// The part whose first qubit is this one, by the words that stand from `start` to `end`, all of
/// them on this line.
#[inline(always)]
fn rest_of_line<H: Hardware>(
    host: &H,
    from: u32,
    text: &[u8],
    start: usize,
    end: usize,
    line: u64,
) -> Result<Part, TextFault>
    requires qubit { H.exists host.now from ≡ true }
    requires ordered { start ≤ end }
    requires within { end ≤ length text.now }
    ensures read { result ≡ rest_at (H.exists host.now) (H.joined host.now) from
        (map (word line) (words (slice_range text.now start end))) }
    ensures kept { IfOk result (IsPartOf (H.exists host.now) (H.joined host.now)) }
{
    let at = start + blank_len(&text[start..end]);
    if at == end {
        return Ok(Part::Qubit(from));
    }
    let (to, len) = first_joined(host, from, &text[at..end], line)?;
    let after = at + len;
    let last = after + blank_len(&text[after..end]);
    if last == end {
        Ok(Part::Coupler(from, to))
    } else {
        Err(fault(TextKind::Extra, line))
    }
}

/// The part that a line names, if it has words and is no comment.
#[inline(always)]
pub(crate) fn part_of_line<H: Hardware>(
    host: &H,
    text: &[u8],
    start: usize,
    end: usize,
    line: u64,
) -> Result<Option<Part>, TextFault>
    requires ordered { start ≤ end }
    requires within { end ≤ length text.now }
    ensures read { GivesAlways option_to_list result
        (parts_of_line (H.exists host.now) (H.joined host.now) line
        (slice_range text.now start end)) }
    ensures kept { IfOk result (λ part.
        IfSome part (IsPartOf (H.exists host.now) (H.joined host.now))) }
{
    let at = start + blank_len(&text[start..end]);
    if at == end || text[at] == b'c' {
        return Ok(None);
    }
    let (qubit, len) = first_qubit(host, &text[at..end], line)?;
    Ok(Some(rest_of_line(host, qubit, text, at + len, end, line)?))
}
