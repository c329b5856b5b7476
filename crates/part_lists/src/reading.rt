//! The text of a list of parts, line by line, so that no list of words is made.
ghost use Rattle.std.specs.Prelude.{◌≡◌, ◌≤◌, All, length, slice_range, IfOk, OnOk};
ghost use Rattle.whole_text.specs.Steps.{Gives};
ghost use Rattle.chain_map.specs.Maps.{after_front};
ghost use Rattle.part_lists.specs.Lists.{parts_of_line, listed_parts, IsPartOf};

use crate::parts::{Part, part_of_line};
use hardware::Hardware;
use std::alloc::Global;
use whole_text::{TextAnswer, line_len};

/// Adds the part that a line names, if it has words and is no comment.
#[inline(always)]
fn add_line<H: Hardware>(
    host: &H,
    text: &[u8],
    start: usize,
    end: usize,
    line: u64,
    parts: &mut Vec<Part>,
) -> Result<(), TextAnswer>
    requires ordered { start ≤ end }
    requires within { end ≤ length text.now }
    ensures read { Gives (λ _. parts.new.items) result (after_front parts.old.items
        (parts_of_line (H.exists host.now) (H.joined host.now) line
        (slice_range text.now start end))) }
    ensures kept { OnOk result
        (All (IsPartOf (H.exists host.now) (H.joined host.now)) parts.old.items
        → All (IsPartOf (H.exists host.now) (H.joined host.now)) parts.new.items) }
{
    match part_of_line(host, text, start, end, line)? {
        Some(part) => Ok(parts.push(part)?),
        None => Ok(()),
    }
}

/// The parts of a host that a text names, or the first fault of the text.
pub fn read_parts<H: Hardware>(
    alloc: Global,
    text: &[u8],
    host: &H,
) -> Result<Vec<Part>, TextAnswer>
    ensures exact { Gives (λ parts. parts.items) result
        (listed_parts (H.exists host.now) (H.joined host.now) text.now) }
    ensures kept { IfOk result (λ parts.
        All (IsPartOf (H.exists host.now) (H.joined host.now)) parts.items) }
{
    let mut parts = Vec::new(alloc);
    let mut start = 0;
    let mut line = 1;
    loop {
        let end = start + line_len(&text[start..]);
        add_line(host, text, start, end, line, &mut parts)?;
        if end == text.len() {
            return Ok(parts);
        }
        start = end + 1;
        line += 1;
    }
}
