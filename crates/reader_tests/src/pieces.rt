//! Texts that come in pieces, and lines that go to a sink through a buffer.
ghost use Rattle.std.specs.Prelude.{◌<◌, ◌≤◌, ◌^◌, length};

use base::{Cost, Costed, NoMemory};
use command_words::{Format, Slack};
use edge_io::{CallList, LineBuffer, MemorySink, WriteFault};
use source_texts::{Read, read_source_words, style_of};
use std::alloc::Global;
use std::test::Fail;
use whole_text::{Lexer, Style, TextAnswer, TextFault, TextKind, TokenText, put_number};

/// The words of a text of a style that is cut at two places.
fn cut_text(
    alloc: Global,
    style: Style,
    text: &[u8],
    first: usize,
    second: usize,
) -> Result<TokenText, NoMemory>
    requires ordered { first ≤ second }
    requires within { second ≤ length text.now }
    requires small { length text.now ≤ 2 ^ 16 }
{
    let mut lexer = Lexer::new(alloc, style);
    lexer.feed(&text[..first])?;
    lexer.feed(&text[first..second])?;
    lexer.feed(&text[second..])?;
    lexer.finish()
}

/// Whether the text has these words, each with its line, and no other bytes.
fn has_words(text: &TokenText, wanted: &[(&[u8], u64)], bytes: &[u8]) -> bool {
    let mut words = text.words();
    for (word, line) in wanted {
        match words.next() {
            Some(found) if found.bytes == *word && found.line == *line => {}
            _ => return false,
        }
    }
    words.next().is_none() && text.bytes.as_slice() == bytes
}

/// Whether each first cut with this second one gives these words.
fn is_cut_before(
    alloc: Global,
    style: Style,
    text: &[u8],
    second: usize,
    words: &[(&[u8], u64)],
    bytes: &[u8],
) -> Result<bool, NoMemory>
    requires within { second ≤ length text.now }
    requires small { length text.now ≤ 2 ^ 16 }
{
    for first in 0..second + 1 {
        let alike = has_words(&cut_text(alloc, style, text, first, second)?, words, bytes);
        if !alike {
            return Ok(false);
        }
    }
    Ok(true)
}

/// Whether each pair of cuts gives these words.
fn is_cut_anywhere(
    alloc: Global,
    style: Style,
    text: &[u8],
    words: &[(&[u8], u64)],
    bytes: &[u8],
) -> Result<bool, NoMemory>
    requires { length text.now ≤ 2 ^ 16 }
{
    for second in 0..text.len() + 1 {
        if !is_cut_before(alloc, style, text, second, words, bytes)? {
            return Ok(false);
        }
    }
    Ok(true)
}

const PLAIN: &[(&[u8], u64)] = &[
    (b"p", 2),
    (b"wcnf", 2),
    (b"1", 2),
    (b"2", 2),
    (b"10", 2),
    (b"10", 5),
    (b"-1", 5),
    (b"0", 6),
];

/// The words of a clause that must hold against one of weight 3, below a comment.
const CLASH: &[(&[u8], u64)] = &[
    (b"p", 2),
    (b"wcnf", 2),
    (b"1", 2),
    (b"2", 2),
    (b"10", 2),
    (b"10", 3),
    (b"1", 3),
    (b"0", 3),
    (b"3", 4),
    (b"-1", 4),
    (b"0", 4),
];

#[test]
fn a_text_may_be_cut_anywhere(rt: HostRuntime) {
    let table: [(&[u8], &[(&[u8], u64)], &[u8]); 2] = [
        (
            b" c 1 x\np wcnf 1\t2 10\r\n\nc\n10 -1\n0",
            PLAIN,
            b"pwcnf121010-10",
        ),
        (
            b"c a comment\np wcnf 1 2 10\n10 1 0\n3 -1 0\n",
            CLASH,
            b"pwcnf121010103-10",
        ),
    ];
    for (text, words, bytes) in table {
        let cut = is_cut_anywhere(rt.alloc(), Style::Plain, text, words, bytes) == Ok(true);
        assert!(rt; cut, "{text:?}");
    }
}

const OPB: &[(&[u8], u64)] = &[
    (b"min:", 2),
    (b"+1", 2),
    (b"x1", 2),
    (b";", 2),
    (b"c:", 4),
    (b":", 4),
    (b"2", 4),
    (b">=<", 4),
    (b"-1", 4),
    (b";", 4),
    (b";", 4),
    (b"=", 5),
];

#[test]
fn an_opb_text_may_be_cut_anywhere(rt: HostRuntime) {
    let text = b" * 1 ;\nmin:+1 x1;\n*\n\tc:: 2>=<-1;;\r\n=";
    let bytes = b"min:+1x1;c::2>=<-1;;=";
    assert!(rt; is_cut_anywhere(rt.alloc(), Style::Opb, text, OPB, bytes) == Ok(true));
}

/// What the words of a text say.
fn read_words(alloc: Global, format: Format, text: &TokenText) -> Result<Read, TextAnswer> {
    if text.bytes.as_slice().len() > 1 << 24 {
        return Err(TextAnswer::NoMemory);
    }
    read_source_words(alloc, Slack::Bits, format, text)
}

/// A text of entries that is cut at two places, by its reader of words.
fn read_cut(
    alloc: Global,
    format: Format,
    text: &[u8],
    first: usize,
    second: usize,
) -> Result<Read, TextAnswer>
    requires ordered { first ≤ second }
    requires within { second ≤ length text.now }
    requires small { length text.now ≤ 2 ^ 16 }
{
    let cut = cut_text(alloc, style_of(format), text, first, second)?;
    read_words(alloc, format, &cut)
}

/// What a text says under the assignment that is 1 at the last of two variables, or what is wrong
/// with it. No answer where it has other variables.
fn said(read: &Result<Read, TextAnswer>) -> Option<Result<Cost, TextAnswer>> {
    match read {
        Ok(read) => if read.problem.variables == 2 {
            Some(Ok(read.problem.cost(&[false, true])))
        } else {
            None
        },
        Err(answer) => Some(Err(*answer)),
    }
}

/// Whether each first cut with this second one gives this.
fn is_read_before(
    alloc: Global,
    format: Format,
    text: &[u8],
    second: usize,
    wanted: Result<Cost, TextAnswer>,
) -> bool
    requires within { second ≤ length text.now }
    requires small { length text.now ≤ 2 ^ 16 }
{
    for first in 0..second + 1 {
        if said(&read_cut(alloc, format, text, first, second)) != Some(wanted) {
            return false;
        }
    }
    true
}

/// Whether each pair of cuts gives this.
fn is_read_anywhere(
    alloc: Global,
    format: Format,
    text: &[u8],
    wanted: Result<Cost, TextAnswer>,
) -> bool
    requires { length text.now ≤ 2 ^ 16 }
{
    for second in 0..text.len() + 1 {
        if !is_read_before(alloc, format, text, second, wanted) {
            return false;
        }
    }
    true
}

#[test]
fn entries_may_be_cut_anywhere(rt: HostRuntime) {
    let range = TextAnswer::Bad(TextFault {
        kind: TextKind::Range,
        line: 3,
    });
    let table = [
        (
            Format::Qubo,
            b"p qubo 0 2\t1 1\r\n0 1 7 1 1 -3".as_slice(),
            Ok(Cost::Whole(-3)),
        ),
        (
            Format::Ising,
            b"p ising 2 1 1\nc\n1 0\n12 1 1 5\n",
            Ok(Cost::Whole(-7)),
        ),
        (Format::Ising, b"p ising 2 1 1\nc\n1 10 1 1 1 5", Err(range)),
    ];
    for (format, text, wanted) in table {
        let read = is_read_anywhere(rt.alloc(), format, text, wanted);
        assert!(rt; read, "{text:?}");
    }
}

/// Puts short pieces, a number, and a piece that is longer than the buffer.
fn put_lines(buffer: &mut LineBuffer, sink: &mut MemorySink) -> Result<(), WriteFault> {
    buffer.put(sink, b"p ")?;
    put_number(buffer, sink, -120)?;
    buffer.put(sink, &[b'x'; 5000])?;
    buffer.put(sink, b"\n")?;
    buffer.flush(sink)
}

/// The byte of the lines at a place.
fn line_byte(at: usize) -> u8 {
    match at {
        0 => b'p',
        1 => b' ',
        2 => b'-',
        3 => b'1',
        4 => b'2',
        5 => b'0',
        5006 => b'\n',
        _ => b'x',
    }
}

/// Whether these are so many bytes of the lines.
fn are_lines(bytes: &[u8], count: usize) -> bool {
    bytes.len() == count
        && bytes
            .iter()
            .enumerate()
            .all(|(i, byte)| *byte == line_byte(i))
}

/// Whether so many bytes of the lines come to a sink.
fn come(buffer: &mut LineBuffer, sink: &mut MemorySink, count: usize) -> bool {
    let whole = put_lines(buffer, sink).is_ok();
    whole == (count == 5007) && are_lines(sink.bytes(), count)
}

/// Whether so many come to a sink of one byte a call, of which one call fails.
fn are_put(alloc: Global, failing: u64, count: usize) -> Result<bool, Fail> {
    let failing = CallList::new(Vec::from_slice(alloc, &[failing])?);
    let mut sink = MemorySink::new(alloc, 1, 6000, failing)?;
    let mut buffer = LineBuffer::new(alloc)?;
    Ok(come(&mut buffer, &mut sink, count))
}

#[test]
fn lines_go_to_a_sink_byte_by_byte(rt: HostRuntime) -> Result<(), Fail> {
    let rows = [
        (5008, 5007),
        (1, 0),
        (3, 2),
        (4096, 4095),
        (4097, 4096),
        (4098, 4097),
        (5007, 5006),
    ];
    for (failing, count) in rows {
        let put = are_put(rt.alloc(), failing, count)?;
        assert!(rt; put, "{failing} {count}");
    }
    Ok(())
}
