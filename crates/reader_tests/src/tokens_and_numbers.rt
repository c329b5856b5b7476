//! The tokens of a text, the values of words, and decimal texts.
use base::NoMemory;
use std::alloc::Global;
use whole_text::{Style, Token, number, push_number, tokens};

/// Whether the tokens have these places: the first byte, the one after the last, and the line.
fn have_places(tokens: &[Token], places: &[(usize, usize, u64)]) -> bool {
    tokens.len() == places.len()
        && tokens.iter().zip(places).all(|(token, place)| (token.start, token.end, token.line)
            == *place)
}

/// Whether a text has these tokens.
fn is_cut_into(
    alloc: Global,
    text: &[u8],
    style: Style,
    places: &[(usize, usize, u64)],
) -> Result<bool, NoMemory> {
    let found = tokens(alloc, text, style)?;
    Ok(have_places(&found, places))
}

const PLAIN: &[(usize, usize, u64)] = &[
    (1, 2, 1),
    (4, 8, 1),
    (9, 10, 1),
    (11, 12, 1),
    (39, 40, 5),
    (41, 42, 5),
    (43, 44, 5),
    (45, 46, 5),
    (55, 58, 8),
];

#[test]
fn comments_blanks_and_empty_lines(rt: HostRuntime) {
    let text = b" p  wcnf\t1 2\r\nc no token\n\n  c neither\n x c 1 c\n\r\ncnf 1\na\x0cb";
    assert!(rt; is_cut_into(rt.alloc(), text, Style::Plain, PLAIN) == Ok(true));
}

const OPB: &[(usize, usize, u64)] = &[
    (11, 15, 2),
    (15, 17, 2),
    (18, 20, 2),
    (20, 21, 2),
    (23, 24, 3),
    (25, 26, 3),
    (27, 29, 3),
    (29, 30, 3),
    (30, 33, 3),
    (33, 34, 3),
    (34, 35, 3),
    (36, 37, 3),
    (37, 38, 3),
    (39, 40, 3),
];

#[test]
fn colons_semicolons_and_runs_of_operators(rt: HostRuntime) {
    let text = b"* no token\nmin:+1 x1;\n c : a:b>=<3= ;;\t*";
    assert!(rt; is_cut_into(rt.alloc(), text, Style::Opb, OPB) == Ok(true));
}

const NUMBERS: &[(&[u8], Option<i128>)] = &[
    (b"7.", Some(7)),
    (b"-0", Some(0)),
    (b"+007.00", Some(7)),
    (b"-18446744073709551615", Some(-18446744073709551615)),
    (b"18446744073709551616", None),
    (b"0.5", None),
    (b"1e3", None),
    (b"+ 7", None),
    (b"+", None),
    (b".0", None),
    (b"+-1", None),
];

#[test]
fn numbers_and_near_misses(rt: HostRuntime) {
    for (text, value) in NUMBERS {
        assert!(rt; number(text) == *value, "{text:?}");
    }
}

/// Appends the decimal texts of three numbers, one after the other.
fn push_three(text: &mut Vec<u8>) -> Result<(), NoMemory> {
    for value in [-18446744073709551616, 0, 7] {
        push_number(text, value)?;
    }
    Ok(())
}

fn are_decimal(alloc: Global) -> Result<bool, NoMemory> {
    let mut text = Vec::new(alloc);
    push_three(&mut text)?;
    Ok(text.as_slice() == b"-1844674407370955161607".as_slice())
}

#[test]
fn decimal_texts(rt: HostRuntime) {
    assert!(rt; are_decimal(rt.alloc()) == Ok(true));
}
