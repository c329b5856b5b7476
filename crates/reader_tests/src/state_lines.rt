//! Lines that are the first state of a text, or one of its states, each beside the nearest that are
//! none.
use state_file::{StateAnswer, States, count_states, read_state};
use std::alloc::Global;
use std::test::Fail;

/// Whether a text has this state.
fn has_state(alloc: Global, text: &[u8], length: usize, wanted: Option<&[bool]>) -> bool {
    match read_state(alloc, text, length) {
        Ok(bits) => Some(bits.as_slice()) == wanted,
        Err(answer) => answer == StateAnswer::NoState && wanted.is_none(),
    }
}

const FIFTH_OF_EIGHT: &[bool] = &[false, false, false, false, true, false, false, false];

const LINES: &[(&[u8], usize, Option<&[bool]>)] = &[
    (b"00001000\r\n", 8, Some(FIFTH_OF_EIGHT)),
    (b"----+---", 8, Some(FIFTH_OF_EIGHT)),
    // one byte too long, one too short, a byte that is no bit, and then two that fit
    (
        b"000010000\n0000100\n0000x000\n\t 0--01-00 \r\n11111111",
        8,
        Some(FIFTH_OF_EIGHT),
    ),
    (b"0101", 8, None),
    (b"c 0101\n0 101\n0.01\n0\r101\n010\x0c\n\x0b010", 4, None),
    (b"# 10\n2 10\n10", 2, Some(&[true, false])),
    (b"\n\n+\n", 1, Some(&[true])),
    (b"", 0, Some(&[])),
    (b"\n", 0, Some(&[])),
    (b"0\n", 0, Some(&[])),
    (b"0\n \t\r\n1", 0, Some(&[])),
    (b"0", 0, None),
    (b"0\n1", 0, None),
    (b"", 1, None),
    (b"1\n", usize::MAX, None),
];

#[test]
fn first_line_that_fits(rt: HostRuntime) {
    for (text, length, wanted) in LINES {
        assert!(rt; has_state(rt.alloc(), text, *length, *wanted), "{text:?}");
    }
}

/// Whether bits are these.
fn are_bits(bits: &[bool], wanted: &[bool]) -> bool {
    bits == wanted
}

/// Whether a text has these states, each in the line of this number.
fn are_states(bits: &mut [bool], text: &[u8], wanted: &[(u64, &[bool])]) -> bool {
    let mut states = States::new(text, bits.len());
    for (line, want) in wanted {
        if states.next_into(bits) != Some(*line) || !are_bits(bits, want) {
            return false;
        }
    }
    states.next_into(bits).is_none() && states.next_into(bits).is_none()
}

/// The same of states of so many bits.
fn has_states(
    alloc: Global,
    text: &[u8],
    length: usize,
    wanted: &[(u64, &[bool])],
) -> Result<bool, Fail> {
    let mut bits = vec![in alloc; false; length]?;
    let counted = count_states(text, length) == wanted.len();
    Ok(counted && are_states(&mut bits, text, wanted))
}

const TEN: &[bool] = &[true, false];

const ALL_LINES: &[(&[u8], usize, &[(u64, &[bool])])] = &[
    // all lines are numbered: an empty one, one too long, one too short and one of other bytes
    (
        b"\n+-\n101\n1\n \t10\r\n1x\n1 0\n01",
        2,
        &[(2, TEN), (5, TEN), (8, &[false, true])],
    ),
    (b"10\n10\n", 2, &[(1, TEN), (2, TEN)]),
    (b"1\n0", 2, &[]),
    (b"", 1, &[]),
    (b"", 0, &[(1, &[])]),
    (b"\n1\n\r\n", 0, &[(1, &[]), (3, &[]), (4, &[])]),
    (b"0\n1", 0, &[]),
];

#[test]
fn every_line_that_fits(rt: HostRuntime) -> Result<(), Fail> {
    for (text, length, wanted) in ALL_LINES {
        assert!(rt; has_states(rt.alloc(), text, *length, wanted)?, "{text:?}");
    }
    Ok(())
}
