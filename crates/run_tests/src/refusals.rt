//! Runs of which one call fails: each call on a file, each write, and those of the error line.
ghost use Rattle.std.specs.Prelude.{◌<◌, ◌≤◌, ◌^◌};

use crate::runs::{CLASH, Ends, SOUND, run_words};
use std::alloc::Global;
use std::test::Fail;

/// Whether a run over the file `a` of this text has this status, and leaves these bytes on the
/// output and on the error output.
fn leaves(
    alloc: Global,
    words: &[&str],
    text: &str,
    ends: Ends,
    wanted: (u8, &[u8], &[u8]),
) -> Result<bool, Fail>
    requires takes { 1 ≤ ends.most }
    requires small { ends.room < 2 ^ 32 }
{
    let ran = run_words(alloc, words, text, ends)?;
    let (number, text, line) = wanted;
    Ok(ran.status.number() == number && ran.out.bytes() == text && ran.err.bytes() == line)
}

/// The words for a clique on one cell.
const ON_A_CELL: &[&str] = &[
    "compile",
    "wcnf",
    "chimera",
    "a",
    "rows=1",
    "cols=1",
    "shore=4",
    "embed=clique",
];

/// A file is begun, read, and read to its end.
#[test]
fn each_call_on_a_file_fails(rt: HostRuntime) -> Result<(), Fail> {
    for read in 1..=3 {
        let ends = Ends { read, ..SOUND };
        let wanted = (3, b"".as_slice(), b"cannot read a\n".as_slice());
        assert!(rt;
            leaves(rt.alloc(), ON_A_CELL, CLASH, ends, wanted)?,
            "{read}"
        );
    }
    Ok(())
}

/// The model of the clash there, which is one chain of two qubits.
const ONE_CHAIN: &[u8] =
    b"c scale 4\nc offset -17\nc threshold -5\nc unit 1\nc variables 1\nc chimera 1 1 4\n\
    c chain 0 0 4\np ising 8 2 1\n0 0 -1\n4 4 -1\n0 4 -3\n";

/// A sink of one byte a call, of which one fails, has the bytes before it.
#[test]
fn each_write_of_a_graphs_model_fails(rt: HostRuntime) -> Result<(), Fail> {
    for before in 0..ONE_CHAIN.len() {
        let ends = Ends {
            write: (before as u64).saturating_add(1),
            most: 1,
            ..SOUND
        };
        let wanted = (4, &ONE_CHAIN[..before], b"cannot write\n".as_slice());
        assert!(rt;
            leaves(rt.alloc(), ON_A_CELL, CLASH, ends, wanted)?,
            "{before}"
        );
    }
    Ok(())
}

/// One run for each status that comes before the writing, its exit number and its line.
const REFUSALS: [(&[&str], &str, u8, &[u8]); 6] = [
    (&["sample", "", "1", "qubo"], "", 2, b"usage: word 2\n"),
    (&["compile", "wcnf", "qubo", "b"], "", 3, b"cannot read b\n"),
    (
        &["compile", "wcnf", "qubo", "a"],
        "p wcnf 2 2 9\n9 1 0\n",
        5,
        b"a:2: end\n",
    ),
    (
        &["compile", "wcnf", "qubo", "a", "normal=multilinear"],
        "p wcnf 9 1\n1 1 2 3 4 5 6 7 8 9 0\n",
        6,
        b"a: limit negations 9\n",
    ),
    (
        ON_A_CELL,
        "p wcnf 5 0\n",
        7,
        b"not embedded: 5 nodes for 4 places\n",
    ),
    (
        &["decode", "wcnf", "qubo", "a", "a"],
        CLASH,
        8,
        b"a: no state of 1 characters\n",
    ),
];

/// Where the first call on the error output fails, nothing is said, and the status is the same.
/// Where the second one would fail, all is said: there is none.
#[test]
fn an_error_line_is_one_write(rt: HostRuntime) -> Result<(), Fail> {
    for (words, text, number, said) in REFUSALS {
        for (line, said) in [(1, b"".as_slice()), (2, said)] {
            let ends = Ends { line, ..SOUND };
            assert!(rt;
                leaves(rt.alloc(), words, text, ends, (number, b"", said))?,
                "{words:?} {line}"
            );
        }
    }
    Ok(())
}
