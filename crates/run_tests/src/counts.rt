//! What ends count that tell nothing, as the real ones do.
ghost use Rattle.std.specs.Prelude.{None};

use crate::runs::{CLASH, Named, owned, push_file, push_words};
use edge_io::{CallList, Failed, FileList, MemoryFiles, Sink};
use program_run::run;
use std::alloc::Global;
use std::test::Fail;

/// A sink that tells no byte, and takes one a call until its room is full.
#[derive(Clone, Copy)]
struct BlindSink {
    taken: u64,
    room: u64,
    faults: u64,
}

impl BlindSink {
    fn new(room: u64) -> BlindSink {
        BlindSink {
            taken: 0,
            room,
            faults: 0,
        }
    }
}

impl Sink for BlindSink {
    ghost taken = { λ s. record {
      bytes = None;
      count = s.taken;
    } };

    ghost faults = { λ s. s.faults };

    fn write(&mut self, piece: &[u8]) -> Result<usize, Failed> {
        if self.taken >= self.room {
            self.faults = self.faults.saturating_add(1);
            return Err(Failed);
        }
        let count = piece.len().min(1);
        self.taken = self.taken.saturating_add(count as u64);
        Ok(count)
    }
}

/// The words after `compile wcnf`, the text of the file `a`, and the room of the output; then the exit
/// number, and how many bytes the output took and the error output.
type Counted = (&'static [&'static str], &'static str, u64, (u8, u64, u64));

const COUNTED: &[Counted] = &[
    (&["qubo", "a"], CLASH, 1000, (0, 82, 0)),
    (&["qubo", "a"], CLASH, 1, (4, 1, 13)),
    (&["qubo", "a"], CLASH, 0, (4, 0, 13)),
    (&["qubo", "a"], "p wcnf 1 1 10\nx 1 0\n", 1000, (5, 0, 12)),
    (&["qubo", "b"], CLASH, 1000, (3, 0, 14)),
    (&["qubo"], CLASH, 1000, (2, 0, 14)),
];

/// The exit number of a run over blind ends, and how many bytes each took.
fn counted(alloc: Global, words: &[String], files: Named, room: u64) -> (u8, u64, u64) {
    let failing = CallList::new(Vec::new(alloc));
    let mut files = MemoryFiles::new(FileList::new(files), failing);
    let mut out = BlindSink::new(room);
    let mut err = BlindSink::new(1000);
    let status = run(alloc, words, &mut files, &mut out, &mut err);
    (status.number(), out.taken, err.taken)
}

/// Whether a run counts what a row says.
fn counts_as(alloc: Global, row: &Counted) -> Result<bool, Fail> {
    let mut words = owned(alloc, &["compile", "wcnf"])?;
    push_words(alloc, &mut words, row.0)?;
    let mut files = Vec::new(alloc);
    push_file(alloc, &mut files, "a", String::from_str(alloc, row.1)?)?;
    Ok(counted(alloc, &words, files, row.2) == row.3)
}

#[test]
fn what_is_written_is_counted_where_it_is_not_told(rt: HostRuntime) -> Result<(), Fail> {
    for row in COUNTED {
        let alike = counts_as(rt.alloc(), row)?;
        assert!(rt; alike);
    }
    Ok(())
}
