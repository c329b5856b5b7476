//! Runs whose output goes to a writer, which gets byte for byte what a sink in memory takes.
use crate::runs::{CLASH, Named, Ran, SOUND, owned, push_file, run_over};
use edge_io::{CallList, FileList, MemoryFiles, RealSink};
use program_run::{Status, run};
use std::alloc::{AllocError, Global};
use std::test::Fail;

/// What a run hands to the writers of its text and of its line.
struct Streamed {
    status: Status,
    out: Vec<u8>,
    err: Vec<u8>,
}

impl Drop for Streamed {
    fn drop(self) {
        let Streamed {
            status: _status,
            out: _out,
            err: _err,
        } = self;
    }
}

impl Streamed {
    /// Whether the status and each byte are those of a run into memory.
    fn is_as(&self, ran: &Ran) -> bool {
        self.status == ran.status
            && self.out.as_slice() == ran.out.bytes()
            && self.err.as_slice() == ran.err.bytes()
    }
}

/// One run over these files, of which each sink is the stream of a vector.
fn over_streams(alloc: Global, words: &[String], files: Named) -> Streamed {
    let mut files = MemoryFiles::new(FileList::new(files), CallList::new(Vec::new(alloc)));
    let mut text = Vec::new(alloc);
    let mut line = Vec::new(alloc);
    let status = {
        let mut out = RealSink::new(&mut text);
        let mut err = RealSink::new(&mut line);
        run(alloc, words, &mut files, &mut out, &mut err)
    };
    Streamed {
        status,
        out: text,
        err: line,
    }
}

/// The file `a` of a clash.
fn clash(alloc: Global) -> Result<Named, AllocError> {
    let mut files = Vec::new(alloc);
    push_file(alloc, &mut files, "a", String::from_str(alloc, CLASH)?)?;
    Ok(files)
}

/// Words, and the exit number.
const CASES: &[(&[&str], u8)] = &[
    (&["compile", "wcnf", "qubo", "a"], 0),
    (&["solve", "wcnf", "ising", "a"], 0),
    (&["compile", "wcnf", "qubo", "b"], 3),
    (&["compile", "wcnf", "qubo"], 2),
];

#[test]
fn a_writer_gets_what_a_sink_in_memory_takes(rt: HostRuntime) -> Result<(), Fail> {
    let alloc = rt.alloc();
    for (words, number) in CASES {
        let words = owned(alloc, words)?;
        let got = over_streams(alloc, &words, clash(alloc)?);
        let ran = run_over(alloc, &words, clash(alloc)?, SOUND)?;
        assert_eq!(rt; got.status.number(), *number);
        assert!(rt; got.is_as(&ran));
    }
    Ok(())
}
