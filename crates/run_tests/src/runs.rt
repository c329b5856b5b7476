//! One run over ends in memory.
ghost use Rattle.std.specs.Prelude.{◌<◌, ◌≤◌, ◌^◌};

use edge_io::{CallList, FileList, MemoryFiles, MemorySink};
use program_run::{Status, run};
use std::alloc::{AllocError, Global};
use std::test::Fail;

/// Which call fails of those on files, on the output and on the error output, counted from 1; how
/// many bytes the output takes in a call, and in all.
#[derive(Clone, Copy)]
pub(crate) struct Ends {
    pub read: u64,
    pub write: u64,
    pub line: u64,
    pub most: usize,
    pub room: usize,
}

/// Ends of which no call fails.
pub(crate) const SOUND: Ends = Ends {
    read: 0,
    write: 0,
    line: 0,
    most: 1000,
    room: 60_000,
};

/// A clause that must hold against one of weight 3.
pub(crate) const CLASH: &str = "p wcnf 1 2 10\n10 1 0\n3 -1 0\n";

/// Appends words that are owned.
pub(crate) fn push_words(
    alloc: Global,
    owned: &mut Vec<String>,
    words: &[&str],
) -> Result<(), AllocError> {
    for word in words {
        owned.push(String::from_str(alloc, word)?)?;
    }
    Ok(())
}

pub(crate) fn owned(alloc: Global, words: &[&str]) -> Result<Vec<String>, AllocError> {
    let mut owned = Vec::new(alloc);
    push_words(alloc, &mut owned, words)?;
    Ok(owned)
}

fn calls(alloc: Global, failing: u64) -> Result<CallList, AllocError> {
    Ok(CallList::new(Vec::from_slice(alloc, &[failing])?))
}

/// A sink of which one call fails.
pub(crate) fn sink(
    alloc: Global,
    most: usize,
    room: usize,
    failing: u64,
) -> Result<MemorySink, Fail>
    requires takes { 1 ≤ most }
    requires small { room < 2 ^ 32 }
{
    Ok(MemorySink::new(alloc, most, room, calls(alloc, failing)?)?)
}

/// Files, each with its name and its bytes.
pub(crate) type Named = Vec<(String, Vec<u8>)>;

/// Appends a file of this name and text.
pub(crate) fn push_file(
    alloc: Global,
    files: &mut Named,
    name: &str,
    text: String,
) -> Result<(), AllocError> {
    files.push((String::from_str(alloc, name)?, text.into_bytes()))?;
    Ok(())
}

/// What a run gives: its status, and the sinks of its text and its line.
pub(crate) struct Ran {
    pub status: Status,
    pub out: MemorySink,
    pub err: MemorySink,
}

impl Drop for Ran {
    fn drop(self) {
        let Ran {
            status: _status,
            out: _out,
            err: _err,
        } = self;
    }
}

impl Ran {
    /// Whether it is done, and wrote this text.
    pub(crate) fn wrote(&self, text: &[u8]) -> bool {
        self.status == Status::Done && self.out.bytes() == text
    }
}

/// One run with these words over these files and sinks.
fn run_into(
    alloc: Global,
    words: &[String],
    mut files: MemoryFiles,
    mut out: MemorySink,
    mut err: MemorySink,
) -> Ran {
    let status = run(alloc, words, &mut files, &mut out, &mut err);
    Ran { status, out, err }
}

/// One run with these words over these files.
pub(crate) fn run_over(
    alloc: Global,
    words: &[String],
    files: Named,
    ends: Ends,
) -> Result<Ran, Fail>
    requires takes { 1 ≤ ends.most }
    requires small { ends.room < 2 ^ 32 }
{
    let files = MemoryFiles::new(FileList::new(files), calls(alloc, ends.read)?);
    let out = sink(alloc, ends.most, ends.room, ends.write)?;
    let err = sink(alloc, 1000, 1000, ends.line)?;
    Ok(run_into(alloc, words, files, out, err))
}

/// The file `a` of this text.
fn one_file(alloc: Global, text: &str) -> Result<Named, AllocError> {
    let mut files = Vec::new(alloc);
    push_file(alloc, &mut files, "a", String::from_str(alloc, text)?)?;
    Ok(files)
}

/// One run with these words over the file `a` of this text.
pub(crate) fn run_words(alloc: Global, words: &[&str], text: &str, ends: Ends) -> Result<Ran, Fail>
    requires takes { 1 ≤ ends.most }
    requires small { ends.room < 2 ^ 32 }
{
    let given = owned(alloc, words)?;
    run_over(alloc, &given, one_file(alloc, text)?, ends)
}
