//! A file that is taken, and a text that is written, in small pieces alone.
ghost use Rattle.std.specs.Prelude.{[], None, length, string_bytes};
ghost use Rattle.std.specs.Option.{option_map_or};
ghost use Rattle.edge_io.specs.Held.{after_first};
ghost use Rattle.edge_io.specs.laws.Begun.{after_first-none};

use crate::runs::{Ends, Ran, SOUND, owned, run_words, sink};
use edge_io::{Failed, Files, MemorySink, Sink};
use program_run::{Status, run};
use std::alloc::Global;
use std::test::Fail;

/// The longest piece that is given of a file, and the longest that is taken of a text.
const LONGEST_READ: usize = 65_536;

const LONGEST_WRITE: usize = 4096;

const COMPILE: &[&str] = &["compile", "wcnf", "qubo", "a"];

/// One text under every name, of which no long piece is given.
#[derive(Drop)]
struct ShortFiles {
    text: String,
    at: usize,
    name: Option<String>,
    faults: u64,
    faults_at_begin: u64,
    taken: u64,
    empty_reads: u64,
    begun: u64,
}

impl Files for ShortFiles {
    ghost held = { λ f. None };

    ghost rest = { λ f. None };

    ghost counts = { λ f. record {
      faults = f.faults;
      begun = f.begun;
      name = after_first f.begun (option_map_or string_bytes f.name []);
      faults_at_begin = f.faults_at_begin;
      taken = f.taken;
      empty_reads = f.empty_reads;
    } };

    ghost at_first = { λ f none. (tt, after_first-none f.begun _ none) };

    fn begin(&mut self, name: String) -> Result<(), Failed> {
        self.begun = self.begun.saturating_add(1);
        self.faults_at_begin = self.faults;
        self.taken = 0;
        self.empty_reads = 0;
        self.at = 0;
        self.name = Some(name);
        Ok(())
    }

    fn read(&mut self, into: &mut [u8]) -> Result<usize, Failed> {
        if into.len() > LONGEST_READ {
            self.faults = self.faults.saturating_add(1);
            self.empty_reads = self.empty_reads.saturating_add(1);
            return Err(Failed);
        }
        let from = self.at.min(self.text.len());
        let rest = &self.text.as_bytes()[from..];
        let count = into.len().min(rest.len());
        into[..count].copy_from_slice(&rest[..count]);
        self.at = self.at.saturating_add(count);
        self.taken = self.taken.saturating_add(count as u64);
        if count == 0 {
            self.empty_reads = self.empty_reads.saturating_add(1);
        }
        Ok(count)
    }
}

/// Bytes of which no long piece is taken.
#[derive(Drop)]
struct ShortSink {
    bytes: Vec<u8>,
    faults: u64,
}

impl Sink for ShortSink {
    ghost taken = { λ s. record {
      bytes = None;
      count = length s.bytes.items;
    } };

    ghost faults = { λ s. s.faults };

    fn write(&mut self, piece: &[u8]) -> Result<usize, Failed> {
        if piece.len() <= LONGEST_WRITE && self.bytes.extend_from_slice(piece).is_ok() {
            return Ok(piece.len());
        }
        self.faults = self.faults.saturating_add(1);
        Err(Failed)
    }
}

/// Adds comments that are longer than a piece.
fn push_comments(text: &mut String) -> Result<(), Fail> {
    for _ in 0..4000u64 {
        text.push_str("c a comment of a line that holds no word\n")?;
    }
    Ok(())
}

/// Adds one clause of sixty variables, after comments that are longer than a piece.
fn push_source(text: &mut String) -> Result<(), Fail> {
    push_comments(text)?;
    text.push_str("p wcnf 60 1\n1")?;
    for variable in 0..60u64 {
        write!(text, " {}", variable.saturating_add(1))?;
    }
    text.push_str(" 0\n")?;
    Ok(())
}

/// The source of that clause.
fn long_source(alloc: Global) -> Result<String, Fail> {
    let mut text = String::new(alloc);
    push_source(&mut text)?;
    Ok(text)
}

/// One run over the short ends: whether it writes this text.
fn is_written_over(
    alloc: Global,
    words: &[String],
    mut files: ShortFiles,
    mut out: ShortSink,
    mut err: MemorySink,
    text: &[u8],
) -> bool {
    let status = run(alloc, words, &mut files, &mut out, &mut err);
    status == Status::Done && out.bytes.as_slice() == text
}

/// Whether a run over the short ends writes the same as one over others.
fn writes_in_pieces(alloc: Global, source: String, text: &[u8]) -> Result<bool, Fail> {
    let given = owned(alloc, COMPILE)?;
    let err = sink(alloc, 1000, 1000, 0)?;
    let out = ShortSink {
        bytes: Vec::new(alloc),
        faults: 0,
    };
    let files = ShortFiles {
        text: source,
        at: 0,
        name: None,
        faults: 0,
        faults_at_begin: 0,
        taken: 0,
        empty_reads: 0,
        begun: 0,
    };
    Ok(is_written_over(alloc, &given, files, out, err, text))
}

/// Whether a sink of one byte a call gets the same as another one.
fn writes_in_bytes(alloc: Global, source: &str, text: &[u8]) -> Result<bool, Fail> {
    let ends = Ends { most: 1, ..SOUND };
    let ran = run_words(alloc, COMPILE, source, ends)?;
    Ok(ran.wrote(text))
}

/// What a run gives for the source, of which no end takes or gives small pieces alone.
fn whole_run(alloc: Global, source: &str) -> Result<Ran, Fail> {
    run_words(alloc, COMPILE, source, SOUND)
}

/// Whether runs whose ends take and give small pieces alone write this long text.
fn are_alike(alloc: Global, source: &str, text: &[u8]) -> Result<bool, Fail> {
    let again = String::from_str(alloc, source)?;
    Ok(
        text.len() > 2 * LONGEST_WRITE
            && writes_in_pieces(alloc, again, text)?
            && writes_in_bytes(alloc, source, text)?,
    )
}

/// Whether they write what a whole run does.
fn are_like_whole(alloc: Global, source: &str) -> Result<bool, Fail> {
    let ran = whole_run(alloc, source)?;
    are_alike(alloc, source, ran.out.bytes())
}

fn are_all_alike(alloc: Global) -> Result<bool, Fail> {
    let source = long_source(alloc)?;
    are_like_whole(alloc, &source)
}

#[test]
fn no_piece_is_long_and_a_sink_of_one_byte_a_call_gets_the_same(
    rt: HostRuntime,
) -> Result<(), Fail> {
    assert!(rt; are_all_alike(rt.alloc())?);
    Ok(())
}
