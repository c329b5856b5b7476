//! Runs each case that a word names over files in memory, and prints its name, the exit status, what
//! the run writes, and the error line.
//!
//! A case is a file of data/. Its first line has the words of the run. Each part below it begins with
//! a line of the sign `@` and a name: that of a file, `lines` or `changed`. A number behind it says how
//! often the text of the part stands in the file, and parts of one name are one file. Of what a case
//! with `lines` writes, only these lines are printed, where they are there.
//!
//! A case with `changed` is run on each front of its first file, and on that file with each piece that
//! the part lists in the place of each byte. A piece is the numbers of its bytes with commas between.
//! Printed are how many runs these are, how many end with the status 0, and a hash of all answers.
//!
//! Before all else a piece of memory is taken for each byte of the standard input. So where one
//! allocation of a known number is refused, the input chooses which one of the run it is.
#![tactic(auto)]

ghost use Rattle.std.specs.Prelude.{◌≡◌, ◌<◌, [], length, IfOk};
ghost use Rattle.edge_io.specs.InMemory.{empty_sink};

use base::NoMemory;
use edge_io::{CallList, FileList, MemoryFiles, MemorySink, RealSink, Sink, write_pieces};
use program_run::{Status, given_words, run};
use std::alloc::Global;
use std::io::Read;
use std::process::ExitCode;
use std::{fs, mem};

/// The most bytes that the runs of a case can write here.
const ROOM: usize = 40_000_000;

/// The first value of the hash FNV-1a, and what each step multiplies it by.
const BASIS: u64 = 14_695_981_039_346_656_037;

const PRIME: u64 = 1_099_511_628_211;

/// Files, each with its name and its bytes.
type Named = Vec<(String, Vec<u8>)>;

/// A part of a case: a name, how often the text stands in its file, and the text.
#[derive(Clone, Copy)]
struct Part<'a> {
    name: &'a str,
    times: usize,
    text: &'a str,
}

/// The part behind a sign.
fn part_of(section: &str) -> Part {
    let (head, text) = section.split_once('\n').unwrap_or((section, ""));
    let mut words = head.split_whitespace();
    let name = words.next().unwrap_or("");
    let times = words.next().and_then(|word| word.parse().ok()).unwrap_or(1);
    Part { name, times, text }
}

/// The words of a line.
fn words_in(alloc: Global, line: &str) -> Result<Vec<String>, NoMemory> {
    let mut words = Vec::new(alloc);
    for word in line.split_whitespace() {
        words.push(String::from_str(alloc, word)?)?;
    }
    Ok(words)
}

/// Appends a part to the last file, where that has its name, and else to a new one.
fn push_part(alloc: Global, files: &mut Named, part: Part) -> Result<(), NoMemory> {
    let text = part.text.repeat(alloc, part.times)?;
    let again = files
        .last()
        .is_some_and(|file| file.0.as_str() == part.name);
    match files.last_mut() {
        Some(file) if again => file.1.extend_from_slice(text.as_bytes())?,
        _ => files.push((String::from_str(alloc, part.name)?, text.into_bytes()))?,
    }
    Ok(())
}

/// Whether a text has a line.
fn has_line(text: &[u8], line: &str) -> bool {
    text.split(|byte| *byte == b'\n')
        .any(|other| other == line.as_bytes())
}

/// Prints the lines that the text has.
fn print_lines<O: Sink>(out: &mut O, lines: &str, text: &[u8]) {
    for line in lines.lines() {
        if has_line(text, line) {
            let _ = write_pieces(out, &[line.as_bytes(), b"\n"]);
        }
    }
}

/// A sink of which no call fails.
fn sink(alloc: Global) -> Result<MemorySink, NoMemory>
    ensures { IfOk result (λ sink. sink ≡ empty_sink 40000000 40000000 []) }
{
    let none = CallList::new(Vec::new(alloc));
    MemorySink::new(alloc, ROOM, ROOM, none)
}

/// The words of a case, its files, the lines that are printed, where not all are, and the pieces that
/// are put into the first file, where any are.
#[derive(Drop)]
struct Case<'a> {
    words: Vec<String>,
    files: Named,
    lines: Option<&'a str>,
    changed: Option<&'a str>,
}

/// The case of a text.
fn case_of(alloc: Global, text: &str) -> Result<Case, NoMemory> {
    let mut sections = text.split('@');
    let words = words_in(alloc, sections.next().unwrap_or(""))?;
    let mut files = Vec::new(alloc);
    let mut lines = None;
    let mut changed = None;
    for section in sections {
        let part = part_of(section);
        match part.name {
            "lines" => lines = Some(part.text),
            "changed" => changed = Some(part.text),
            _ => push_part(alloc, &mut files, part)?,
        }
    }
    Ok(Case {
        words,
        files,
        lines,
        changed,
    })
}

/// What the runs of a case write, how many there are, and how many end with the status 0.
#[derive(Drop)]
struct Log {
    written: MemorySink,
    line: MemorySink,
    runs: u64,
    good: u64,
}

fn empty_log(alloc: Global) -> Result<Log, NoMemory> {
    Ok(Log {
        written: sink(alloc)?,
        line: sink(alloc)?,
        runs: 0,
        good: 0,
    })
}

/// Runs words over files.
fn run_over(alloc: Global, words: &[String], files: Named, log: &mut Log) -> Status {
    let none = CallList::new(Vec::new(alloc));
    let mut files = MemoryFiles::new(FileList::new(files), none);
    run(alloc, words, &mut files, &mut log.written, &mut log.line)
}

/// Prints a piece.
fn print<O: Sink>(out: &mut O, piece: &[u8]) {
    let _ = write_pieces(out, &[piece]);
}

/// Prints a word and a number in a line.
fn print_number<O: Sink>(
    alloc: Global,
    out: &mut O,
    word: &str,
    number: u64,
) -> Result<(), NoMemory> {
    let line = format!(in alloc; "{word} {number}\n")?;
    print(out, line.as_bytes());
    Ok(())
}

/// Prints what comes of a run.
fn print_answer<O: Sink>(
    alloc: Global,
    status: Status,
    lines: Option<&str>,
    log: &Log,
    out: &mut O,
) -> Result<(), NoMemory> {
    print_number(alloc, out, "status", u64::from(status.number()))?;
    match lines {
        Some(lines) => print_lines(out, lines, log.written.bytes()),
        None => print(out, log.written.bytes()),
    }
    print(out, log.line.bytes());
    Ok(())
}

/// Files with another text in the first one.
fn with_text(alloc: Global, files: &Named, text: &[u8]) -> Result<Named, NoMemory> {
    let mut others = Vec::new(alloc);
    for (i, (name, bytes)) in files.iter().enumerate() {
        let bytes = if i == 0 { text } else { bytes.as_slice() };
        others.push((name.clone()?, Vec::from_slice(alloc, bytes)?))?;
    }
    Ok(others)
}

/// Runs a case with another text in its first file, and notes its status.
fn run_text(alloc: Global, case: &Case, text: &[u8], log: &mut Log) -> Result<(), NoMemory> {
    let files = with_text(alloc, &case.files, text)?;
    let status = run_over(alloc, &case.words, files, log);
    log.runs = log.runs.saturating_add(1);
    if status.number() == 0 {
        log.good = log.good.saturating_add(1);
    }
    print_number(
        alloc,
        &mut log.written,
        "status",
        u64::from(status.number()),
    )
}

/// Runs a case on each front of a text.
fn run_fronts(alloc: Global, case: &Case, text: &[u8], log: &mut Log) -> Result<(), NoMemory> {
    for end in 0..=text.len() {
        run_text(alloc, case, &text[..end], log)?;
    }
    Ok(())
}

/// The bytes of a piece.
fn piece_of(alloc: Global, word: &str) -> Result<Vec<u8>, NoMemory> {
    let mut piece = Vec::new(alloc);
    for number in word.split(',') {
        piece.push(number.parse().unwrap_or(0))?;
    }
    Ok(piece)
}

/// A text with a piece in the place of a byte.
fn with_piece(alloc: Global, text: &[u8], place: usize, piece: &[u8]) -> Result<Vec<u8>, NoMemory>
    requires { place < length text.now }
{
    let (front, back) = (&text[..place], &text[place..]);
    let mut changed = Vec::from_slice(alloc, front)?;
    changed.extend_from_slice(piece)?;
    changed.extend_from_slice(&back[1..])?;
    Ok(changed)
}

/// Runs a case on a text with a piece in the place of each byte.
fn run_changed(
    alloc: Global,
    case: &Case,
    text: &[u8],
    piece: &[u8],
    log: &mut Log,
) -> Result<(), NoMemory> {
    for place in 0..text.len() {
        run_text(alloc, case, &with_piece(alloc, text, place, piece)?, log)?;
    }
    Ok(())
}

/// Runs a case on each front of a text, and on it with each piece in the place of each byte.
fn run_all(
    alloc: Global,
    case: &Case,
    text: &[u8],
    pieces: &str,
    log: &mut Log,
) -> Result<(), NoMemory> {
    run_fronts(alloc, case, text, log)?;
    for word in pieces.split_whitespace() {
        run_changed(alloc, case, text, &piece_of(alloc, word)?, log)?;
    }
    Ok(())
}

/// The hash of a text that follows others with this hash.
fn hash_after(hash: u64, text: &[u8]) -> u64 {
    let mut hash = hash;
    for byte in text {
        hash = (hash ^ u64::from(*byte)).wrapping_mul(PRIME);
    }
    hash
}

/// Prints how many runs there are, how many of them are good, and the hash of what they write.
fn print_log<O: Sink>(alloc: Global, log: &Log, out: &mut O) -> Result<(), NoMemory> {
    print_number(alloc, out, "runs", log.runs)?;
    print_number(alloc, out, "good", log.good)?;
    let hash = hash_after(hash_after(BASIS, log.written.bytes()), log.line.bytes());
    print_number(alloc, out, "hash", hash)
}

/// Runs a case, and prints what comes of it.
fn show_in<O: Sink>(
    alloc: Global,
    case: &mut Case,
    log: &mut Log,
    out: &mut O,
) -> Result<(), NoMemory> {
    if let (Some(pieces), Some((_, text))) = (case.changed, case.files.first()) {
        run_all(alloc, case, text, pieces, log)?;
        return print_log(alloc, log, out);
    }
    let files = mem::replace(&mut case.files, Vec::new(alloc));
    let status = run_over(alloc, &case.words, files, log);
    print_answer(alloc, status, case.lines, log, out)
}

/// Runs a case with an empty log.
fn show<O: Sink>(alloc: Global, case: &mut Case, out: &mut O) -> Result<(), NoMemory> {
    let mut log = empty_log(alloc)?;
    show_in(alloc, case, &mut log, out)
}

/// Runs the case of a text, and prints its name and what comes of it.
fn show_named<O: Sink>(alloc: Global, name: &str, text: &str, out: &mut O) -> Result<(), NoMemory> {
    let _ = write_pieces(out, &[b"> ", name.as_bytes(), b"\n"]);
    let mut case = case_of(alloc, text)?;
    show(alloc, &mut case, out)
}

/// Takes a piece of memory for each byte of the standard input, at most 4,096, and gives it back.
fn take_pieces<R: Read>(alloc: Global, input: &mut R) -> Result<(), NoMemory> {
    let mut buffer = [0u8; 4096];
    let count = input.read(&mut buffer).unwrap_or(0);
    for byte in buffer.iter().take(count) {
        drop(Box::new(alloc, *byte)?);
    }
    Ok(())
}

fn main(rt: HostRuntime) -> ExitCode {
    if take_pieces(rt.alloc(), &mut rt.stdin()).is_err() {
        return ExitCode::from(1);
    }
    let names = match given_words(&rt) {
        Ok(names) => names,
        Err(status) => return ExitCode::from(status.number()),
    };
    let mut out = RealSink::new(rt.stdout());
    for name in &names {
        let shown = match fs::read_to_string(&rt, name.as_str()) {
            Ok(text) => show_named(rt.alloc(), name.as_str(), text.as_str(), &mut out).is_ok(),
            Err(_) => false,
        };
        if !shown {
            return ExitCode::from(1);
        }
    }
    ExitCode::SUCCESS
}
