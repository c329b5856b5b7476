//! Files and sinks in memory: that the calls succeed, and what stands where one fails.
ghost use Rattle.std.specs.Prelude.{◌<◌, ◌≤◌, ◌^◌};

use edge_io::{
    CallList, FileList, MemoryFiles, MemorySink, ReadAnswer, read_all, write_all, write_pieces,
};
use std::alloc::Global;
use std::test::Fail;

/// Three files, two of one name, of which one call fails.
fn three_files(alloc: Global, failing: u64) -> Result<MemoryFiles, Fail> {
    let mut files = Vec::new(alloc);
    for (name, bytes) in [("a", "one"), ("a", "other"), ("m", "map")] {
        let bytes = bytes.as_bytes().to_vec(alloc)?;
        files.push((String::from_str(alloc, name)?, bytes))?;
    }
    let failing = CallList::new(Vec::from_slice(alloc, &[failing])?);
    Ok(MemoryFiles::new(FileList::new(files), failing))
}

/// Whether a reading is what is wanted.
fn is_wanted(read: &Result<Vec<u8>, ReadAnswer>, want: Result<&str, ReadAnswer>) -> bool {
    match (read, want) {
        (Ok(all), Ok(want)) => all.as_slice() == want.as_bytes(),
        (Err(answer), Err(want)) => *answer == want,
        _ => false,
    }
}

/// Whether a file of some is read whole, or refused, as wanted.
fn is_read_of(
    alloc: Global,
    files: &mut MemoryFiles,
    name: String,
    limit: usize,
    want: Result<&str, ReadAnswer>,
) -> bool
    requires { limit < 2 ^ 32 }
{
    is_wanted(&read_all(alloc, files, name, limit), want)
}

/// The same of the three files.
fn is_read(
    alloc: Global,
    name: &str,
    limit: usize,
    failing: u64,
    want: Result<&str, ReadAnswer>,
) -> Result<bool, Fail>
    requires { limit < 2 ^ 32 }
{
    let name = String::from_str(alloc, name)?;
    let mut files = three_files(alloc, failing)?;
    Ok(is_read_of(alloc, &mut files, name, limit, want))
}

#[test]
fn a_file_is_read_whole_or_refused(rt: HostRuntime) -> Result<(), Fail> {
    let rows: [(&str, usize, u64, Result<&str, ReadAnswer>); 8] = [
        ("a", 3, 9, Ok("one")),
        ("m", 9, 4, Ok("map")),
        ("m", 9, 1, Err(ReadAnswer::ReadFault)),
        ("m", 9, 2, Err(ReadAnswer::ReadFault)),
        ("m", 9, 3, Err(ReadAnswer::ReadFault)),
        ("b", 9, 9, Err(ReadAnswer::ReadFault)),
        ("a", 2, 9, Err(ReadAnswer::TooLong)),
        ("a", 0, 9, Err(ReadAnswer::TooLong)),
    ];
    for (name, limit, failing, want) in rows {
        let read = is_read(rt.alloc(), name, limit, failing, want)?;
        assert!(rt; read, "{name} {limit} {failing}");
    }
    Ok(())
}

/// A sink of this room that takes so many bytes in a call, and of which one call fails.
fn sink(alloc: Global, most: usize, room: usize, failing: u64) -> Result<MemorySink, Fail>
    requires takes { 1 ≤ most }
    requires small { room < 2 ^ 32 }
{
    let failing = CallList::new(Vec::from_slice(alloc, &[failing])?);
    Ok(MemorySink::new(alloc, most, room, failing)?)
}

#[test]
fn a_front_is_written_before_a_fault(rt: HostRuntime) -> Result<(), Fail> {
    let mut sink = sink(rt.alloc(), 7, 100, 2)?;
    let failed = write_all(&mut sink, b"c scale 1\n").is_err();
    assert!(rt; failed && sink.bytes() == b"c scale".as_slice());
    Ok(())
}

#[test]
fn a_full_sink_fails(rt: HostRuntime) -> Result<(), Fail> {
    let mut full = sink(rt.alloc(), 100, 5, 9)?;
    let written = write_pieces(&mut full, &[b"c ", b"one"]).is_ok();
    let failed = write_all(&mut full, b"\n").is_err();
    assert!(rt; written && failed && full.bytes() == b"c one".as_slice());
    Ok(())
}
