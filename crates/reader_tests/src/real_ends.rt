//! The real ends: a stream of the test's own, a file that is missing, and one that is written first.
use edge_io::{Failed, Files, RealFiles, RealSink, Sink, read_all};
use std::io::Write;
use std::test::Fail;
use std::{fs, io};

/// A stream that takes two bytes, and then nothing.
#[derive(Drop)]
struct TwoBytes {
    room: usize,
}

impl Write for TwoBytes {
    fn write(&mut self, buf: &[u8]) -> io::Result<usize> {
        let count = self.room.min(buf.len());
        self.room -= count;
        Ok(count)
    }

    fn flush(&mut self) -> io::Result<()> {
        Ok(())
    }
}

#[test]
fn a_write_that_takes_nothing_has_failed(rt: HostRuntime) {
    let mut sink = RealSink::new(TwoBytes { room: 2 });
    let rows: [(&[u8], Result<usize, Failed>); 3] = [
        (b"abc", Ok(2)),
        (b"", Ok(0)),
        (b"c", Err(Failed)),
    ];
    for (piece, answer) in rows {
        assert!(rt; sink.write(piece) == answer, "{piece:?}");
    }
}

#[test]
fn a_missing_file_is_not_begun(rt: HostRuntime) -> Result<(), Fail> {
    let missing = String::from_str(rt.alloc(), "no/such/file")?;
    let mut files = RealFiles::new(rt);
    assert_eq!(rt; files.begin(missing), Err(Failed));
    Ok(())
}

#[test]
fn a_file_that_is_there_is_read_whole(rt: HostRuntime) -> Result<(), Fail> {
    let alloc = rt.alloc();
    fs::write(&rt, "three_bytes", "one")?;
    let name = String::from_str(alloc, "three_bytes")?;
    let mut files = RealFiles::new(rt);
    let read = match read_all(alloc, &mut files, name, 3) {
        Ok(all) => all.as_slice() == b"one".as_slice(),
        Err(_) => false,
    };
    fs::remove_file(&rt, "three_bytes")?;
    assert!(rt; read);
    Ok(())
}
