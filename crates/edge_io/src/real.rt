//! The real files and streams. They tell of bytes what the library tells of the file or the writer
//! below, nothing of what stands under a path, and count as every end does.
ghost use Rattle.std.specs.Prelude.{◌≡◌, [], None, Some, string_bytes};
ghost use Rattle.std.specs.Option.{option_map_or};
ghost use Rattle.edge_io.specs.Counts.{none_yet};
ghost use Rattle.edge_io.specs.Held.{after_first, since_begin};
ghost use Rattle.edge_io.specs.laws.Begun.{after_first-none, since_begin-none};

use crate::empties::empties_after;
use crate::{Failed, Files, Sink};
use std::io::{Read, Write};
use std::{fs, rt};

/// The files of the system, by their paths.
#[derive(Drop)]
pub struct RealFiles<R: rt::Files> {
    rt: R,
    file: Option<R::File>,
    name: Option<String>,
    faults: u64,
    taken: u64,
    empty_reads: u64,
    begun: u64,
    faults_at_begin: u64,
}

impl<R: rt::Files + Drop> RealFiles<R>
where
    R::File: Drop,
{
    pub fn new(rt: R) -> RealFiles<R>
        ensures { ⟦<RealFiles<R> as Files>⟧.counts result ≡ none_yet }
    {
        RealFiles {
            rt,
            file: None,
            name: None,
            faults: 0,
            taken: 0,
            empty_reads: 0,
            begun: 0,
            faults_at_begin: 0,
        }
    }
}

impl<R: rt::Files + Drop> Files for RealFiles<R>
where
    R::File: Drop,
{
    ghost held = { λ f. None };

    ghost rest = { λ f. since_begin f.begun (option_map_or R.File.Read.remaining f.file (Some [])) };

    ghost counts = { λ f. record {
      faults = f.faults;
      begun = f.begun;
      name = after_first f.begun (option_map_or string_bytes f.name []);
      faults_at_begin = f.faults_at_begin;
      taken = f.taken;
      empty_reads = f.empty_reads;
    } };

    ghost at_first = { λ f none. (since_begin-none f.begun _ none, after_first-none f.begun _ none) };

    fn begin(&mut self, name: String) -> Result<(), Failed> {
        self.begun = self.begun.saturating_add(1);
        self.faults_at_begin = self.faults;
        self.taken = 0;
        self.empty_reads = 0;
        let opened = fs::open(&self.rt, name.as_str());
        self.name = Some(name);
        match opened {
            Ok(file) => {
                self.file = Some(file);
                Ok(())
            }
            Err(_) => {
                self.file = None;
                self.faults = self.faults.saturating_add(1);
                Err(Failed)
            }
        }
    }

    fn read(&mut self, into: &mut [u8]) -> Result<usize, Failed> {
        let given = match &mut self.file {
            Some(file) => file.read(into),
            None => Ok(0),
        };
        match given {
            Ok(count) => {
                self.taken = self.taken.saturating_add(count as u64);
                self.empty_reads = empties_after(self.empty_reads, count);
                Ok(count)
            }
            Err(_) => {
                self.empty_reads = self.empty_reads.saturating_add(1);
                self.faults = self.faults.saturating_add(1);
                Err(Failed)
            }
        }
    }
}

/// A stream of the system. A write that takes nothing of a piece that isn't empty has failed, since
/// trying it again could go on without end.
#[derive(Drop)]
pub struct RealSink<W: Write> {
    writer: W,
    taken: u64,
    faults: u64,
}

impl<W: Write> RealSink<W> {
    pub fn new(writer: W) -> RealSink<W>
        ensures none_taken { (⟦<RealSink<W> as Sink>⟧.taken result).count ≡ 0 }
        ensures no_fault { ⟦<RealSink<W> as Sink>⟧.faults result ≡ 0 }
    {
        RealSink {
            writer,
            taken: 0,
            faults: 0,
        }
    }
}

impl<W: Write> Sink for RealSink<W> {
    ghost taken = { λ s. record {
      bytes = W.contents s.writer;
      count = s.taken;
    } };

    ghost faults = { λ s. s.faults };

    fn write(&mut self, piece: &[u8]) -> Result<usize, Failed> {
        match self.writer.write(piece) {
            Ok(count) if count > 0 || piece.is_empty() => {
                self.taken = self.taken.saturating_add(count as u64);
                Ok(count)
            }
            _ => {
                self.faults = self.faults.saturating_add(1);
                Err(Failed)
            }
        }
    }
}
