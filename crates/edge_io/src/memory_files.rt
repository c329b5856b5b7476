//! Files in memory, whose listed calls fail.
//!
//! They are for tests and for other programs: no run of the program comes here.
ghost use Rattle.std.specs.Prelude.{◌≡◌, ◌↔◌, Some, min, length, IsTrue, IsErr, IfOk, OnErr, string_bytes};
ghost use Rattle.std.specs.Io.{ReadsAtMost};
ghost use Rattle.std.specs.Io.KnownBytes.{ReadConsumes};
ghost use Rattle.edge_io.specs.Counts.{count_after, CountsErr, CountsNothing, HasCause};
ghost use Rattle.edge_io.specs.Held.{Begins};
ghost use Rattle.edge_io.specs.laws.Begun.{after_first-none};
ghost use Rattle.edge_io.specs.InMemory.{unbegun_files, begin_fails, is_listed, rest_of, name_of};

use crate::empties::empties_after;
use crate::{CallList, Failed, FileList, Files};
use std::marker::Model;

/// Files in memory. The calls of `begin` and `read` are numbered together, from 1, and the listed
/// ones fail. No call takes memory: the begun file is an index, and its rest begins at a place.
#[derive(Drop)]
pub struct MemoryFiles {
    files: FileList,
    failing: CallList,
    calls: u64,
    name: Option<String>,
    index: Option<usize>,
    at: usize,
    faults: u64,
    taken: u64,
    empty_reads: u64,
    begun: u64,
    faults_at_begin: u64,
}

impl Model for MemoryFiles {
    ghost use Rattle.std.specs.Prelude.{◌≡◌, ◌<◌, ◌≤◌, [], None, length, string_bytes};
    ghost use Rattle.std.specs.Option.{option_map_or, ForSome};
    ghost use Rattle.edge_io.specs.InMemory.{FilesState, rest_from, bytes_at};

    ghost Value = { FilesState };

    ghost view = { λ f. record {
      held = f.files;
      failing = f.failing;
      calls = f.calls;
      name = option_map_or string_bytes f.name [];
      rest = rest_from f.files f.index f.at;
      faults = f.faults;
      taken = f.taken;
      empty_reads = f.empty_reads;
      begun = f.begun;
      faults_at_begin = f.faults_at_begin;
    } };

    ghost invariant = { λ f. (f.begun ≡ 0 → f.index ≡ None) ×
        ForSome f.index (λ i. (i < length f.files) × (f.at ≤ length (bytes_at f.files i))) };
}

impl MemoryFiles {
    pub fn new(files: FileList, failing: CallList) -> MemoryFiles
        ensures { result ≡ unbegun_files files failing }
    {
        MemoryFiles {
            files,
            failing,
            calls: 0,
            name: None,
            index: None,
            at: 0,
            faults: 0,
            taken: 0,
            empty_reads: 0,
            begun: 0,
            faults_at_begin: 0,
        }
    }
}

impl Files for MemoryFiles {
    ghost held = { λ f. Some f.held };

    ghost rest = { λ f. Some (rest_of f) };

    ghost counts = { λ f. record {
      faults = f.faults;
      begun = f.begun;
      name = name_of f;
      faults_at_begin = f.faults_at_begin;
      taken = f.taken;
      empty_reads = f.empty_reads;
    } };

    ghost at_first = { λ f none.
        (after_first-none f.begun f.rest none, after_first-none f.begun f.name none) };

    fn begin(&mut self, name: String) -> Result<(), Failed>
        ensures failed { IsErr result ↔ IsTrue (begin_fails self.old (string_bytes name)) }
        ensures calls { self.new.calls ≡ count_after self.old.calls 1 }
        ensures failing { self.new.failing ≡ self.old.failing }
        ensures faults { CountsErr self.old.faults self.new.faults result }

        // What each store of files promises.
        ensures held { Some self.new.held ≡ Some self.old.held }
        ensures rest { Begins (Some self.old.held) (string_bytes name) result
            (Some (rest_of self.new)) }
        ensures cause { HasCause self.old.faults self.new.faults result }
        ensures none_taken { self.new.taken ≡ 0 }
        ensures none_empty { self.new.empty_reads ≡ 0 }
        ensures counted { self.new.begun ≡ count_after self.old.begun 1 }
        ensures marked { self.new.faults_at_begin ≡ self.old.faults }
        ensures named { name_of self.new ≡ string_bytes name }
    {
        self.calls = self.calls.saturating_add(1);
        self.begun = self.begun.saturating_add(1);
        self.faults_at_begin = self.faults;
        self.taken = 0;
        self.empty_reads = 0;
        self.at = 0;
        let listed = self.failing.contains(self.calls);
        let place = self.files.index_of(name.as_str());
        self.name = Some(name);
        match place {
            Some(index) if !listed => {
                self.index = Some(index);
                Ok(())
            }
            _ => {
                self.index = None;
                self.faults = self.faults.saturating_add(1);
                Err(Failed)
            }
        }
    }

    fn read(&mut self, into: &mut [u8]) -> Result<usize, Failed>
        ensures failed { IsErr result ↔ IsTrue (is_listed self.old.failing self.old.calls) }
        ensures fits { IfOk result (λ n. n ≡ min (length into.old) (length (rest_of self.old))) }
        ensures calls { self.new.calls ≡ count_after self.old.calls 1 }
        ensures failing { self.new.failing ≡ self.old.failing }
        ensures faults { CountsErr self.old.faults self.new.faults result }

        // What each store of files promises.
        ensures held { Some self.new.held ≡ Some self.old.held }
        ensures bound { ReadsAtMost result into.new }
        ensures rest { ReadConsumes (Some (rest_of self.old)) (Some (rest_of self.new)) result
            into.new }
        ensures cause { HasCause self.old.faults self.new.faults result }
        ensures counted { IfOk result (λ n. self.new.taken ≡ count_after self.old.taken n) }
        ensures none_taken { OnErr result (self.new.taken ≡ self.old.taken) }
        ensures nothing { CountsNothing self.old.empty_reads self.new.empty_reads result }
        ensures same_begin { self.new.begun ≡ self.old.begun }
        ensures same_mark { self.new.faults_at_begin ≡ self.old.faults_at_begin }
        ensures same_name { name_of self.new ≡ name_of self.old }
    {
        self.calls = self.calls.saturating_add(1);
        if self.failing.contains(self.calls) {
            self.faults = self.faults.saturating_add(1);
            self.empty_reads = self.empty_reads.saturating_add(1);
            return Err(Failed);
        }
        let Some(index) = self.index else {
            self.empty_reads = self.empty_reads.saturating_add(1);
            return Ok(0);
        };
        let rest = &self.files.bytes_at(index)[self.at..];
        let count = into.len().min(rest.len());
        into[..count].copy_from_slice(&rest[..count]);
        self.at += count;
        self.taken = self.taken.saturating_add(count as u64);
        self.empty_reads = empties_after(self.empty_reads, count);
        Ok(count)
    }
}
