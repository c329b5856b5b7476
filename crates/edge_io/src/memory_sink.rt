//! A sink in memory, of limited room, whose listed calls fail.
//!
//! It is for tests and for other programs: no run of the program comes here.
ghost use Rattle.std.specs.Prelude.{◌≡◌, ◌↔◌, ◌^◌, ◌<◌, ◌≤◌, Some, length, IsTrue, IsErr, IfOk, OnErr};
ghost use Rattle.std.specs.Io.KnownBytes.{WriteAppends};
ghost use Rattle.edge_io.specs.Counts.{count_after, RoseBy, CountsErr, HasCause};
ghost use Rattle.edge_io.specs.Sinks.{TakesSome};
ghost use Rattle.edge_io.specs.InMemory.{empty_sink, write_fails, write_takes};

use crate::{CallList, Failed, Sink};
use base::NoMemory;
use std::alloc::Global;
use std::marker::Model;

/// A sink that takes at most `most` bytes in a call and `room` in all. Its calls are numbered from
/// 1, and the listed ones fail.
#[derive(Drop)]
pub struct MemorySink {
    bytes: Vec<u8>,
    most: usize,
    room: usize,
    failing: CallList,
    calls: u64,
    faults: u64,
}

impl Model for MemorySink {
    ghost use Rattle.std.specs.Prelude.{◌≤◌, length, vec_capacity};
    ghost use Rattle.edge_io.specs.InMemory.{SinkState};

    ghost Value = { SinkState };

    ghost view = { λ s. record {
      bytes = s.bytes.items;
      most = s.most;
      room = s.room;
      failing = s.failing;
      calls = s.calls;
      faults = s.faults;
    } };

    ghost invariant = { λ s. (1 ≤ s.most) × (length s.bytes.items ≤ s.room) ×
        (s.room ≤ vec_capacity s.bytes) };
}

impl MemorySink {
    /// Reserves the whole room, so that no `write` takes memory.
    pub fn new(
        alloc: Global,
        most: usize,
        room: usize,
        failing: CallList,
    ) -> Result<MemorySink, NoMemory>
        requires takes { 1 ≤ most }
        requires small { room < 2 ^ 32 }
        ensures { IfOk result (λ sink. sink ≡ empty_sink most room failing) }
    {
        let bytes = Vec::with_capacity(alloc, room)?;
        Ok(MemorySink {
            bytes,
            most,
            room,
            failing,
            calls: 0,
            faults: 0,
        })
    }

    /// The bytes so far.
    pub fn bytes(&self) -> &[u8]
        ensures { result.now ≡ self.now.bytes }
    {
        &self.bytes
    }
}

impl Sink for MemorySink {
    ghost taken = { λ s. record {
      bytes = Some s.bytes;
      count = length s.bytes;
    } };

    ghost faults = { λ s. s.faults };

    fn write(&mut self, piece: &[u8]) -> Result<usize, Failed>
        ensures failed { IsErr result ↔ IsTrue (write_fails self.old piece.now) }
        ensures taken { IfOk result (λ n. n ≡ write_takes self.old piece.now) }
        ensures calls { self.new.calls ≡ count_after self.old.calls 1 }
        ensures faults { CountsErr self.old.faults self.new.faults result }
        ensures same { self.new ≡ record self.old {
          bytes = self.new.bytes;
          calls = self.new.calls;
          faults = self.new.faults;
        } }

        // What each sink promises.
        ensures bytes { WriteAppends (Some self.old.bytes) (Some self.new.bytes) result piece.now }
        ensures counted { IfOk result (λ n.
            RoseBy n (length self.old.bytes) (length self.new.bytes)) }
        ensures none_counted { OnErr result (length self.new.bytes ≡ length self.old.bytes) }
        ensures bound { TakesSome result piece.now }
        ensures cause { HasCause self.old.faults self.new.faults result }
    {
        self.calls = self.calls.saturating_add(1);
        let full = !piece.is_empty() && self.bytes.len() == self.room;
        if self.failing.contains(self.calls) || full {
            self.faults = self.faults.saturating_add(1);
            return Err(Failed);
        }
        let free = self.room - self.bytes.len();
        let count = self.most.min(piece.len().min(free));
        // The room was reserved, so this takes no memory and cannot fail.
        self.bytes.extend_from_slice(&piece[..count]).unwrap();
        Ok(count)
    }
}
