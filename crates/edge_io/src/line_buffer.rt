//! A small buffer before a sink, so that lines are written without a whole text and without a call
//! for each.
ghost use Rattle.std.specs.Prelude.{◌≡◌, ◌++◌, ◌+◌, ◌≤◌, [], length, take, IfOk, OnOk, OnErr};
ghost use Rattle.edge_io.specs.Counts.{HasCause};
ghost use Rattle.edge_io.specs.Sinks.{Takes, TakesFront, Passes};

use crate::Sink;
use crate::whole::{WriteFault, write_all};
use base::NoMemory;
use std::alloc::Global;
use std::marker::Model;

/// How many bytes can be pending.
const ROOM: usize = 4096;

/// The bytes that are on their way to a sink. At most 4,096 are pending, so no write is longer.
/// Only `new` takes memory.
#[derive(Drop)]
pub struct LineBuffer {
    room: Vec<u8>,
    len: usize,
}

impl Model for LineBuffer {
    ghost use Rattle.std.specs.Prelude.{List, ℕ, ◌≡◌, ◌≤◌, length, take};

    ghost Value = { List ℕ };

    ghost view = { λ buffer. take buffer.len buffer.room.items };

    ghost invariant = { λ buffer. (length buffer.room.items ≡ 4096) × (buffer.len ≤ 4096) };
}

impl LineBuffer {
    /// An empty buffer with its whole room.
    pub fn new(alloc: Global) -> Result<LineBuffer, NoMemory>
        ensures { IfOk result (λ buffer. buffer ≡ []) }
    {
        let mut room = Vec::new(alloc);
        room.resize(ROOM, 0)?;
        Ok(LineBuffer { room, len: 0 })
    }

    /// Puts a piece behind the pending bytes, and writes a front of them all where the room is
    /// short. After a fault nothing is pending.
    #[inline(always)]
    pub fn put<S: Sink>(&mut self, sink: &mut S, piece: &[u8]) -> Result<(), WriteFault>
        ensures passed { OnOk result
            (Passes (S.taken sink.old) (S.taken sink.new) self.old self.new piece.now) }
        ensures front { OnErr result
            (TakesFront (S.taken sink.old) (S.taken sink.new) (self.old ++ piece.now)) }
        ensures lost { OnErr result (self.new ≡ []) }
        ensures cause { HasCause (S.faults sink.old) (S.faults sink.new) result }
    {
        if piece.len() <= self.free() {
            self.append(piece);
            Ok(())
        } else {
            self.put_long(sink, piece)
        }
    }

    /// Puts the first of these bytes, as `put` does. All are copied, since that takes a few moves
    /// where their count is a constant, and the others do not count.
    #[inline(always)]
    pub fn put_front<S: Sink>(
        &mut self,
        sink: &mut S,
        bytes: &[u8],
        len: usize,
    ) -> Result<(), WriteFault>
        requires { len ≤ length bytes.now }
        ensures passed { OnOk result
            (Passes (S.taken sink.old) (S.taken sink.new) self.old self.new (take len bytes.now)) }
        ensures front { OnErr result
            (TakesFront (S.taken sink.old) (S.taken sink.new) (self.old ++ take len bytes.now)) }
        ensures lost { OnErr result (self.new ≡ []) }
        ensures cause { HasCause (S.faults sink.old) (S.faults sink.new) result }
    {
        if bytes.len() <= self.free() {
            self.append_front(bytes, len);
            Ok(())
        } else {
            self.put_long(sink, &bytes[..len])
        }
    }

    /// Writes the pending bytes. Whatever the answer, nothing is pending then.
    pub fn flush<S: Sink>(&mut self, sink: &mut S) -> Result<(), WriteFault>
        ensures whole { OnOk result (Takes (S.taken sink.old) (S.taken sink.new) self.old) }
        ensures front { OnErr result
            (TakesFront (S.taken sink.old) (S.taken sink.new) self.old) }
        ensures empty { self.new ≡ [] }
        ensures cause { HasCause (S.faults sink.old) (S.faults sink.new) result }
    {
        let written = write_all(sink, &self.room[..self.len]);
        self.len = 0;
        written
    }

    /// How many more bytes can be pending.
    fn free(&self) -> usize
        ensures { result + length self.now ≡ 4096 }
    {
        ROOM - self.len
    }

    /// Appends to the pending bytes.
    #[inline(always)]
    fn append(&mut self, piece: &[u8])
        requires { length self.old + length piece.now ≤ 4096 }
        ensures { self.new ≡ self.old ++ piece.now }
    {
        self.append_front(piece, piece.len());
    }

    /// Appends the first of these bytes, for all of which there is room.
    #[inline(always)]
    fn append_front(&mut self, bytes: &[u8], len: usize)
        requires within { len ≤ length bytes.now }
        requires room { length self.old + length bytes.now ≤ 4096 }
        ensures { self.new ≡ self.old ++ take len bytes.now }
    {
        let start = self.len;
        self.room[start..start + bytes.len()].copy_from_slice(bytes);
        self.len = start + len;
    }

    /// Puts a piece in parts, each of which fills the room and is written.
    #[inline(never)]
    fn put_long<S: Sink>(&mut self, sink: &mut S, piece: &[u8]) -> Result<(), WriteFault>
        ensures passed { OnOk result
            (Passes (S.taken sink.old) (S.taken sink.new) self.old self.new piece.now) }
        ensures front { OnErr result
            (TakesFront (S.taken sink.old) (S.taken sink.new) (self.old ++ piece.now)) }
        ensures lost { OnErr result (self.new ≡ []) }
        ensures cause { HasCause (S.faults sink.old) (S.faults sink.new) result }
    {
        let mut rest = piece;
        while rest.len() > self.free() {
            let (front, after) = rest.split_at(self.free());
            self.append(front);
            match self.flush(sink) {
                Ok(()) => rest = after,
                Err(fault) => return Err(fault),
            }
        }
        self.append(rest);
        Ok(())
    }
}
