//! Whole files and whole pieces, over any store of files and any sink.
ghost use Rattle.std.specs.Prelude.{◌≡◌, ◌+◌, ◌^◌, ◌<◌, ◌≤◌, ◌↔◌, length, IfOk, OnOk, OnErr, IsErrOf, string_bytes};
ghost use Rattle.edge_io.specs.Counts.{count_after, Rose, HasCause};
ghost use Rattle.edge_io.specs.Held.{find_file, WhereTold, IsLonger};
ghost use Rattle.edge_io.specs.Sinks.{Takes, TakesFront, joined_bytes};
ghost use Rattle.edge_io.specs.declared.whole.ReadAnswer.TheVariants.{NoMemory};

use crate::{Files, Sink};
use std::alloc::{AllocError, Global};

/// Why a whole file was not read.
#[derive(Clone, Copy, Debug, PartialEq, Eq)]
pub enum ReadAnswer {
    /// A call of `begin` or `read` failed.
    ReadFault,
    /// The file is longer than the limit.
    TooLong,
    /// Memory was refused.
    NoMemory,
}

impl From<AllocError> for ReadAnswer {
    ghost from_gives = { λ _ answer. answer ≡ NoMemory };

    fn from(_: AllocError) -> Self {
        ReadAnswer::NoMemory
    }
}

/// A call of `write` failed.
#[derive(Clone, Copy, Debug, PartialEq, Eq)]
pub struct WriteFault;

/// How many bytes are read at once; they stand on the stack.
const PIECE: usize = 4096;

/// The whole of the named file, which has at most `limit` bytes.
pub fn read_all<F: Files>(
    alloc: Global,
    files: &mut F,
    name: String,
    limit: usize,
) -> Result<Vec<u8>, ReadAnswer>
    requires { limit < 2 ^ 32 }
    ensures whole { IfOk result (λ all. WhereTold (F.held files.old) (λ held.
        find_file held (string_bytes name) ≡ Some all.items)) }
    ensures all_taken { IfOk result (λ all. (F.counts files.new).taken ≡ length all.items) }

    // One read gives nothing, and then no more is read.
    ensures to_end { OnOk result ((F.counts files.new).empty_reads ≡ 1) }
    ensures no_end { IsErrOf result ReadAnswer.TooLong → (F.counts files.new).empty_reads ≡ 0 }

    // The file was begun once, under this name and before any read, whatever the answer.
    ensures begun { (F.counts files.new).begun ≡ count_after (F.counts files.old).begun 1 }
    ensures marked { (F.counts files.new).faults_at_begin ≡ (F.counts files.old).faults }
    ensures named { (F.counts files.new).name ≡ string_bytes name }
    ensures held { F.held files.new ≡ F.held files.old }

    ensures no_fall { (F.counts files.old).faults ≤ (F.counts files.new).faults }
    ensures fault { IsErrOf result ReadAnswer.ReadFault →
        Rose (F.counts files.old).faults (F.counts files.new).faults }
    ensures calm { ¬ (IsErrOf result ReadAnswer.ReadFault) →
        (F.counts files.new).faults ≡ (F.counts files.old).faults }
    ensures unheld { WhereTold (F.held files.old) (λ held.
        find_file held (string_bytes name) ≡ None → IsErrOf result ReadAnswer.ReadFault) }

    // One byte beyond the limit tells that a file is too long, and no more is taken.
    ensures at_most { (F.counts files.new).taken ≤ limit + 1 }
    ensures too_long { IsErrOf result ReadAnswer.TooLong
        ↔ ((F.counts files.new).taken ≡ limit + 1) }
    ensures longer { IsErrOf result ReadAnswer.TooLong →
        WhereTold (F.held files.old) (λ held. IsLonger held (string_bytes name) limit) }
{
    if files.begin(name).is_err() {
        return Err(ReadAnswer::ReadFault);
    }
    let mut all = Vec::new(alloc);
    let mut buffer = [0u8; PIECE];
    loop {
        let room = PIECE.min(limit + 1 - all.len());
        let Ok(count) = files.read(&mut buffer[..room]) else {
            return Err(ReadAnswer::ReadFault);
        };
        if count == 0 {
            return Ok(all);
        }
        // The length is known before memory is asked for, so `TooLong` does not depend on memory.
        if all.len() + count > limit {
            return Err(ReadAnswer::TooLong);
        }
        all.extend_from_slice(&buffer[..count])?;
    }
}

/// Writes the whole piece, or a front of it where the sink fails.
pub fn write_all<S: Sink>(sink: &mut S, piece: &[u8]) -> Result<(), WriteFault>
    ensures whole { OnOk result (Takes (S.taken sink.old) (S.taken sink.new) piece.now) }
    ensures front { OnErr result (TakesFront (S.taken sink.old) (S.taken sink.new) piece.now) }
    ensures cause { HasCause (S.faults sink.old) (S.faults sink.new) result }
{
    let mut rest = piece;
    while !rest.is_empty() {
        match sink.write(rest) {
            Ok(count) => rest = &rest[count..],
            Err(_) => return Err(WriteFault),
        }
    }
    Ok(())
}

/// Writes the pieces one after the other, or a front of them all where the sink fails. It takes no
/// memory, since the pieces are not joined first.
pub fn write_pieces<S: Sink>(sink: &mut S, pieces: &[&[u8]]) -> Result<(), WriteFault>
    ensures whole { OnOk result
        (Takes (S.taken sink.old) (S.taken sink.new) (joined_bytes pieces.now)) }
    ensures front { OnErr result
        (TakesFront (S.taken sink.old) (S.taken sink.new) (joined_bytes pieces.now)) }
    ensures cause { HasCause (S.faults sink.old) (S.faults sink.new) result }
{
    for piece in pieces {
        match write_all(sink, piece) {
            Ok(()) => {}
            Err(fault) => return Err(fault),
        }
    }
    Ok(())
}
