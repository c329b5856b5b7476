//! A line in one write, so that the lines of programs that share a pipe do not mix.
ghost use Rattle.std.specs.Prelude.{◌≡◌, ◌≤◌, ◌↔◌, IfSome, IsSome, OnOk, OnErr, length};
ghost use Rattle.edge_io.specs.Counts.{HasCause};
ghost use Rattle.edge_io.specs.Sinks.{Takes, TakesFront, joined_bytes};

use arrayvec::ArrayVec;
use edge_io::{Sink, WriteFault, write_all, write_pieces};

/// The longest line that is written at once: as much as a pipe takes without mixing it with others.
const ROOM: usize = 4096;

/// The pieces one after the other, on the stack; `None` where they have no room there.
fn joined(pieces: &[&[u8]]) -> Option<ArrayVec<u8, ROOM>>
    ensures joined { IfSome result (λ line. line.items ≡ joined_bytes pieces.now) }
    ensures room { IsSome result ↔ length (joined_bytes pieces.now) ≤ 4096 }
{
    let mut line = ArrayVec::new();
    for piece in pieces {
        if line.try_extend_from_slice(piece).is_err() {
            return None;
        }
    }
    Some(line)
}

/// Writes the pieces one after the other, or a front of them all where the sink fails. They go out in
/// one write where they have room on the stack, and else in one each. It takes no memory.
pub(crate) fn write_line<S: Sink>(sink: &mut S, pieces: &[&[u8]]) -> Result<(), WriteFault>
    ensures whole { OnOk result
        (Takes (S.taken sink.old) (S.taken sink.new) (joined_bytes pieces.now)) }
    ensures front { OnErr result
        (TakesFront (S.taken sink.old) (S.taken sink.new) (joined_bytes pieces.now)) }
    ensures cause { HasCause (S.faults sink.old) (S.faults sink.new) result }
{
    match joined(pieces) {
        Some(line) => write_all(sink, line.as_slice()),
        None => write_pieces(sink, pieces),
    }
}
