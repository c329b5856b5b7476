//! Numbers put to a sink through a buffer.
//!
//! No run of the program comes here: its rows are formatted as a whole.
ghost use Rattle.std.specs.Prelude.{◌≡◌, ◌++◌, [], OnOk, OnErr};
ghost use Rattle.std.specs.Fmt.{signed_decimal};
ghost use Rattle.edge_io.specs.Counts.{HasCause};
ghost use Rattle.edge_io.specs.Sinks.{TakesFront, Passes};

use edge_io::{LineBuffer, Sink, WriteFault};
use itoa::Buffer;

/// Puts the decimal text: a `-` for a number below 0, and digits without a zero in front. It takes
/// no memory. After a fault nothing is pending.
pub fn put_number<S: Sink>(
    buffer: &mut LineBuffer,
    sink: &mut S,
    value: i128,
) -> Result<(), WriteFault>
    ensures passed { OnOk result (Passes (S.taken sink.old) (S.taken sink.new)
        buffer.old buffer.new (signed_decimal value)) }
    ensures front { OnErr result (TakesFront (S.taken sink.old) (S.taken sink.new)
        (buffer.old ++ signed_decimal value)) }
    ensures lost { OnErr result (buffer.new ≡ []) }
    ensures cause { HasCause (S.faults sink.old) (S.faults sink.new) result }
{
    let mut digits = Buffer::new();
    buffer.put(sink, digits.format(value).as_bytes())
}
