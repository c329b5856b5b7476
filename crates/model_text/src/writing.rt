//! The text of a model as a whole.
ghost use Rattle.std.specs.Prelude.{◌≡◌, [], Some, length, IfOk, OnOk, OnErr};
ghost use Rattle.edge_io.specs.Counts.{HasCause};
ghost use Rattle.edge_io.specs.Sinks.{Takes, TakesFront};
ghost use Rattle.model_text.specs.Lines.{IsPutBy};
ghost use Rattle.model_text.specs.Rows.{model_text};
ghost use Rattle.model_text.specs.Told.{TellsModel};

use crate::lines::{put_entries, put_figures, put_graph, put_header};
use base::NoMemory;
use bits_model::OutputModel;
use edge_io::{Failed, LineBuffer, Sink, WriteFault};
use std::alloc::Global;

/// A sink in memory, which grows with what is written to it. A write fails where memory is refused.
#[derive(Drop)]
struct GrowingSink {
    bytes: Vec<u8>,
    faults: u64,
}

impl Sink for GrowingSink {
    ghost taken = { λ s. record {
      bytes = Some s.bytes.items;
      count = length s.bytes.items;
    } };

    ghost faults = { λ s. s.faults };

    fn write(&mut self, piece: &[u8]) -> Result<usize, Failed> {
        if self.bytes.extend_from_slice(piece).is_err() {
            self.faults = self.faults.saturating_add(1);
            return Err(Failed);
        }
        Ok(piece.len())
    }
}

/// The text of a model, which no other model has.
pub fn written_text(alloc: Global, model: &OutputModel) -> Result<Vec<u8>, NoMemory>
    ensures text { IfOk result (λ text. text.items ≡ model_text model.now) }
    ensures one { IfOk result (λ text. TellsModel text.items model.now) }
{
    let mut buffer = LineBuffer::new(alloc)?;
    let room = model.entries.couplers.len().saturating_mul(16);
    let mut sink = GrowingSink {
        bytes: Vec::with_capacity(alloc, room)?,
        faults: 0,
    };
    match write_text(model, &mut buffer, &mut sink) {
        Ok(()) => Ok(sink.bytes),
        Err(WriteFault) => Err(NoMemory),
    }
}

/// Puts each row of a model.
fn put_text<S: Sink>(
    model: &OutputModel,
    buffer: &mut LineBuffer,
    sink: &mut S,
) -> Result<(), WriteFault>
    ensures put { IsPutBy (S.taken sink.old) (S.taken sink.new) (S.faults sink.old) (S.faults sink.new)
        buffer.old buffer.new (model_text model.now) result }
    ensures one { OnOk result (TellsModel (model_text model.now) model.now) }
{
    let entries = &model.entries;
    put_figures(buffer, sink, model.figures, model.unit, model.variables)?;
    put_graph(buffer, sink, model.kind, &model.chains)?;
    put_header(buffer, sink, model.kind, model.nodes, entries)?;
    put_entries(buffer, sink, entries)
}

/// Writes the text of a model row by row, or a front of it where the sink fails. No other model has
/// that text. It takes no memory, and nothing is pending after it.
pub fn write_text<S: Sink>(
    model: &OutputModel,
    buffer: &mut LineBuffer,
    sink: &mut S,
) -> Result<(), WriteFault>
    requires { buffer.old ≡ [] }
    ensures whole { OnOk result
        (Takes (S.taken sink.old) (S.taken sink.new) (model_text model.now)) }
    ensures one { OnOk result (TellsModel (model_text model.now) model.now) }
    ensures front { OnErr result
        (TakesFront (S.taken sink.old) (S.taken sink.new) (model_text model.now)) }
    ensures empty { buffer.new ≡ [] }
    ensures cause { HasCause (S.faults sink.old) (S.faults sink.new) result }
{
    put_text(model, buffer, sink)?;
    buffer.flush(sink)
}
