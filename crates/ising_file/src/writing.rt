//! The text of a model of spins as a whole.
//!
//! No run of the program comes here: it writes a model row by row.
ghost use Rattle.std.specs.Prelude.{◌≡◌, ◌≢◌, [], IfOk, OnOk, OnErr};
ghost use Rattle.edge_io.specs.Counts.{HasCause};
ghost use Rattle.edge_io.specs.Sinks.{Takes, TakesFront};
ghost use Rattle.bits_model.specs.declared.output.Kind.TheVariants.{Qubo};
ghost use Rattle.model_text.specs.Rows.{model_text};
ghost use Rattle.model_text.specs.Told.{TellsModel};

use base::NoMemory;
use bits_model::OutputModel;
use edge_io::{LineBuffer, Sink, WriteFault};
use model_text::{write_text, written_text};
use std::alloc::Global;

/// The text of a model of spins, which no other model has.
pub fn ising_text(alloc: Global, model: &OutputModel) -> Result<Vec<u8>, NoMemory>
    requires { model.now.kind ≢ Qubo }
    ensures text { IfOk result (λ text. text.items ≡ model_text model.now) }
    ensures one { IfOk result (λ text. TellsModel text.items model.now) }
{
    written_text(alloc, model)
}

/// Writes the text of a model of spins row by row, or a front of it where the sink fails. It takes no memory,
/// and nothing is pending after it.
pub fn write_ising<S: Sink>(
    model: &OutputModel,
    buffer: &mut LineBuffer,
    sink: &mut S,
) -> Result<(), WriteFault>
    requires kind { model.now.kind ≢ Qubo }
    requires unused { buffer.old ≡ [] }
    ensures whole { OnOk result
        (Takes (S.taken sink.old) (S.taken sink.new) (model_text model.now)) }
    ensures front { OnErr result
        (TakesFront (S.taken sink.old) (S.taken sink.new) (model_text model.now)) }
    ensures empty { buffer.new ≡ [] }
    ensures cause { HasCause (S.faults sink.old) (S.faults sink.new) result }
{
    write_text(model, buffer, sink)
}
