//! The delivery of an answer. Nothing here has an allocator: all memory is taken before.
ghost use Rattle.std.specs.Prelude.{◌≡◌, []};
ghost use Rattle.model_text.specs.Rows.{model_text};
ghost use Rattle.run_steps.specs.Statuses.{CountsWriteFault, OnRefusal};
ghost use Rattle.program_run.specs.Answers.{text_of, IsDelivered};

use crate::answer::Answer;
use bits_model::OutputModel;
use edge_io::{LineBuffer, Sink, write_pieces};
use model_text::write_text;
use run_steps::Status;
use state_scores::EvaluationText;

/// Writes the text of a model row by row, through a buffer.
fn deliver_model<O: Sink>(model: &OutputModel, buffer: &mut LineBuffer, out: &mut O) -> Status
    requires unused { buffer.old ≡ [] }
    ensures delivered { IsDelivered result (O.taken out.old) (O.taken out.new)
        (model_text model.now) }
    ensures fault { CountsWriteFault result (O.faults out.old) (O.faults out.new) }
    ensures refused { OnRefusal result (out.new ≡ out.old) }
{
    match write_text(model, buffer, out) {
        Ok(()) => Status::Done,
        Err(_) => Status::WriteFault,
    }
}

/// Writes the text of an evaluation row by row, through a buffer.
fn deliver_scores<O: Sink>(text: &EvaluationText, buffer: &mut LineBuffer, out: &mut O) -> Status
    requires unused { buffer.old ≡ [] }
    ensures delivered { IsDelivered result (O.taken out.old) (O.taken out.new) text.now }
    ensures fault { CountsWriteFault result (O.faults out.old) (O.faults out.new) }
    ensures refused { OnRefusal result (out.new ≡ out.old) }
{
    match text.write(buffer, out) {
        Ok(()) => Status::Done,
        Err(_) => Status::WriteFault,
    }
}

/// Writes a text that stands.
pub fn deliver_text<O: Sink>(text: &[u8], out: &mut O) -> Status
    ensures delivered { IsDelivered result (O.taken out.old) (O.taken out.new) text.now }
    ensures fault { CountsWriteFault result (O.faults out.old) (O.faults out.new) }
    ensures refused { OnRefusal result (out.new ≡ out.old) }
{
    match write_pieces(out, &[text]) {
        Ok(()) => Status::Done,
        Err(_) => Status::WriteFault,
    }
}

/// Writes the text of an answer, or a front of it where the sink fails.
pub fn deliver<O: Sink>(answer: &Answer, buffer: &mut LineBuffer, out: &mut O) -> Status
    requires unused { buffer.old ≡ [] }
    ensures delivered { IsDelivered result (O.taken out.old) (O.taken out.new)
        (text_of answer.now) }
    ensures fault { CountsWriteFault result (O.faults out.old) (O.faults out.new) }
    ensures refused { OnRefusal result (out.new ≡ out.old) }
{
    match answer {
        Answer::Model(model) => deliver_model(model, buffer, out),
        Answer::Scores(text) => deliver_scores(text, buffer, out),
        Answer::Text(text) => deliver_text(text, out),
    }
}
