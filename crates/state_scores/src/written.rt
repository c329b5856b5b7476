//! The text of an evaluation.
ghost use Rattle.std.specs.Prelude.{◌≡◌, [], IfOk, OnOk, OnErr};
ghost use Rattle.edge_io.specs.Counts.{HasCause};
ghost use Rattle.edge_io.specs.Sinks.{Takes, TakesFront};
ghost use Rattle.state_scores.specs.Texts.{evaluation_text};

use crate::evaluating::Evaluation;
use crate::rows::put_text;
use crate::score_list::ScoreList;
use answer_text::written_decoding;
use base::NoMemory;
use edge_io::{LineBuffer, Sink, WriteFault};
use poly_reader::Names;
use std::alloc::Global;
use std::marker::Model;

/// The text of an evaluation, which contracts see as its bytes. What is held of it is the scores and
/// what follows the line of the best state: the other rows are made as they are written.
#[derive(Drop)]
pub struct EvaluationText {
    scores: ScoreList,
    best: u64,
    tail: Vec<u8>,
}

impl Model for EvaluationText {
    ghost use Rattle.std.specs.Prelude.{List, ℕ};
    ghost use Rattle.state_scores.specs.Texts.{scores_text};

    ghost Value = { List ℕ };

    ghost view = { λ text. scores_text text.scores text.best text.tail.items };
}

impl EvaluationText {
    /// The text of an evaluation whose best state decodes to this assignment, with the names of its
    /// variables where they have any.
    pub fn new(
        alloc: Global,
        evaluation: Evaluation,
        x: &[bool],
        names: &Option<Names>,
    ) -> Result<EvaluationText, NoMemory>
        ensures { IfOk result (λ text. text
            ≡ evaluation_text evaluation.scores evaluation.best x.now names.now) }
    {
        let Evaluation {
            scores,
            best,
            state: _,
        } = evaluation;
        let tail = written_decoding(alloc, x, names, best.cost, best.energy)?;
        Ok(EvaluationText {
            scores,
            best: best.line,
            tail,
        })
    }

    /// Writes the text row by row, or a front of it where the sink fails. It takes no memory, and
    /// nothing is pending after it.
    pub fn write<S: Sink>(&self, buffer: &mut LineBuffer, sink: &mut S) -> Result<(), WriteFault>
        requires { buffer.old ≡ [] }
        ensures whole { OnOk result (Takes (S.taken sink.old) (S.taken sink.new) self.now) }
        ensures front { OnErr result (TakesFront (S.taken sink.old) (S.taken sink.new) self.now) }
        ensures empty { buffer.new ≡ [] }
        ensures cause { HasCause (S.faults sink.old) (S.faults sink.new) result }
    {
        put_text(buffer, sink, &self.scores, self.best, &self.tail)?;
        buffer.flush(sink)
    }
}
