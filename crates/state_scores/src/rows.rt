//! The rows of an evaluation, each put to a sink through a buffer by a function of its own. None takes
//! memory, and after a fault nothing is pending.
ghost use Rattle.std.specs.Prelude.{◌≡◌, ◌++◌, map};
ghost use Rattle.model_text.specs.Lines.{IsPutBy};
ghost use Rattle.model_text.specs.Rows.{row_text, rows_text};
ghost use Rattle.state_scores.specs.Texts.{best_row, cost_word, score_row, scores_text};

use crate::score_list::ScoreList;
use crate::worth::Score;
use base::Cost;
use edge_io::{LineBuffer, Sink, WriteFault};
use itoa::Buffer;
use model_text::put_pieces;

/// The word of a cost.
fn cost_word(digits: &mut Buffer, cost: Cost) -> &[u8]
    ensures { result.now ≡ cost_word cost }
{
    match cost {
        Cost::Whole(value) => digits.format(value).as_bytes(),
        Cost::Infinite => b"infinite",
    }
}

/// A score.
fn put_score<S: Sink>(
    buffer: &mut LineBuffer,
    sink: &mut S,
    score: &Score,
) -> Result<(), WriteFault>
    ensures { IsPutBy (S.taken sink.old) (S.taken sink.new) (S.faults sink.old) (S.faults sink.new)
        buffer.old buffer.new (row_text (score_row score.now)) result }
{
    let mut first = Buffer::new();
    let mut second = Buffer::new();
    let mut third = Buffer::new();
    let line = first.format(score.line).as_bytes();
    let cost = cost_word(&mut second, score.cost);
    let energy = third.format(score.energy).as_bytes();
    put_pieces(
        buffer,
        sink,
        &[
            b"sample ",
            line,
            b" cost ",
            cost,
            b" energy ",
            energy,
            b"\n",
        ],
    )
}

/// Each score, in order.
fn put_scores<S: Sink>(
    buffer: &mut LineBuffer,
    sink: &mut S,
    scores: &ScoreList,
) -> Result<(), WriteFault>
    ensures { IsPutBy (S.taken sink.old) (S.taken sink.new) (S.faults sink.old) (S.faults sink.new)
        buffer.old buffer.new (rows_text (map score_row scores.now)) result }
{
    for index in 0..scores.len() {
        let score = scores.score(index);
        put_score(buffer, sink, &score)?;
    }
    Ok(())
}

/// The line of the best state, and what follows it.
fn put_best<S: Sink>(
    buffer: &mut LineBuffer,
    sink: &mut S,
    line: u64,
    tail: &[u8],
) -> Result<(), WriteFault>
    ensures { IsPutBy (S.taken sink.old) (S.taken sink.new) (S.faults sink.old) (S.faults sink.new)
        buffer.old buffer.new (row_text (best_row line) ++ tail.now) result }
{
    let mut digits = Buffer::new();
    let number = digits.format(line).as_bytes();
    put_pieces(buffer, sink, &[b"best ", number, b"\n", tail])
}

/// All scores, the line of the best state, and what follows it.
pub(crate) fn put_text<S: Sink>(
    buffer: &mut LineBuffer,
    sink: &mut S,
    scores: &ScoreList,
    best: u64,
    tail: &[u8],
) -> Result<(), WriteFault>
    ensures { IsPutBy (S.taken sink.old) (S.taken sink.new) (S.faults sink.old) (S.faults sink.new)
        buffer.old buffer.new (scores_text scores.now best tail.now) result }
{
    put_scores(buffer, sink, scores)?;
    put_best(buffer, sink, best, tail)
}
