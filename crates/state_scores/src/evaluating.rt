//! The scores of all states of a text, and the best of them.
ghost use Rattle.std.specs.Prelude.{◌≡◌, ◌+◌, ◌^◌, ◌<◌, [], All, length, if◌then◌else◌, IfOk, OnOk, IsErrOf};
ghost use Rattle.std.specs.List.{zip};
ghost use Rattle.state_file.specs.States.{states_of};
ghost use Rattle.state_scores.specs.Scores.{IsEvaluation, IsSmall, Judgement};
ghost use Rattle.state_scores.specs.Batches.{IsEvaluationOf, WhereJudged, after_score, after_states, leads, standing};

use crate::batch::Batch;
use crate::judging::Judge;
use crate::score_list::ScoreList;
use crate::worth::{Score, is_better};
use base::{Cost, NoMemory};
use state_file::{StateAnswer, States, count_states};
use std::alloc::Global;

/// The scores of all states of a text, and the best of them.
#[derive(Drop)]
pub struct Evaluation {
    /// The score of each state, in order.
    pub scores: ScoreList,
    /// The score of the best state.
    pub best: Score,
    /// The bits of the best state.
    pub state: Vec<bool>,
}

/// Bits that mean nothing.
fn blank_bits(alloc: Global, width: usize) -> Result<Vec<bool>, NoMemory>
    ensures { IfOk result (λ bits. length bits.items ≡ width) }
{
    Ok(vec![in alloc; false; width]?)
}

impl Evaluation {
    /// No scores yet, with room for so many, and a best state that means nothing.
    fn blank(alloc: Global, count: usize, width: usize) -> Result<Evaluation, NoMemory>
        ensures scores { IfOk result (λ blank. blank.scores ≡ []) }
        ensures width { IfOk result (λ blank. length blank.state.items ≡ width) }
    {
        let scores = ScoreList::with_capacity(alloc, count)?;
        let state = blank_bits(alloc, width)?;
        let best = Score {
            line: 0,
            cost: Cost::Infinite,
            energy: 0,
        };
        Ok(Evaluation {
            scores,
            best,
            state,
        })
    }

    /// Takes a state for the best where it is the first, or better.
    fn compare(&mut self, score: &Score, state: &[bool])
        requires { length self.old.state.items ≡ length state.now }
        ensures best { let won = leads (standing self.old) score.now in
            self.new.best ≡ (if won then score.now else self.old.best) }
        ensures state { let won = leads (standing self.old) score.now in
            self.new.state.items ≡ (if won then state.now else self.old.state.items) }
        ensures scores { self.new.scores ≡ self.old.scores }
    {
        if self.scores.len() == 0 || is_better(score, &self.best) {
            self.best = *score;
            self.state.copy_from_slice(state);
        }
    }

    /// Takes one state more.
    fn take(&mut self, score: &Score, state: &[bool]) -> Result<(), NoMemory>
        requires width { length self.old.state.items ≡ length state.now }
        requires small { IsSmall score.now.cost }
        requires line { score.now.line < 2 ^ 32 }
        ensures taken { OnOk result
            (standing self.new ≡ after_score (standing self.old) score.now state.now) }
        ensures kept { length self.new.state.items ≡ length self.old.state.items }
    {
        self.compare(score, state);
        self.scores.push(score)
    }

    /// Takes the states of a batch whose costs and energies are known.
    fn take_all(&mut self, batch: &Batch) -> Result<(), NoMemory>
        requires width { All (λ state. length state ≡ length self.old.state.items)
            batch.now.states }
        requires numbered { length batch.now.lines.items ≡ length batch.now.states }
        requires costed { length batch.now.costs.items ≡ length batch.now.states }
        requires measured { length batch.now.energies.items ≡ length batch.now.states }
        requires small { All IsSmall batch.now.costs.items }
        requires lines { All (λ state. state.0 < 2 ^ 32)
            (zip batch.now.lines.items batch.now.states) }
        ensures taken { OnOk result (WhereJudged batch.now.states batch.now.costs.items
            batch.now.energies.items (λ j. standing self.new ≡ after_states j
            (standing self.old) (zip batch.now.lines.items batch.now.states))) }
        ensures kept { length self.new.state.items ≡ length self.old.state.items }
    {
        for place in 0..batch.lines.len() {
            let score = batch.score(place);
            self.take(&score, batch.states.list(place))?;
        }
        Ok(())
    }

    /// Judges each state that is left, a batch at a time.
    fn go_on<J: Judge>(
        &mut self,
        states: &mut States<'_>,
        judge: &mut J,
        bits: &mut [bool],
        batch: &mut Batch,
    ) -> Result<(), NoMemory>
        requires empty { self.old.scores ≡ [] }
        requires width { states.old.width ≡ (J.judgement judge.old).width }
        requires room { length self.old.state.items ≡ states.old.width }
        requires space { length bits.old ≡ states.old.width }
        requires lines { All (λ state. state.0 < 2 ^ 32) states.old.states }
        ensures filled { OnOk result
            (IsEvaluationOf (J.judgement judge.old) states.old.states (standing self.new)) }
        ensures kept { length self.new.state.items ≡ length self.old.state.items }
        ensures same { J.judgement judge.new ≡ J.judgement judge.old }
    {
        loop {
            batch.read(states, bits)?;
            if batch.lines.len() == 0 {
                return Ok(());
            }
            batch.judge(judge);
            self.take_all(batch)?;
        }
    }

    /// Judges each state that is left.
    fn fill<J: Judge>(
        &mut self,
        states: &mut States<'_>,
        judge: &mut J,
        bits: &mut [bool],
        batch: &mut Batch,
    ) -> Result<(), StateAnswer>
        requires empty { self.old.scores ≡ [] }
        requires width { states.old.width ≡ (J.judgement judge.old).width }
        requires room { length self.old.state.items ≡ states.old.width }
        requires space { length bits.old ≡ states.old.width }
        requires lines { All (λ state. state.0 < 2 ^ 32) states.old.states }
        ensures filled { OnOk result (IsEvaluation (J.judgement judge.old) states.old.states
            self.new.scores self.new.best self.new.state.items) }
        ensures kept { length self.new.state.items ≡ length self.old.state.items }
        ensures no_state { IsErrOf result StateAnswer.NoState → states.old.states ≡ [] }
        ensures same { J.judgement judge.new ≡ J.judgement judge.old }
    {
        self.go_on(states, judge, bits, batch)?;
        if self.scores.len() == 0 {
            return Err(StateAnswer::NoState);
        }
        Ok(())
    }
}

/// The evaluation of a text, with buffers for the bits of a state and for a batch of states.
fn evaluated<J: Judge>(
    alloc: Global,
    text: &[u8],
    judge: &mut J,
    bits: &mut [bool],
    batch: &mut Batch,
) -> Result<Evaluation, StateAnswer>
    requires width { length bits.old ≡ (J.judgement judge.old).width }
    requires short { length text.now + 1 < 2 ^ 32 }
    ensures evaluated { IfOk result (λ found. IsEvaluation (J.judgement judge.old)
        (states_of (length bits.old) text.now) found.scores found.best found.state.items) }
    ensures width { IfOk result (λ found. length found.state.items ≡ length bits.old) }
    ensures no_state { IsErrOf result StateAnswer.NoState →
        states_of (length bits.old) text.now ≡ [] }
    ensures same { J.judgement judge.new ≡ J.judgement judge.old }
{
    let width = bits.len();
    let mut states = States::new(text, width);
    let mut evaluation = Evaluation::blank(alloc, count_states(text, width), width)?;
    match evaluation.fill(&mut states, judge, bits, batch) {
        Ok(()) => Ok(evaluation),
        Err(answer) => Err(answer),
    }
}

/// The score of each line that is a state of `width` bits, and the best state, or `NoState` where no
/// line is one. It takes 32 bytes for each state, two for each bit of one, and one for each bit of the
/// states that are judged together, beside their costs and energies.
pub fn evaluate<J: Judge>(
    alloc: Global,
    text: &[u8],
    width: usize,
    judge: &mut J,
) -> Result<Evaluation, StateAnswer>
    requires width { width ≡ (J.judgement judge.old).width }
    requires short { length text.now + 1 < 2 ^ 32 }
    ensures evaluated { IfOk result (λ found. IsEvaluation (J.judgement judge.old)
        (states_of width text.now) found.scores found.best found.state.items) }
    ensures width { IfOk result (λ found. length found.state.items ≡ width) }
    ensures no_state { IsErrOf result StateAnswer.NoState → states_of width text.now ≡ [] }
    ensures same { J.judgement judge.new ≡ J.judgement judge.old }
{
    let mut bits = blank_bits(alloc, width)?;
    let mut batch = Batch::empty(alloc);
    evaluated(alloc, text, judge, &mut bits, &mut batch)
}
