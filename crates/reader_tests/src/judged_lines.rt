//! What the states of a text are worth and which is the best, as the text that says so.
ghost use Rattle.std.specs.Prelude.{◌≡◌, ◌+◌, ◌<◌, ◌^◌, false, length, negsuc, pos, if◌then◌else◌};
ghost use Rattle.std.specs.List.{slice_index_or};

use base::{Cost, Lists};
use edge_io::{CallList, LineBuffer, MemorySink};
use state_file::StateAnswer;
use state_scores::{Evaluation, EvaluationText, Judge, evaluate};
use std::alloc::Global;
use std::test::Fail;

/// Judges by the first three bits: that the cost is infinite, that it is 1 and not 0, and that the
/// energy is -1 and not 0.
#[derive(Drop)]
struct ThreeBits {
    width: usize,
}

/// A bit, and `false` where there is none.
fn bit(state: &[bool], index: usize) -> bool
    ensures { result ≡ slice_index_or state.now index false }
{
    index < state.len() && state[index]
}

/// What the first two bits cost.
fn cost_by(state: &[bool]) -> Cost
    ensures { result ≡ (if slice_index_or state.now 0 false then Cost.Infinite else
        Cost.Whole (if slice_index_or state.now 1 false then pos 1 else pos 0)) }
{
    if bit(state, 0) {
        Cost::Infinite
    } else if bit(state, 1) {
        Cost::Whole(1)
    } else {
        Cost::Whole(0)
    }
}

/// The energy that the third bit gives.
fn energy_by(state: &[bool]) -> i128
    ensures { result ≡ (if slice_index_or state.now 2 false then negsuc 0 else pos 0) }
{
    if bit(state, 2) { -1 } else { 0 }
}

impl Judge for ThreeBits {
    ghost use Rattle.std.specs.Prelude.{pos, negsuc, if◌then◌else◌, false};
    ghost use Rattle.std.specs.List.{slice_index_or};
    ghost use Rattle.base.specs.declared.costs.Cost.TheVariants.{Whole, Infinite};

    ghost judgement = { λ judge. record {
      width = judge.width;
      cost = λ bits. (if slice_index_or bits 0 false then Infinite else
          Whole (if slice_index_or bits 1 false then pos 1 else pos 0));
      energy = λ bits. (if slice_index_or bits 2 false then negsuc 0 else pos 0);
    } };

    fn costs(&mut self, states: &Lists<bool>, costs: &mut [Cost]) {
        for place in 0..states.len() {
            costs[place] = cost_by(states.list(place));
        }
    }

    fn energies(&mut self, states: &Lists<bool>, energies: &mut [i128]) {
        for place in 0..states.len() {
            energies[place] = energy_by(states.list(place));
        }
    }
}

/// Whether the text of an evaluation is this, where the best state decodes to 10.
fn is_text(alloc: Global, evaluation: Evaluation, wanted: &[u8]) -> Result<bool, Fail> {
    let text = EvaluationText::new(alloc, evaluation, &[true, false], &None)?;
    let mut sink = MemorySink::new(alloc, 7, 400, CallList::new(Vec::new(alloc)))?;
    let mut buffer = LineBuffer::new(alloc)?;
    let written = text.write(&mut buffer, &mut sink);
    Ok(written.is_ok() && sink.bytes() == wanted)
}

/// Whether the states of a text are worth what this text says, or there are none.
fn is_judged(
    alloc: Global,
    text: &[u8],
    width: usize,
    wanted: Option<&[u8]>,
) -> Result<bool, Fail> {
    if text.len() > 1000 {
        return Ok(false);
    }
    match (
        evaluate(alloc, text, width, &mut ThreeBits { width }),
        wanted,
    ) {
        (Ok(evaluation), Some(wanted)) => is_text(alloc, evaluation, wanted),
        (Ok(_), None) => Ok(false),
        (Err(answer), wanted) => Ok(answer == StateAnswer::NoState && wanted.is_none()),
    }
}

const TEXTS: &[(&[u8], usize, Option<&[u8]>)] = &[
    // of two costs the lower, whatever the energies
    (
        b"011\n000",
        3,
        Some(
            b"sample 1 cost 1 energy -1\nsample 2 cost 0 energy 0\nbest 2\n\
              assignment 10\ncost 0\nenergy 0\n",
        ),
    ),
    // of one cost the lower energy; of equal scores the first; all lines are numbered
    (
        b"\n 010 \n0111\n\t-++\r\n01x\n011\n",
        3,
        Some(
            b"sample 2 cost 1 energy 0\nsample 4 cost 1 energy -1\nsample 6 cost 1 energy -1\nbest 4\n\
              assignment 10\ncost 1\nenergy -1\n",
        ),
    ),
    // an infinite cost is above each that is whole
    (
        b"101\n111\n010\n",
        3,
        Some(
            b"sample 1 cost infinite energy -1\nsample 2 cost infinite energy -1\n\
              sample 3 cost 1 energy 0\nbest 3\nassignment 10\ncost 1\nenergy 0\n",
        ),
    ),
    (
        b"100\n111\n101\n",
        3,
        Some(
            b"sample 1 cost infinite energy 0\nsample 2 cost infinite energy -1\n\
              sample 3 cost infinite energy -1\nbest 2\nassignment 10\ncost infinite\nenergy -1\n",
        ),
    ),
    (b"00\n0000\n0 0", 3, None),
    (b"", 1, None),
    (
        b"",
        0,
        Some(b"sample 1 cost 0 energy 0\nbest 1\nassignment 10\ncost 0\nenergy 0\n"),
    ),
    (
        b"1\n \n",
        0,
        Some(
            b"sample 2 cost 0 energy 0\nsample 3 cost 0 energy 0\nbest 2\n\
              assignment 10\ncost 0\nenergy 0\n",
        ),
    ),
    (b"1", 0, None),
];

#[test]
fn scores_and_the_best_of_them(rt: HostRuntime) -> Result<(), Fail> {
    for (text, width, wanted) in TEXTS {
        assert!(rt; is_judged(rt.alloc(), text, *width, *wanted)?, "{text:?}");
    }
    Ok(())
}

/// Some states that cost 1, and then one that costs nothing.
fn rising(alloc: Global, states: u32) -> Result<Vec<u8>, Fail> {
    let mut text = Vec::new(alloc);
    for _ in 0..states {
        text.extend_from_slice(b"010\n")?;
    }
    text.extend_from_slice(b"001\n")?;
    Ok(text)
}

/// Whether all of them are judged, and the last is the best.
fn is_last_best(alloc: Global, text: &[u8], states: u32) -> Result<bool, Fail> {
    if text.len() > 1000 {
        return Ok(false);
    }
    match evaluate(alloc, text, 3, &mut ThreeBits { width: 3 }) {
        Ok(evaluation) => Ok(
            evaluation.best.line == u64::from(states).saturating_add(1)
                && evaluation.best.cost == Cost::Whole(0)
                && evaluation.scores.len() == (states as usize).saturating_add(1),
        ),
        Err(_) => Ok(false),
    }
}

#[test]
fn batches_end_where_the_states_do(rt: HostRuntime) -> Result<(), Fail> {
    for states in [0, 1, 62, 63, 64, 65, 127, 128] {
        let text = rising(rt.alloc(), states)?;
        assert!(rt; is_last_best(rt.alloc(), &text, states)?, "{states}");
    }
    Ok(())
}
