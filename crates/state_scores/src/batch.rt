//! States that are judged together.
ghost use Rattle.std.specs.Prelude.{◌≡◌, ◌≤◌, ◌<◌, ◌+◌, ◌++◌, ◌∷◌, [], All, OnOk, length, pos};
ghost use Rattle.std.specs.List.{slice_index_or};
ghost use Rattle.state_scores.specs.Scores.{IsSmall};
ghost use Rattle.state_scores.specs.Batches.{AreCosts, AreEnergies, AreTaken};

use crate::judging::Judge;
use crate::worth::Score;
use base::{Cost, Lists, NoMemory};
use state_file::States;
use std::alloc::Global;

/// How many states are judged together at most.
const TOGETHER: usize = 64;

/// States that are judged together: the number of the line and the bits of each, its cost and its
/// energy.
#[derive(Drop)]
pub(crate) struct Batch {
    pub(crate) lines: Vec<u64>,
    pub(crate) states: Lists<bool>,
    pub(crate) costs: Vec<Cost>,
    pub(crate) energies: Vec<i128>,
}

impl Batch {
    /// No states. It takes memory as they come, and keeps it for others.
    pub(crate) fn empty(alloc: Global) -> Batch {
        Batch {
            lines: Vec::new(alloc),
            states: Lists::empty(alloc),
            costs: Vec::new(alloc),
            energies: Vec::new(alloc),
        }
    }

    /// Takes all states out.
    fn clear(&mut self)
        ensures lines { self.new.lines.items ≡ [] }
        ensures states { self.new.states ≡ [] }
        ensures costs { self.new.costs.items ≡ [] }
        ensures energies { self.new.energies.items ≡ [] }
    {
        self.lines.clear();
        self.states.clear();
        self.costs.clear();
        self.energies.clear();
    }

    /// Takes a state in.
    fn push(&mut self, line: u64, bits: &[bool]) -> Result<(), NoMemory>
        ensures lines { OnOk result (self.new.lines.items ≡ self.old.lines.items ++ line ∷ []) }
        ensures states { OnOk result (self.new.states ≡ self.old.states ++ bits.now ∷ []) }
        ensures costs { OnOk result
            (length self.new.costs.items ≡ length self.old.costs.items + 1) }
        ensures energies { OnOk result
            (length self.new.energies.items ≡ length self.old.energies.items + 1) }
    {
        self.lines.push(line)?;
        self.costs.push(Cost::Infinite)?;
        self.energies.push(0)?;
        self.states.push(bits)
    }

    /// Takes the next states in, in place of those before.
    pub(crate) fn read(
        &mut self,
        states: &mut States<'_>,
        bits: &mut [bool],
    ) -> Result<(), NoMemory>
        requires { length bits.old ≡ states.old.width }
        ensures taken { OnOk result (AreTaken states.old.width states.old.states states.new.states
            self.new.lines.items self.new.states self.new.costs.items self.new.energies.items) }
        ensures width { states.new.width ≡ states.old.width }
    {
        self.clear();
        while self.lines.len() < TOGETHER {
            let Some(line) = states.next_into(bits) else {
                return Ok(());
            };
            self.push(line, bits)?;
        }
        Ok(())
    }

    /// Says what each state costs, and its energy.
    pub(crate) fn judge<J: Judge>(&mut self, judge: &mut J)
        requires few { length self.old.states ≤ 64 }
        requires room { length self.old.costs.items ≡ length self.old.states }
        requires measured { length self.old.energies.items ≡ length self.old.states }
        requires width { All (λ state. length state ≡ (J.judgement judge.old).width)
            self.old.states }
        ensures costs { AreCosts (J.judgement judge.old) self.new.states self.new.costs.items }
        ensures small { All IsSmall self.new.costs.items }
        ensures energies { AreEnergies (J.judgement judge.old) self.new.states
            self.new.energies.items }
        ensures room { length self.new.costs.items ≡ length self.old.costs.items }
        ensures measured { length self.new.energies.items ≡ length self.old.energies.items }
        ensures lines { self.new.lines.items ≡ self.old.lines.items }
        ensures states { self.new.states ≡ self.old.states }
        ensures same { J.judgement judge.new ≡ J.judgement judge.old }
    {
        judge.costs(&self.states, &mut self.costs);
        judge.energies(&self.states, &mut self.energies);
    }

    /// The score of the state at a place.
    pub(crate) fn score(&self, place: usize) -> Score
        requires within { place < length self.now.lines.items }
        requires costed { length self.now.costs.items ≡ length self.now.lines.items }
        requires measured { length self.now.energies.items ≡ length self.now.lines.items }
        requires small { All IsSmall self.now.costs.items }
        ensures line { result.line ≡ slice_index_or self.now.lines.items place 0 }
        ensures cost { result.cost ≡ slice_index_or self.now.costs.items place Cost.Infinite }
        ensures energy { result.energy ≡ slice_index_or self.now.energies.items place (pos 0) }
        ensures small { IsSmall result.cost }
    {
        Score {
            line: self.lines[place],
            cost: self.costs[place],
            energy: self.energies[place],
        }
    }
}
