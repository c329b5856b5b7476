//! Scores, each in 32 bytes.
ghost use Rattle.std.specs.Prelude.{◌≡◌, ◌<◌, ◌^◌, ◌++◌, ◌∷◌, [], length, IfOk, OnOk};
ghost use Rattle.std.specs.List.{slice_index_or};
ghost use Rattle.state_scores.specs.Scores.{IsSmall};
ghost use Rattle.state_scores.specs.Packing.{cost_from, unpacked};

use crate::worth::Score;
use base::{Cost, NoMemory};
use std::alloc::Global;
use std::marker::Model;
use std::mem::size_of;

/// Whether a cost is a number, and on which side of 0.
#[derive(Clone, Copy)]
enum CostKind {
    Positive,
    Negative,
    Unbounded,
}

/// A score, whose cost is kept by its kind and its size.
#[derive(Clone, Copy)]
struct Packed {
    energy: i128,
    size: u64,
    line: u32,
    kind: CostKind,
}

const _: () = prove!(size_of::<Packed>() == 32);

/// The kind of a cost, and its size: 0 where it is infinite.
fn parts_of(cost: Cost) -> (CostKind, u64)
    requires { IsSmall cost }
    ensures { cost_from result.0 result.1 ≡ cost }
{
    match cost {
        Cost::Whole(value) if value < 0 => (CostKind::Negative, value.unsigned_abs() as u64),
        Cost::Whole(value) => (CostKind::Positive, value as u64),
        Cost::Infinite => (CostKind::Unbounded, 0),
    }
}

/// The cost of this kind and size.
fn cost_from(kind: CostKind, size: u64) -> Cost
    ensures { result ≡ cost_from kind size }
{
    match kind {
        CostKind::Positive => Cost::Whole(i128::from(size)),
        CostKind::Negative => Cost::Whole(-i128::from(size)),
        CostKind::Unbounded => Cost::Infinite,
    }
}

/// A score in 32 bytes.
fn pack(score: &Score) -> Packed
    requires small { IsSmall score.now.cost }
    requires line { score.now.line < 2 ^ 32 }
    ensures { unpacked result ≡ score.now }
{
    let (kind, size) = parts_of(score.cost);
    Packed {
        energy: score.energy,
        size,
        line: score.line as u32,
        kind,
    }
}

/// The score that is kept.
fn unpacked(kept: &Packed) -> Score
    ensures { result ≡ unpacked kept.now }
{
    Score {
        line: u64::from(kept.line),
        cost: cost_from(kept.kind, kept.size),
        energy: kept.energy,
    }
}

/// A list of scores, each in 32 bytes.
#[derive(Drop)]
pub struct ScoreList {
    kept: Vec<Packed>,
}

impl Model for ScoreList {
    ghost use Rattle.std.specs.Prelude.{List, map};
    ghost use Rattle.state_scores.specs.declared.worth.Score.{Score};
    ghost use Rattle.state_scores.specs.Packing.{unpacked};

    ghost Value = { List Score };

    ghost view = { λ scores. map unpacked scores.kept.items };
}

impl ScoreList {
    /// An empty list with room for so many scores.
    pub(crate) fn with_capacity(alloc: Global, capacity: usize) -> Result<ScoreList, NoMemory>
        ensures { IfOk result (λ scores. scores ≡ []) }
    {
        let kept = Vec::with_capacity(alloc, capacity)?;
        Ok(ScoreList { kept })
    }

    /// Puts a score at the end.
    pub(crate) fn push(&mut self, score: &Score) -> Result<(), NoMemory>
        requires small { IsSmall score.now.cost }
        requires line { score.now.line < 2 ^ 32 }
        ensures { OnOk result (self.new ≡ self.old ++ score.now ∷ []) }
    {
        self.kept.push(pack(score))?;
        Ok(())
    }

    /// How many scores there are.
    pub fn len(&self) -> usize
        ensures { result ≡ length self.now }
    {
        self.kept.len()
    }

    /// The score at an index.
    pub fn score(&self, index: usize) -> Score
        requires { index < length self.now }
        ensures { slice_index_or self.now index result ≡ result }
    {
        unpacked(&self.kept[index])
    }
}
