//! Whole numbers in as few bytes as they need.
ghost use Rattle.std.specs.Prelude.{◌≡◌, ◌++◌, ◌∷◌, [], ◌<◌, ◌≤ℤ◌, IfOk, OnOk, OnErr, length, map, pos, int_div};
ghost use Rattle.std.specs.List.{slice_index_or};
ghost use Rattle.bits_model.specs.Entries.{held_weights};

use base::NoMemory;
use std::alloc::Global;
use std::marker::Model;

/// How many bits a number takes.
#[derive(Drop)]
pub enum HeldWeights {
    Narrow(Vec<i64>),
    Wide(Vec<i128>),
}

/// Weights, which contracts see as the list of their values: in 8 bytes each as long as all fit, and
/// in 16 from the first one on that does not.
pub struct WeightList {
    alloc: Global,
    held: HeldWeights,
}

impl Drop for WeightList {
    fn drop(self) {
        let WeightList {
            alloc: _alloc,
            held: _held,
        } = self;
    }
}

impl Model for WeightList {
    ghost use Rattle.std.specs.Prelude.{List, ℤ};
    ghost use Rattle.bits_model.specs.Entries.{held_weights};

    ghost Value = { List ℤ };

    ghost view = { λ a. held_weights a.held };
}

/// The same numbers, and one more.
fn widened(alloc: Global, narrow: &[i64], last: i128) -> Result<Vec<i128>, NoMemory>
    ensures { IfOk result (λ wide. wide.items ≡ narrow.now ++ last ∷ []) }
{
    let mut wide = Vec::with_capacity(alloc, narrow.len().saturating_add(1))?;
    for weight in narrow {
        wide.push(i128::from(*weight))?;
    }
    wide.push(last)?;
    Ok(wide)
}

/// Holds these weights, and lets go of the others.
fn hold_wide(held: &mut HeldWeights, wide: Vec<i128>)
    ensures { held_weights held.new ≡ wide.items }
{
    *held = HeldWeights::Wide(wide);
}

/// A narrow weight divided by a unit, and rounded towards 0.
fn narrow_quotient(weight: i64, unit: i128) -> i64
    requires { pos 1 ≤ℤ unit }
    ensures { result ≡ int_div weight unit }
{
    (i128::from(weight) / unit) as i64
}

/// A weight divided by a unit, and rounded towards 0.
fn quotient(weight: i128, unit: i128) -> i128
    requires { pos 1 ≤ℤ unit }
    ensures { result ≡ int_div weight unit }
{
    weight / unit
}

/// Narrow weights divided by a unit, and rounded towards 0, in their own memory.
fn divide_narrow(mut weights: Vec<i64>, unit: i128) -> Vec<i64>
    requires { pos 1 ≤ℤ unit }
    ensures { result.items ≡ map (λ w. int_div w unit) weights.items }
{
    for weight in weights.iter_mut() {
        *weight = narrow_quotient(*weight, unit);
    }
    weights
}

/// Weights divided by a unit, and rounded towards 0, in their own memory.
pub fn divide_weights(mut weights: Vec<i128>, unit: i128) -> Vec<i128>
    requires { pos 1 ≤ℤ unit }
    ensures { result.items ≡ map (λ w. int_div w unit) weights.items }
{
    for weight in weights.iter_mut() {
        *weight = quotient(*weight, unit);
    }
    weights
}

impl WeightList {
    /// The list without weights. Takes no memory.
    pub fn empty(alloc: Global) -> WeightList
        ensures { result ≡ [] }
    {
        WeightList {
            alloc,
            held: HeldWeights::Narrow(Vec::new(alloc)),
        }
    }

    /// The list without weights, with room for so many narrow ones.
    pub fn with_room(alloc: Global, count: usize) -> Result<WeightList, NoMemory>
        ensures { IfOk result (λ list. list ≡ []) }
    {
        Ok(WeightList {
            alloc,
            held: HeldWeights::Narrow(Vec::with_capacity(alloc, count)?),
        })
    }

    pub fn len(&self) -> usize
        ensures { result ≡ length self.now }
    {
        match &self.held {
            HeldWeights::Narrow(weights) => weights.len(),
            HeldWeights::Wide(weights) => weights.len(),
        }
    }

    /// The weight at an index.
    #[inline]
    pub fn get(&self, index: usize) -> i128
        requires { index < length self.now }
        ensures { result ≡ slice_index_or self.now index (pos 0) }
    {
        match &self.held {
            HeldWeights::Narrow(weights) => i128::from(weights[index]),
            HeldWeights::Wide(weights) => weights[index],
        }
    }

    /// Appends a weight of any size, to wide ones.
    #[inline(never)]
    fn push_any(&mut self, weight: i128) -> Result<(), NoMemory>
        ensures pushed { OnOk result (self.new ≡ self.old ++ weight ∷ []) }
        ensures unchanged { OnErr result (self.new ≡ self.old) }
    {
        match &mut self.held {
            HeldWeights::Narrow(weights) => {
                let wide = widened(self.alloc, weights, weight)?;
                hold_wide(&mut self.held, wide);
                Ok(())
            }
            HeldWeights::Wide(weights) => {
                weights.push(weight)?;
                Ok(())
            }
        }
    }

    /// Appends a weight. A narrow one to narrow ones takes no call.
    #[inline(always)]
    pub fn push(&mut self, weight: i128) -> Result<(), NoMemory>
        ensures pushed { OnOk result (self.new ≡ self.old ++ weight ∷ []) }
        ensures unchanged { OnErr result (self.new ≡ self.old) }
    {
        if let HeldWeights::Narrow(weights) = &mut self.held {
            if let Ok(narrow) = i64::try_from(weight) {
                weights.push(narrow)?;
                return Ok(());
            }
        }
        self.push_any(weight)
    }

    /// The same weights in memory of their own.
    pub fn copied(&self, alloc: Global) -> Result<WeightList, NoMemory>
        ensures { IfOk result (λ list. list ≡ self.now) }
    {
        let held = match &self.held {
            HeldWeights::Narrow(weights) => HeldWeights::Narrow(weights.to_vec(alloc)?),
            HeldWeights::Wide(weights) => HeldWeights::Wide(weights.to_vec(alloc)?),
        };
        Ok(WeightList { alloc, held })
    }

    /// The weights divided by a unit, and rounded towards 0. Takes no memory.
    pub fn divide(self, unit: i128) -> WeightList
        requires { pos 1 ≤ℤ unit }
        ensures { result ≡ map (λ w. int_div w unit) self }
    {
        let WeightList { alloc, held } = self;
        let held = match held {
            HeldWeights::Narrow(weights) => HeldWeights::Narrow(divide_narrow(weights, unit)),
            HeldWeights::Wide(weights) => HeldWeights::Wide(divide_weights(weights, unit)),
        };
        WeightList { alloc, held }
    }
}
