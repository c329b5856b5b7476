//! Pairs of literals in little room.
ghost use Rattle.std.specs.Prelude.{◌≡◌, ◌<◌, ◌^◌, ◌++◌, ◌∷◌, [], IfOk, OnOk, Some, fold, length, map, slice_get};
ghost use Rattle.rosenberg_layer.specs.Rosenberg.{with_product};
ghost use Rattle.rosenberg_layer.specs.PairLists.{coded_pair};

use crate::long_terms::literal_of;
use crate::rosenberg::push_product;
use base::NoMemory;
use literal_lists::{Literal, code_of};
use std::alloc::Global;
use std::marker::Model;

/// The codes of two literals.
#[derive(Clone, Copy)]
pub(crate) struct PairCodes {
    first: u32,
    second: u32,
}

/// The pair of two codes.
fn coded_pair(codes: PairCodes) -> (Literal, Literal)
    ensures { result ≡ coded_pair codes }
{
    let first = literal_of(u64::from(codes.first));
    let second = literal_of(u64::from(codes.second));
    (first, second)
}

/// The pairs of codes.
fn listed_pairs(alloc: Global, codes: &[PairCodes]) -> Result<Vec<(Literal, Literal)>, NoMemory>
    ensures { IfOk result (λ pairs. pairs.items ≡ map coded_pair codes.now) }
{
    let pairs = codes.iter().map(|pair| coded_pair(*pair)).collect(alloc)?;
    Ok(pairs)
}

/// Pairs of literals of the first 2^31 variables, in eight bytes each. Contracts see the pairs.
#[derive(Drop)]
pub struct PairList {
    codes: Vec<PairCodes>,
}

impl Model for PairList {
    ghost use Rattle.std.specs.Prelude.{List, map};
    ghost use Rattle.rosenberg_layer.specs.Rosenberg.{Pair};
    ghost use Rattle.rosenberg_layer.specs.PairLists.{coded_pair};

    ghost Value = { List Pair };

    ghost view = { λ a. map coded_pair a.codes.items };
}

impl PairList {
    /// No pairs. It takes no memory.
    pub(crate) fn empty(alloc: Global) -> PairList
        ensures { result ≡ [] }
    {
        PairList {
            codes: Vec::new(alloc),
        }
    }

    /// How many pairs there are.
    pub fn len(&self) -> usize
        ensures { result ≡ length self.now }
    {
        self.codes.len()
    }

    /// The pair at an index.
    pub fn at(&self, index: usize) -> (Literal, Literal)
        requires { index < length self.now }
        ensures { slice_get self.now index ≡ Some result }
    {
        coded_pair(self.codes[index])
    }

    /// Appends a pair.
    pub(crate) fn push(&mut self, pair: (Literal, Literal)) -> Result<(), NoMemory>
        requires first { pair.0.variable < 2 ^ 31 }
        requires second { pair.1.variable < 2 ^ 31 }
        ensures { OnOk result (self.new ≡ self.old ++ pair ∷ []) }
    {
        self.codes.push(PairCodes {
            first: code_of(pair.0),
            second: code_of(pair.1),
        })?;
        Ok(())
    }

    /// The pairs as they are.
    pub(crate) fn listed(&self, alloc: Global) -> Result<Vec<(Literal, Literal)>, NoMemory>
        ensures { IfOk result (λ pairs. pairs.items ≡ self.now) }
    {
        listed_pairs(alloc, &self.codes)
    }

    /// Appends the product of each pair to bits, one after another.
    pub fn push_products(&self, bits: &mut Vec<bool>) -> Result<(), NoMemory>
        ensures { OnOk result (bits.new.items ≡ fold with_product bits.old.items self.now) }
    {
        for index in 0..self.len() {
            push_product(bits, self.at(index))?;
        }
        Ok(())
    }
}
