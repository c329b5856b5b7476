//! Sums of coefficients, set by set, for sets of at most two nodes.
//!
//! A term is added to the constant or to its node at once. Those of pairs are listed, and summed in
//! the end, when one sort has brought the terms of each pair together. What has no place here, a
//! set of three nodes or a number that is too large, leaves the sums unsettled.
ghost use Rattle.std.specs.Prelude.{◌≡◌, ◌∷◌, ◌++◌, [], map, pos, neg_ℤ, ◌+ℤ◌, IfOk, OnOk, IfSome, IsTrue};
ghost use Rattle.std.specs.List.{list_all};
ghost use Rattle.std.specs.List.Sorted.{IsPermutation};
ghost use Rattle.std.specs.Ordering.{int_eq};
ghost use Rattle.term_table.specs.MultipliedOut.{plain_terms};
ghost use Rattle.posiform_check.specs.declared.set_sums.Unsettled.TheVariants as reasons;
ghost use Rattle.posiform_check.specs.BitForms.{node_set, pair_set};
ghost use Rattle.posiform_check.specs.Sums.{pair_term, sum_term, HasMore, HasNone};

use base::NoMemory;
use literal_lists::Literal;
use std::alloc::Global;
use std::marker::Model;

/// Why sums were not settled: a set or a number has no place, or there is no memory.
#[derive(Clone, Copy)]
pub(crate) enum Unsettled {
    NoPlace,
    NoMemory,
}

impl From<NoMemory> for Unsettled {
    ghost from_gives = { λ _ reason. reason ≡ reasons.NoMemory };

    fn from(_: NoMemory) -> Unsettled {
        Unsettled::NoMemory
    }
}

/// What is added to the coefficient of a pair.
#[derive(Clone, Copy)]
pub(crate) struct PairTerm {
    pub first: u32,
    pub second: u32,
    pub coefficient: i64,
}

/// A sum, where it fits.
pub(crate) fn sum(left: i128, right: i128) -> Result<i128, Unsettled>
    ensures { IfOk result (λ s. s ≡ left +ℤ right) }
{
    match left.checked_add(right) {
        Some(sum) => Ok(sum),
        None => Err(Unsettled::NoPlace),
    }
}

/// A number with the other sign, where it fits.
pub(crate) fn opposite(number: i128) -> Result<i128, Unsettled>
    ensures { IfOk result (λ n. n ≡ neg_ℤ number) }
{
    match number.checked_neg() {
        Some(opposite) => Ok(opposite),
        None => Err(Unsettled::NoPlace),
    }
}

/// The sums, which contracts see as a list of terms.
#[derive(Drop)]
pub(crate) struct SetSums {
    constant: i128,
    nodes: Vec<i128>,
    pairs: Vec<PairTerm>,
}

impl Model for SetSums {
    ghost use Rattle.std.specs.Prelude.{List};
    ghost use Rattle.term_table.specs.Terms.{Term};
    ghost use Rattle.posiform_check.specs.Sums.{sums_terms};

    ghost Value = { List Term };

    ghost view = { λ a. sums_terms a.constant a.nodes.items a.pairs.items };
}

impl SetSums {
    /// No sums, of so many nodes.
    pub(crate) fn new(alloc: Global, nodes: usize) -> Result<SetSums, NoMemory>
        ensures { IfOk result HasNone }
    {
        Ok(SetSums {
            constant: 0,
            nodes: vec![in alloc; 0; nodes]?,
            pairs: Vec::new(alloc),
        })
    }

    /// Adds to the constant.
    pub(crate) fn add_constant(&mut self, coefficient: i128) -> Result<(), Unsettled>
        ensures { OnOk result (HasMore self.old (([], coefficient) ∷ []) self.new) }
    {
        self.constant = sum(self.constant, coefficient)?;
        Ok(())
    }

    /// Adds to the coefficient of a node.
    pub(crate) fn add_node(&mut self, node: u64, coefficient: i128) -> Result<(), Unsettled>
        ensures { OnOk result (HasMore self.old ((node_set node, coefficient) ∷ []) self.new) }
    {
        let place = node as usize;
        if place >= self.nodes.len() {
            return Err(Unsettled::NoPlace);
        }
        self.nodes[place] = sum(self.nodes[place], coefficient)?;
        Ok(())
    }

    /// Adds to the coefficient of a pair.
    pub(crate) fn add_pair(
        &mut self,
        first: u64,
        second: u64,
        coefficient: i128,
    ) -> Result<(), Unsettled>
        ensures { OnOk result
            (HasMore self.old ((pair_set first second, coefficient) ∷ []) self.new) }
    {
        match (
            u32::try_from(first),
            u32::try_from(second),
            i64::try_from(coefficient),
        ) {
            (Ok(first), Ok(second), Ok(coefficient)) => {
                let pair = PairTerm {
                    first,
                    second,
                    coefficient,
                };
                push_pair(&mut self.pairs, pair)?;
                Ok(())
            }
            _ => Err(Unsettled::NoPlace),
        }
    }

    /// Adds to the coefficient of a set without complements.
    pub(crate) fn add_set(&mut self, set: &[Literal], coefficient: i128) -> Result<(), Unsettled>
        ensures { OnOk result (HasMore self.old ((set.now, coefficient) ∷ []) self.new) }
    {
        match set {
            [] => self.add_constant(coefficient),
            [
                Literal {
                    variable,
                    negated: false,
                },
            ] => self.add_node(*variable, coefficient),
            [
                Literal {
                    variable: first,
                    negated: false,
                },
                Literal {
                    variable: second,
                    negated: false,
                },
            ] => self.add_pair(*first, *second, coefficient),
            _ => Err(Unsettled::NoPlace),
        }
    }

    /// Adds a line of one literal, multiplied out.
    pub(crate) fn add_one(&mut self, literal: Literal, coefficient: i128) -> Result<(), Unsettled>
        ensures { OnOk result
            (HasMore self.old (plain_terms (literal ∷ []) coefficient) self.new) }
    {
        if !literal.negated {
            return self.add_node(literal.variable, coefficient);
        }
        self.add_constant(coefficient)?;
        self.add_node(literal.variable, opposite(coefficient)?)
    }

    /// Adds a line of two literals, multiplied out.
    pub(crate) fn add_two(
        &mut self,
        first: Literal,
        second: Literal,
        coefficient: i128,
    ) -> Result<(), Unsettled>
        ensures { OnOk result
            (HasMore self.old (plain_terms (first ∷ second ∷ []) coefficient) self.new) }
    {
        let (one, other) = (first.variable, second.variable);
        let less = opposite(coefficient)?;
        match (first.negated, second.negated) {
            (false, false) => self.add_pair(one, other, coefficient),
            (false, true) => {
                self.add_node(one, coefficient)?;
                self.add_pair(one, other, less)
            }
            (true, false) => {
                self.add_node(other, coefficient)?;
                self.add_pair(one, other, less)
            }
            (true, true) => {
                self.add_constant(coefficient)?;
                self.add_node(other, less)?;
                self.add_node(one, less)?;
                self.add_pair(one, other, coefficient)
            }
        }
    }

    /// Whether all coefficients are 0.
    pub(crate) fn cancel(self) -> Result<bool, NoMemory>
        ensures { IfOk result (λ yes. IsTrue yes → HasNone self) }
    {
        if self.constant != 0 {
            return Ok(false);
        }
        if !are_zeros(&self.nodes) {
            return Ok(false);
        }
        let pairs = by_pair(self.pairs)?;
        Ok(pairs_cancel(&pairs))
    }
}

/// Lists a term of a pair.
fn push_pair(pairs: &mut Vec<PairTerm>, pair: PairTerm) -> Result<(), NoMemory>
    ensures { OnOk result (pairs.new.items ≡ pairs.old.items ++ pair ∷ []) }
{
    pairs.push(pair)?;
    Ok(())
}

/// Whether all are 0.
fn are_zeros(numbers: &[i128]) -> bool
    ensures { result ≡ list_all (λ n. int_eq n (pos 0)) numbers.now }
{
    numbers.iter().all(|number| *number == 0)
}

/// The same in the order of their pairs. Runs that are in order already, as a model's, are merged.
fn by_pair(mut pairs: Vec<PairTerm>) -> Result<Vec<PairTerm>, NoMemory>
    ensures { IfOk result (λ v. IsPermutation pairs.items v.items) }
{
    pairs.sort_by_key(|pair| (u64::from(pair.first) << 32) + u64::from(pair.second))?;
    Ok(pairs)
}

/// The sum of a pair's terms.
#[derive(Clone, Copy)]
struct PairSum {
    first: u32,
    second: u32,
    sum: i128,
}

/// The sum with the next term, or the next pair's; none, where a sum is not 0 or does not fit.
fn after(sum: PairSum, next: PairTerm) -> Option<PairSum>
    ensures { IfSome result (λ s. HasMore (sum_term sum ∷ []) (pair_term next ∷ [])
        (sum_term s ∷ [])) }
{
    let PairTerm {
        first,
        second,
        coefficient,
    } = next;
    let coefficient = i128::from(coefficient);
    if first == sum.first && second == sum.second {
        let sum = sum.sum.checked_add(coefficient)?;
        Some(PairSum { first, second, sum })
    } else if sum.sum == 0 {
        Some(PairSum {
            first,
            second,
            sum: coefficient,
        })
    } else {
        None
    }
}

/// Whether a sum is 0.
fn is_settled(sum: PairSum) -> bool
    ensures { IsTrue result → sum.sum ≡ pos 0 }
{
    sum.sum == 0
}

/// Whether the terms of each pair cancel. Those of one pair stand together.
fn pairs_cancel(pairs: &[PairTerm]) -> bool
    ensures { IsTrue result → HasNone (map pair_term pairs.now) }
{
    let mut sum = PairSum {
        first: 0,
        second: 0,
        sum: 0,
    };
    for pair in pairs {
        match after(sum, *pair) {
            Some(next) => sum = next,
            None => return false,
        }
    }
    is_settled(sum)
}
