//! Clauses that lie flat.
ghost use Rattle.std.specs.Prelude.{◌≡◌, ◌≢◌, ◌<◌, ◌≤◌, ◌-◌, ◌++◌, ◌∷◌, [], OnOk, OnErr, length, replicate, slice_get, Some, None};
ghost use Rattle.std.specs.List.{slice_index_or};
ghost use Rattle.problem_form.specs.WeighedLists.{weight_of};

use base::NoMemory;
use literal_lists::{Literal, LiteralLists, Literals};
use std::alloc::Global;
use std::marker::Model;

/// A clause that is lent from a list. Contracts see the clause.
#[derive(Drop)]
pub struct ClauseRef<'a> {
    pub literals: Literals<'a>,
    pub weight: Option<u64>,
}

impl<'a> Model for ClauseRef<'a> {
    ghost use Rattle.problem_form.specs.declared.terms.Clause.{Clause};

    ghost Value = { Clause };

    ghost view = { λ a. record { literals = a.literals; weight = a.weight } };
}

/// Clauses, which contracts see as a list. A clause takes no memory of its own, and a hard one that
/// no soft one follows none for a weight.
#[derive(Drop)]
pub struct ClauseList {
    lists: LiteralLists,
    /// The weights of the first clauses, where 0 stands for a hard one. All others are hard.
    weights: Vec<u64>,
}

impl Model for ClauseList {
    ghost use Rattle.std.specs.Prelude.{◌≤◌, List, length};
    ghost use Rattle.problem_form.specs.declared.terms.Clause.{Clause};

    ghost Value = { List Clause };

    ghost use Rattle.problem_form.specs.WeighedLists.{weighed_clauses};

    ghost view = { λ a. weighed_clauses a.lists a.weights.items };

    ghost invariant = { λ a. length a.weights.items ≤ length a.lists };
}

/// The weight that a number stands for.
fn weight_of(number: u64) -> Option<u64>
    ensures { result ≡ weight_of number }
{
    if number == 0 { None } else { Some(number) }
}

/// The weight of the clause at a place. One past the numbers is hard.
fn weight_at(numbers: &[u64], i: usize) -> Option<u64>
    ensures { result ≡ weight_of (slice_index_or numbers.now i 0) }
{
    match numbers.get(i) {
        Some(number) => weight_of(*number),
        None => None,
    }
}

/// Appends a weight behind the numbers of so many clauses, of which those that have none are hard.
/// Where memory is refused the numbers stay as they were.
#[inline(always)]
fn push_weight(numbers: &mut Vec<u64>, count: usize, weight: u64) -> Result<(), NoMemory>
    requires { length numbers.old.items ≤ count }
    ensures pushed { OnOk result (numbers.new.items ≡ (numbers.old.items
        ++ replicate (count - length numbers.old.items) 0) ++ weight ∷ []) }
    ensures unchanged { OnErr result (numbers.new.items ≡ numbers.old.items) }
{
    let start = numbers.len();
    numbers.resize(count, 0)?;
    if numbers.push(weight).is_err() {
        numbers.truncate(start);
        return Err(NoMemory);
    }
    Ok(())
}

impl ClauseList {
    /// No clauses. It takes no memory.
    pub fn empty(alloc: Global) -> ClauseList
        ensures { result ≡ [] }
    {
        ClauseList {
            lists: LiteralLists::empty(alloc),
            weights: Vec::new(alloc),
        }
    }

    /// How many clauses there are.
    pub fn len(&self) -> usize
        ensures { result ≡ length self.now }
    {
        self.lists.len()
    }

    /// The clause at a place.
    pub fn at(&self, i: usize) -> ClauseRef<'_>
        requires { i < length self.now }
        ensures { slice_get self.now i ≡ Some result }
    {
        ClauseRef {
            literals: self.lists.at(i),
            weight: weight_at(&self.weights, i),
        }
    }

    /// All clauses, one after another.
    pub fn iter(&self) -> Clauses<'_>
        ensures { result ≡ self.now }
    {
        Clauses {
            list: self,
            next: 0,
        }
    }

    /// Appends a hard clause. Where memory is refused the list stays as it was.
    #[inline(always)]
    pub(crate) fn push_hard(&mut self, literals: &[Literal]) -> Result<(), NoMemory>
        ensures pushed { OnOk result (self.new
            ≡ self.old ++ record { literals = literals.now; weight = None } ∷ []) }
        ensures unchanged { OnErr result (self.new ≡ self.old) }
    {
        self.lists.push(literals)
    }

    /// Appends a clause with a weight. Where memory is refused the list stays as it was.
    #[inline(always)]
    fn push_soft(&mut self, literals: &[Literal], weight: u64) -> Result<(), NoMemory>
        requires { weight ≢ 0 }
        ensures pushed { OnOk result (self.new
            ≡ self.old ++ record { literals = literals.now; weight = Some weight } ∷ []) }
        ensures unchanged { OnErr result (self.new ≡ self.old) }
    {
        let start = self.weights.len();
        push_weight(&mut self.weights, self.lists.len(), weight)?;
        if self.lists.push(literals).is_err() {
            self.weights.truncate(start);
            return Err(NoMemory);
        }
        Ok(())
    }

    /// Appends a clause, which is hard or has a weight above 0. Where memory is refused the list
    /// stays as it was.
    #[inline(always)]
    pub fn push(&mut self, literals: &[Literal], weight: Option<u64>) -> Result<(), NoMemory>
        requires { weight ≢ Some 0 }
        ensures pushed { OnOk result (self.new
            ≡ self.old ++ record { literals = literals.now; weight = weight } ∷ []) }
        ensures unchanged { OnErr result (self.new ≡ self.old) }
    {
        match weight {
            Some(weight) => self.push_soft(literals, weight),
            None => self.push_hard(literals),
        }
    }
}

/// Clauses of a list, one after another. Contracts see the list of those that are left.
#[derive(Drop)]
pub struct Clauses<'a> {
    list: &'a ClauseList,
    next: usize,
}

impl<'a> Model for Clauses<'a> {
    ghost use Rattle.std.specs.Prelude.{List, drop};
    ghost use Rattle.problem_form.specs.declared.terms.Clause.{Clause};

    ghost Value = { List Clause };

    ghost view = { λ a. drop a.next a.list.now };
}

impl<'a> Iterator for Clauses<'a> {
    type Item = ClauseRef<'a>;

    ghost use Rattle.std.specs.Iterator.{YieldsFirst, item_count};

    ghost next_gives = { YieldsFirst (λ s. s) };

    ghost remaining = { item_count (λ s. s) };

    fn next(&mut self) -> Option<ClauseRef<'a>> {
        if self.next >= self.list.len() {
            return None;
        }
        let clause = self.list.at(self.next);
        self.next += 1;
        Some(clause)
    }
}
