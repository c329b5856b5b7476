//! Which terms are replaced next.
//!
//! Terms lie in lists by their first literals. Each list is taken once, in the order of literals: what a
//! replacing puts back begins with a later one. Its terms are put in the order of their second
//! literals.
ghost use Rattle.std.specs.Prelude.{◌≡◌, ◌+◌, ◌*◌, ◌<◌, ◌≤◌, ◌^◌, ◌++◌, ◌∷◌, [], All, IfOk, OnOk, IfSome, IfNone, length, map, true};
ghost use Rattle.std.specs.List.{slice_index};
ghost use Rattle.term_table.specs.Terms.{Term};
ghost use Rattle.rosenberg_layer.specs.Rosenberg.{is_long};
ghost use Rattle.rosenberg_layer.specs.Rings.{code_at, term_at};
ghost use Rattle.rosenberg_layer.specs.Buckets.{listed_count, IsApart};
ghost use Rattle.rosenberg_layer.specs.Waiting.{first_pair, key_of, keys_left, AreWaiting, IsBeyond, Wait};

use crate::buckets::Buckets;
use crate::long_terms::{LongTerms, literal_of};
use base::NoMemory;
use literal_lists::Literal;
use std::alloc::Global;

/// The number of terms that keys tell apart.
pub(crate) const TERMS: u64 = 1 << 32;

/// The lists of terms, the first literal whose list was not taken, and the keys of the terms of the
/// literal before it, with how many of them are done.
#[derive(Drop)]
pub(crate) struct Waiting {
    pub(crate) buckets: Buckets,
    pub(crate) cursor: usize,
    pub(crate) keys: Vec<u64>,
    pub(crate) at: usize,
}

/// Makes keys of the numbers of terms.
fn add_seconds(keys: &mut Vec<u64>, terms: &LongTerms)
    requires terms { All (λ t. t < length terms.now) keys.old.items }
    requires narrow { length terms.now ≤ 2 ^ 32 }
    ensures { keys.new.items ≡ map (key_of terms.now) keys.old.items }
{
    for i in 0..keys.len() {
        let term = keys[i];
        keys[i] = u64::from(terms.second(term as usize)) * TERMS + term;
    }
}

impl Waiting {
    /// All terms wait.
    pub(crate) fn new(alloc: Global, terms: &LongTerms, lists: usize) -> Result<Waiting, NoMemory>
        requires long { All (λ t. is_long t ≡ true) terms.now }
        requires lists { All (λ t. code_at t 0 < lists) terms.now }
        requires narrow { length terms.now < 2 ^ 32 }
        ensures wait { IfOk result (λ made. Wait terms.now made) }
        ensures lists { IfOk result (λ made. length made.buckets.lists ≡ lists) }
    {
        let mut buckets = Buckets::new(alloc, lists, terms.len())?;
        for term in 0..terms.len() {
            buckets.put(terms.first(term) as usize, term as u32);
        }
        Ok(Waiting {
            buckets,
            cursor: 0,
            keys: Vec::new(alloc),
            at: 0,
        })
    }

    /// Takes the list of the next literal. Many have no terms, as those of new nodes' complements.
    fn collect(&mut self, terms: &LongTerms) -> Result<(), NoMemory>
        requires wait { Wait terms.now self.old }
        requires none { keys_left self.old ≡ [] }
        requires more { self.old.cursor < length self.old.buckets.lists }
        requires fits { length self.old.buckets.lists < 2 ^ 64 }
        ensures wait { OnOk result (Wait terms.now self.new) }
        ensures next { OnOk result (self.new.cursor ≡ self.old.cursor + 1) }
        ensures lists { OnOk result
            (length self.new.buckets.lists ≡ length self.old.buckets.lists) }
    {
        if self.buckets.is_empty(self.cursor) {
            self.cursor += 1;
            return Ok(());
        }
        self.keys.clear();
        self.at = 0;
        self.buckets.take(self.cursor, &mut self.keys)?;
        add_seconds(&mut self.keys, terms);
        self.keys.sort_unstable();
        self.cursor += 1;
        Ok(())
    }

    /// Takes lists until there is a term, or no list is left.
    fn advance(&mut self, terms: &LongTerms) -> Result<(), NoMemory>
        requires { Wait terms.now self.old }
        ensures wait { OnOk result (Wait terms.now self.new) }
        ensures end { OnOk result (keys_left self.new ≡ []
            → length self.new.buckets.lists ≤ self.new.cursor) }
        ensures lists { OnOk result
            (length self.new.buckets.lists ≡ length self.old.buckets.lists) }
    {
        while self.at == self.keys.len() && self.cursor < self.buckets.len() {
            self.collect(terms)?;
        }
        Ok(())
    }

    /// The first two literals of the term that is replaced next: the one before the cursor, and the
    /// one that its key begins with. The term itself is not read.
    pub(crate) fn next_pair(
        &mut self,
        terms: &LongTerms,
    ) -> Result<Option<(Literal, Literal)>, NoMemory>
        requires { Wait terms.now self.old }
        ensures wait { OnOk result (Wait terms.now self.new) }
        ensures pair { IfOk result (λ pair. pair ≡ first_pair terms.now (keys_left self.new)) }
        ensures end { OnOk result (keys_left self.new ≡ []
            → length self.new.buckets.lists ≤ self.new.cursor) }
        ensures lists { OnOk result
            (length self.new.buckets.lists ≡ length self.old.buckets.lists) }
    {
        self.advance(terms)?;
        if self.at == self.keys.len() {
            return Ok(None);
        }
        let first = self.cursor as u64 - 1;
        let second = self.keys[self.at] / TERMS;
        Ok(Some((literal_of(first), literal_of(second))))
    }

    /// Takes the first key off where it is of this second literal, and gives its term.
    pub(crate) fn pop(&mut self, second: u64) -> Option<usize>
        requires { self.old.at ≤ length self.old.keys.items }
        ensures taken { IfSome result
            (λ t. keys_left self.old ≡ (second * 2 ^ 32 + t) ∷ keys_left self.new) }
        ensures term { IfSome result (λ t. t < 2 ^ 32) }
        ensures left { IfNone result (keys_left self.new ≡ keys_left self.old) }
        ensures others { IfNone result (IsBeyond second (keys_left self.old)) }
        ensures place { self.new.at ≤ length self.new.keys.items }
        ensures buckets { self.new.buckets ≡ self.old.buckets }
        ensures cursor { self.new.cursor ≡ self.old.cursor }
    {
        if self.at == self.keys.len() {
            return None;
        }
        let key = self.keys[self.at];
        if key / TERMS != second {
            return None;
        }
        self.at += 1;
        Some((key % TERMS) as usize)
    }
}
