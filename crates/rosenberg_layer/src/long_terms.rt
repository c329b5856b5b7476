//! Terms of degree 3 or more, in little room.
//!
//! The literals of all terms stand in one list, as codes of 32 bits. A replacing drops two literals of a
//! term and appends a node, which is put where a dropped literal was, so no literal is moved.
ghost use Rattle.std.specs.Prelude.{◌≡◌, ◌+◌, ◌<◌, ◌≤◌, ◌^◌, ◌++◌, ◌∷◌, [], All, OnOk, length, map, set, take};
ghost use Rattle.std.specs.List.{slice_index};
ghost use Rattle.literal_lists.specs.Codes.{code_of, literal_of};
ghost use Rattle.rosenberg_layer.specs.Rosenberg.{node};
ghost use Rattle.rosenberg_layer.specs.Steps.{front_term, pair_of};
ghost use Rattle.rosenberg_layer.specs.Rings.{code_at, term_at};

use crate::rings::Rings;
use base::NoMemory;
use literal_lists::{Literal, Literals};
use std::alloc::Global;
use std::marker::Model;

/// The literal of a code: twice its variable, and one more where it is negated.
pub(crate) fn literal_of(code: u64) -> Literal
    ensures { result ≡ literal_of code }
{
    Literal {
        variable: code / 2,
        negated: code % 2 == 1,
    }
}

/// What stands at a place, where a list is gone round once.
fn at_place(ring: &[u32], place: usize, turns: usize) -> u32
    requires place { place < length ring.now + turns }
    requires once { turns ≤ length ring.now }
    ensures { result ≡ slice_index (ring.now ++ take turns ring.now) place }
{
    let degree = ring.len();
    if place < degree {
        ring[place]
    } else {
        ring[place - degree]
    }
}

/// Appends the parts of a term that no replacing touched.
fn append(
    rings: &mut Rings,
    turns: &mut Vec<u16>,
    coefficients: &mut Vec<i128>,
    literals: &[Literal],
    coefficient: i128,
) -> Result<(), NoMemory>
    requires { All (λ l. l.variable < 2 ^ 31) literals.now }
    ensures rings { OnOk result (rings.new ≡ rings.old ++ map code_of literals.now ∷ []) }
    ensures turns { OnOk result (turns.new.items ≡ turns.old.items ++ 0 ∷ []) }
    ensures coefficients { OnOk result
        (coefficients.new.items ≡ coefficients.old.items ++ coefficient ∷ []) }
{
    rings.push(literals)?;
    turns.push(0)?;
    coefficients.push(coefficient)?;
    Ok(())
}

/// The same of literals that are lent.
fn append_lent(
    rings: &mut Rings,
    turns: &mut Vec<u16>,
    coefficients: &mut Vec<i128>,
    literals: Literals<'_>,
    coefficient: i128,
) -> Result<(), NoMemory>
    requires { All (λ l. l.variable < 2 ^ 31) literals }
    ensures rings { OnOk result (rings.new ≡ rings.old ++ map code_of literals.entry ∷ []) }
    ensures turns { OnOk result (turns.new.items ≡ turns.old.items ++ 0 ∷ []) }
    ensures coefficients { OnOk result
        (coefficients.new.items ≡ coefficients.old.items ++ coefficient ∷ []) }
{
    rings.push_lent(literals)?;
    turns.push(0)?;
    coefficients.push(coefficient)?;
    Ok(())
}

/// Terms of degree 3 or more before any replacing, which contracts see as a list of terms.
#[derive(Drop)]
pub struct LongTerms {
    rings: Rings,
    turns: Vec<u16>,
    coefficients: Vec<i128>,
}

impl Model for LongTerms {
    ghost use Rattle.std.specs.Prelude.{◌≡◌, List, length};
    ghost use Rattle.std.specs.List.{AllZip};
    ghost use Rattle.term_table.specs.Terms.{Term};
    ghost use Rattle.rosenberg_layer.specs.Rings.{terms_in, HasTwo};

    ghost Value = { List Term };

    ghost view = { λ a. terms_in a.rings a.turns.items a.coefficients.items };

    ghost invariant = { λ a. AllZip HasTwo a.rings a.turns.items
        × (length a.coefficients.items ≡ length a.turns.items) };
}

impl LongTerms {
    /// No terms. It takes no memory.
    pub fn empty(alloc: Global) -> LongTerms
        ensures { result ≡ [] }
    {
        LongTerms {
            rings: Rings::empty(alloc),
            turns: Vec::new(alloc),
            coefficients: Vec::new(alloc),
        }
    }

    /// How many terms there are.
    pub fn len(&self) -> usize
        ensures { result ≡ length self.now }
    {
        self.turns.len()
    }

    /// Appends a term. Where memory is refused no term is left.
    pub fn push(&mut self, literals: &[Literal], coefficient: i128) -> Result<(), NoMemory>
        requires long { 3 ≤ length literals.now }
        requires short { length literals.now < 2 ^ 16 }
        requires narrow { All (λ l. l.variable < 2 ^ 31) literals.now }
        ensures { OnOk result (self.new ≡ self.old ++ (literals.now, coefficient) ∷ []) }
    {
        match append(
            &mut self.rings,
            &mut self.turns,
            &mut self.coefficients,
            literals,
            coefficient,
        ) {
            Ok(()) => Ok(()),
            Err(_) => {
                self.rings.clear();
                self.turns.clear();
                self.coefficients.clear();
                Err(NoMemory)
            }
        }
    }

    /// The same of literals that are lent.
    pub fn push_literals(
        &mut self,
        literals: Literals<'_>,
        coefficient: i128,
    ) -> Result<(), NoMemory>
        requires long { 3 ≤ length literals }
        requires short { length literals < 2 ^ 16 }
        requires narrow { All (λ l. l.variable < 2 ^ 31) literals }
        ensures { OnOk result (self.new ≡ self.old ++ (literals.entry, coefficient) ∷ []) }
    {
        match append_lent(
            &mut self.rings,
            &mut self.turns,
            &mut self.coefficients,
            literals,
            coefficient,
        ) {
            Ok(()) => Ok(()),
            Err(_) => {
                self.rings.clear();
                self.turns.clear();
                self.coefficients.clear();
                Err(NoMemory)
            }
        }
    }

    /// How many literals a term has.
    pub(crate) fn degree(&self, i: usize) -> usize
        requires { i < length self.now }
        ensures degree { result ≡ length (term_at self.now i).0 }
        ensures two { 2 ≤ result }
    {
        self.rings.ring(i).len() - self.turns[i] as usize
    }

    /// One of the first two literals, as its code.
    fn code(&self, i: usize, place: usize) -> u32
        requires within { i < length self.now }
        requires place { place < 2 }
        ensures { result ≡ code_at (term_at self.now i) place }
    {
        let turns = self.turns[i] as usize;
        at_place(self.rings.ring(i), 2 * turns + place, turns)
    }

    /// The code of the first literal.
    pub(crate) fn first(&self, i: usize) -> u32
        requires { i < length self.now }
        ensures { result ≡ code_at (term_at self.now i) 0 }
    {
        self.code(i, 0)
    }

    /// The code of the second literal.
    pub(crate) fn second(&self, i: usize) -> u32
        requires { i < length self.now }
        ensures { result ≡ code_at (term_at self.now i) 1 }
    {
        self.code(i, 1)
    }

    /// The first two literals.
    pub(crate) fn pair(&self, i: usize) -> (Literal, Literal)
        requires within { i < length self.now }
        requires two { 2 ≤ length (term_at self.now i).0 }
        ensures { result ≡ pair_of (term_at self.now i).0 }
    {
        let first = u64::from(self.first(i));
        let second = u64::from(self.second(i));
        (literal_of(first), literal_of(second))
    }

    pub(crate) fn coefficient(&self, i: usize) -> i128
        requires { i < length self.now }
        ensures { result ≡ (term_at self.now i).1 }
    {
        self.coefficients[i]
    }

    /// Drops the first two literals, and appends a node.
    pub(crate) fn replace(&mut self, i: usize, number: u32)
        requires within { i < length self.old }
        requires long { 3 ≤ length (term_at self.old i).0 }
        requires narrow { number < 2 ^ 31 }
        ensures { self.new ≡ set self.old i (front_term (node number) (term_at self.old i)) }
    {
        let turns = self.turns[i];
        self.rings.put(i, turns as usize, 2 * number);
        self.turns[i] = turns + 1;
    }
}
