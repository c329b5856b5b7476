//! Lists of literals of the first 2^31 variables, below 2^32 literals in all: four bytes a literal,
//! and four a list.
ghost use Rattle.std.specs.Prelude.{◌≡◌, ◌↔◌, ◌<◌, ◌≤◌, ◌+◌, ◌*◌, ◌++◌, ◌∷◌, [], ◌^◌, All, IfOk, OnOk, OnErr, MatchBool, length, map, slice_get, slice_index, slice_range, Some, take, IsTrue};
ghost use Rattle.base.specs.FlatLists.{AreEnds, start_of};
ghost use Rattle.literal_lists.specs.Codes.{code_of, literal_of, literal_parts};

use crate::literal::Literal;
use crate::literals::{HeldLiterals, Literals, literal_of};
use crate::wide_lists::WideLists;
use base::NoMemory;
use std::alloc::Global;
use std::marker::Model;

/// The number of variables whose literals have codes of 32 bits.
const CODED_VARIABLES: u64 = 1 << 31;

/// Twice the variable, and one more where it is negated.
pub fn code_of(literal: Literal) -> u32
    requires { literal.variable < 2 ^ 31 }
    ensures { result ≡ code_of literal }
{
    2 * literal.variable as u32 + u32::from(literal.negated)
}

/// Appends the codes of literals. Where memory is refused the codes stay as they were.
#[inline(always)]
pub fn append_codes(codes: &mut Vec<u32>, literals: &[Literal]) -> Result<(), NoMemory>
    requires { All (λ l. l.variable < 2 ^ 31) literals.now }
    ensures appended { OnOk result (codes.new.items ≡ codes.old.items ++ map code_of literals.now) }
    ensures unchanged { OnErr result (codes.new.items ≡ codes.old.items) }
{
    let start = codes.len();
    for literal in literals {
        if codes.push(code_of(*literal)).is_err() {
            codes.truncate(start);
            return Err(NoMemory);
        }
    }
    Ok(())
}

/// The literals of codes.
fn listed_literals(alloc: Global, codes: &[u32]) -> Result<Vec<Literal>, NoMemory>
    ensures { IfOk result (λ literals. literals.items ≡ map literal_of codes.now) }
{
    let literals = codes.iter().map(|code| literal_of(*code)).collect(alloc)?;
    Ok(literals)
}

/// The same ends in the wide form.
fn wide_ends(alloc: Global, ends: &[u32]) -> Result<Vec<usize>, NoMemory>
    ensures { IfOk result (λ wide. wide.items ≡ ends.now) }
{
    let wide = ends.iter().map(|end| *end as usize).collect(alloc)?;
    Ok(wide)
}

/// Where the list at a place starts: at the end of the one before it.
fn start_of(ends: &[u32], i: usize) -> usize
    requires { i < length ends.now }
    ensures { result ≡ start_of ends.now i }
{
    if i == 0 { 0 } else { ends[i - 1] as usize }
}

/// The codes from one place to another.
fn lent_part(codes: &[u32], start: usize, end: usize) -> &[u32]
    requires ordered { start ≤ end }
    requires within { end ≤ length codes.now }
    ensures { result.now ≡ slice_range codes.now start end }
{
    &codes[start..end]
}

/// The list at a place.
fn part<'a>(codes: &'a [u32], ends: &[u32], i: usize) -> Literals<'a>
    requires ends { AreEnds 0 ends.now (length codes.now) }
    requires within { i < length ends.now }
    ensures { slice_get (literal_parts codes.now ends.now) i ≡ Some result }
{
    let start = start_of(ends, i);
    let end = ends[i] as usize;
    Literals {
        held: HeldLiterals::Codes(lent_part(codes, start, end).iter()),
    }
}

/// Whether all literals have codes of 32 bits.
#[inline(always)]
fn are_coded(literals: &[Literal]) -> bool
    ensures { IsTrue result ↔ All (λ l. l.variable < 2 ^ 31) literals.now }
{
    literals
        .iter()
        .all(|literal| literal.variable < CODED_VARIABLES)
}

/// Codes of literals one after another, and where each list ends. Contracts see the lists.
#[derive(Drop)]
pub(crate) struct NarrowLists {
    codes: Vec<u32>,
    ends: Vec<u32>,
}

impl Model for NarrowLists {
    ghost use Rattle.std.specs.Prelude.{List, length, ◌<◌, ◌^◌};
    ghost use Rattle.literal_lists.specs.declared.literal.Literal.{Literal};

    ghost Value = { List (List Literal) };

    ghost use Rattle.base.specs.FlatLists.{AreEnds};
    ghost use Rattle.literal_lists.specs.Codes.{literal_parts};

    ghost view = { λ a. literal_parts a.codes.items a.ends.items };

    ghost invariant = { λ a. AreEnds 0 a.ends.items (length a.codes.items) };
}

impl NarrowLists {
    pub(crate) fn empty(alloc: Global) -> NarrowLists
        ensures { result ≡ [] }
    {
        NarrowLists {
            codes: Vec::new(alloc),
            ends: Vec::new(alloc),
        }
    }

    pub(crate) fn len(&self) -> usize
        ensures { result ≡ length self.now }
    {
        self.ends.len()
    }

    pub(crate) fn clear(&mut self)
        ensures { self.new ≡ [] }
    {
        self.codes.clear();
        self.ends.clear();
    }

    /// The list at a place.
    pub(crate) fn at(&self, i: usize) -> Literals<'_>
        requires { i < length self.now }
        ensures { slice_get self.now i ≡ Some result }
    {
        part(&self.codes, &self.ends, i)
    }

    /// Appends a list, where it fits this form. Elsewhere, and where memory is refused, the lists
    /// stay as they were.
    #[inline(always)]
    pub(crate) fn push(&mut self, literals: &[Literal]) -> Result<bool, NoMemory>
        ensures pushed { IfOk result (λ fits.
            MatchBool fits (self.new ≡ self.old ++ literals.now ∷ []) (self.new ≡ self.old)) }
        ensures unchanged { OnErr result (self.new ≡ self.old) }
    {
        let start = self.codes.len();
        if start + literals.len() > u32::MAX as usize || !are_coded(literals) {
            return Ok(false);
        }
        append_codes(&mut self.codes, literals)?;
        if self.ends.push(self.codes.len() as u32).is_err() {
            self.codes.truncate(start);
            return Err(NoMemory);
        }
        Ok(true)
    }

    /// The same lists in the wide form.
    pub(crate) fn widened(&self, alloc: Global) -> Result<WideLists, NoMemory>
        ensures { IfOk result (λ lists. lists ≡ self.now) }
    {
        let literals = listed_literals(alloc, &self.codes)?;
        let ends = wide_ends(alloc, &self.ends)?;
        Ok(WideLists::new(literals, ends))
    }
}
