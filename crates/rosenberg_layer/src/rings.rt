//! Lists of codes of literals, one after another in one list. An item is replaced where it lies.
ghost use Rattle.std.specs.Prelude.{◌≡◌, ◌<◌, ◌≤◌, ◌^◌, ◌++◌, ◌∷◌, [], All, OnOk, length, map, set};
ghost use Rattle.std.specs.List.{slice_index_or, slice_range};
ghost use Rattle.base.specs.FlatLists.{AreEnds, parts, start_of};
ghost use Rattle.literal_lists.specs.Codes.{code_of};

use base::NoMemory;
use literal_lists::{Literal, Literals, append_codes, code_of};
use std::alloc::Global;
use std::marker::Model;

/// Appends the codes of literals that are lent.
fn append_lent(codes: &mut Vec<u32>, literals: Literals<'_>) -> Result<(), NoMemory>
    requires { All (λ l. l.variable < 2 ^ 31) literals }
    ensures { OnOk result (codes.new.items ≡ codes.old.items ++ map code_of literals.entry) }
{
    for literal in literals {
        codes.push(code_of(literal))?;
    }
    Ok(())
}

/// Appends a list of lent literals.
fn append_list(
    codes: &mut Vec<u32>,
    ends: &mut Vec<usize>,
    literals: Literals<'_>,
) -> Result<(), NoMemory>
    requires { All (λ l. l.variable < 2 ^ 31) literals }
    ensures codes { OnOk result (codes.new.items ≡ codes.old.items ++ map code_of literals.entry) }
    ensures ends { OnOk result (ends.new.items ≡ ends.old.items ++ length codes.new.items ∷ []) }
{
    append_lent(codes, literals)?;
    ends.push(codes.len())?;
    Ok(())
}

/// Where the list at a place starts: at the end of the one before it.
fn start_of(ends: &[usize], i: usize) -> usize
    requires { i < length ends.now }
    ensures { result ≡ start_of ends.now i }
{
    if i == 0 { 0 } else { ends[i - 1] }
}

/// The codes from one place to another.
fn lent_part(codes: &[u32], start: usize, end: usize) -> &[u32]
    requires ordered { start ≤ end }
    requires within { end ≤ length codes.now }
    ensures { result.now ≡ slice_range codes.now start end }
{
    &codes[start..end]
}

/// The codes of the list at a place.
fn part<'a>(codes: &'a [u32], ends: &[usize], i: usize) -> &'a [u32]
    requires ends { AreEnds 0 ends.now (length codes.now) }
    requires within { i < length ends.now }
    ensures { result.now ≡ slice_index_or (parts codes.now 0 ends.now) i [] }
{
    let start = start_of(ends, i);
    let end = ends[i];
    lent_part(codes, start, end)
}

/// Lists of codes one after another, and where each list ends. Contracts see a list of lists.
#[derive(Drop)]
pub(crate) struct Rings {
    codes: Vec<u32>,
    ends: Vec<usize>,
}

impl Model for Rings {
    ghost use Rattle.std.specs.Prelude.{List, ℕ, length};
    ghost use Rattle.base.specs.FlatLists.{AreEnds, parts};

    ghost Value = { List (List ℕ) };

    ghost view = { λ a. parts a.codes.items 0 a.ends.items };

    ghost invariant = { λ a. AreEnds 0 a.ends.items (length a.codes.items) };
}

impl Rings {
    /// No lists. It takes no memory.
    pub(crate) fn empty(alloc: Global) -> Rings
        ensures { result ≡ [] }
    {
        Rings {
            codes: Vec::new(alloc),
            ends: Vec::new(alloc),
        }
    }

    pub(crate) fn len(&self) -> usize
        ensures { result ≡ length self.now }
    {
        self.ends.len()
    }

    /// Takes all lists out.
    pub(crate) fn clear(&mut self)
        ensures { self.new ≡ [] }
    {
        self.codes.clear();
        self.ends.clear();
    }

    /// The list at a place.
    pub(crate) fn ring(&self, i: usize) -> &[u32]
        requires { i < length self.now }
        ensures { result.now ≡ slice_index_or self.now i [] }
    {
        part(&self.codes, &self.ends, i)
    }

    /// Appends the codes of literals as a list. Where memory is refused the lists stay as they were.
    pub(crate) fn push(&mut self, literals: &[Literal]) -> Result<(), NoMemory>
        requires { All (λ l. l.variable < 2 ^ 31) literals.now }
        ensures { OnOk result (self.new ≡ self.old ++ map code_of literals.now ∷ []) }
    {
        let start = self.codes.len();
        append_codes(&mut self.codes, literals)?;
        if self.ends.push(self.codes.len()).is_err() {
            self.codes.truncate(start);
            return Err(NoMemory);
        }
        Ok(())
    }

    /// The same of literals that are lent. Where memory is refused no list is left.
    pub(crate) fn push_lent(&mut self, literals: Literals<'_>) -> Result<(), NoMemory>
        requires { All (λ l. l.variable < 2 ^ 31) literals }
        ensures { OnOk result (self.new ≡ self.old ++ map code_of literals.entry ∷ []) }
    {
        match append_list(&mut self.codes, &mut self.ends, literals) {
            Ok(()) => Ok(()),
            Err(_) => {
                self.codes.clear();
                self.ends.clear();
                Err(NoMemory)
            }
        }
    }

    /// Replaces an item of a list.
    pub(crate) fn put(&mut self, i: usize, place: usize, code: u32)
        requires list { i < length self.old }
        requires place { place < length (slice_index_or self.old i []) }
        ensures { self.new ≡ set self.old i (set (slice_index_or self.old i []) place code) }
    {
        let start = start_of(&self.ends, i);
        self.codes[start + place] = code;
    }
}
