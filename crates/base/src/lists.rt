//! Lists that lie one after another in one list, with where each of them ends.
ghost use Rattle.std.specs.Prelude.{◌≡◌, ◌<◌, ◌≤◌, ◌++◌, ◌∷◌, [], Some, IfOk, OnOk, OnErr, length, slice_get, slice_range};
ghost use Rattle.std.specs.List.{slice_index_or};
ghost use Rattle.base.specs.FlatLists.{AreEnds, parts, start_of};

use crate::costs::NoMemory;
use std::alloc::Global;
use std::marker::Model;

/// Where the list at a place starts: at the end of the one before it.
#[inline]
fn start_of(ends: &[usize], i: usize) -> usize
    requires { i < length ends.now }
    ensures { result ≡ start_of ends.now i }
{
    if i == 0 { 0 } else { ends[i - 1] }
}

/// A part of a list.
#[inline]
fn lent_part<T>(items: &[T], start: usize, end: usize) -> &[T]
    requires ordered { start ≤ end }
    requires within { end ≤ length items.now }
    ensures { result.now ≡ slice_range items.now start end }
{
    &items[start..end]
}

/// The list at a place.
#[inline]
fn part<'a, T>(items: &'a [T], ends: &[usize], i: usize) -> &'a [T]
    requires ends { AreEnds 0 ends.now (length items.now) }
    requires within { i < length ends.now }
    ensures { slice_get (parts items.now 0 ends.now) i ≡ Some result.now }
{
    let start = start_of(ends, i);
    let end = ends[i];
    lent_part(items, start, end)
}

/// Items one after another, and where each list ends. Contracts see a list of lists. A list takes 8
/// bytes beside its items and no memory of its own, and is lent as it lies.
pub struct Lists<T> {
    items: Vec<T>,
    ends: Vec<usize>,
}

// an owner's end lets both go by one call
impl<T: Drop> Drop for Lists<T> {
    fn drop(self) {
        let Lists {
            items: _items,
            ends: _ends,
        } = self;
    }
}

impl<T> Model for Lists<T> {
    ghost use Rattle.std.specs.Prelude.{List, length};
    ghost use Rattle.base.specs.FlatLists.{AreEnds, parts};

    ghost Value = { List (List T) };

    ghost view = { λ a. parts a.items.items 0 a.ends.items };

    ghost invariant = { λ a. AreEnds 0 a.ends.items (length a.items.items) };
}

impl<T: Copy + Drop> Lists<T> {
    /// No lists. It takes no memory.
    pub fn empty(alloc: Global) -> Lists<T>
        ensures { result ≡ [] }
    {
        Lists {
            items: Vec::new(alloc),
            ends: Vec::new(alloc),
        }
    }

    /// No lists, with room for so many lists and items.
    pub fn with_room(alloc: Global, lists: usize, items: usize) -> Result<Lists<T>, NoMemory>
        ensures { IfOk result (λ made. made ≡ []) }
    {
        Ok(Lists {
            items: Vec::with_capacity(alloc, items)?,
            ends: Vec::with_capacity(alloc, lists)?,
        })
    }

    /// The lists of these items with these ends.
    pub fn new(items: Vec<T>, ends: Vec<usize>) -> Lists<T>
        requires { AreEnds 0 ends.items (length items.items) }
        ensures { result ≡ parts items.items 0 ends.items }
    {
        Lists { items, ends }
    }

    /// How many lists there are.
    #[inline]
    pub fn len(&self) -> usize
        ensures { result ≡ length self.now }
    {
        self.ends.len()
    }

    /// Takes all lists out. The memory is kept for others.
    pub fn clear(&mut self)
        ensures { self.new ≡ [] }
    {
        self.items.clear();
        self.ends.clear();
    }

    /// The list at a place.
    #[inline]
    pub fn list(&self, i: usize) -> &[T]
        requires { i < length self.now }
        ensures at { slice_get self.now i ≡ Some result.now }
        ensures listed { result.now ≡ slice_index_or self.now i [] }
    {
        part(&self.items, &self.ends, i)
    }

    /// Appends a list. Where memory is refused the lists stay as they were.
    #[inline]
    pub fn push(&mut self, list: &[T]) -> Result<(), NoMemory>
        ensures pushed { OnOk result (self.new ≡ self.old ++ list.now ∷ []) }
        ensures unchanged { OnErr result (self.new ≡ self.old) }
    {
        let start = self.items.len();
        self.items.extend_from_slice(list)?;
        if self.ends.push(self.items.len()).is_err() {
            self.items.truncate(start);
            return Err(NoMemory);
        }
        Ok(())
    }

    /// The same lists in memory of their own.
    pub fn copied(&self, alloc: Global) -> Result<Lists<T>, NoMemory>
        ensures { IfOk result (λ lists. lists ≡ self.now) }
    {
        let mut items = Vec::new(alloc);
        items.extend_from_slice(&self.items)?;
        Ok(Lists {
            items,
            ends: self.ends.to_vec(alloc)?,
        })
    }
}
