//! Terms in lists by their first literals. A term takes four bytes, since it is in one list at most, and
//! a list eight.
ghost use Rattle.std.specs.Prelude.{◌≡◌, ◌↔◌, ◌+◌, ◌<◌, ◌^◌, ◌++◌, ◌∷◌, [], IfOk, OnOk, IsTrue, All, length, replicate, set};
ghost use Rattle.rosenberg_layer.specs.Buckets.{chain, list_at, listed_count, IsApart};

use base::NoMemory;
use std::alloc::Global;
use std::marker::Model;

/// The first term of a list, and how many there are.
#[derive(Clone, Copy)]
pub(crate) struct Head {
    first: u32,
    count: u32,
}

/// No terms.
const NONE: Head = Head { first: 0, count: 0 };

/// Appends the terms of a list.
fn append_list(list: &mut Vec<u64>, nexts: &[u32], head: Head) -> Result<(), NoMemory>
    requires { All (λ t. t < length nexts.now) (chain nexts.now head.count head.first) }
    ensures { OnOk result
        (list.new.items ≡ list.old.items ++ chain nexts.now head.count head.first) }
{
    let mut term = head.first;
    for _done in 0..head.count {
        list.push(u64::from(term))?;
        term = nexts[term as usize];
    }
    Ok(())
}

/// Lists of terms: the first of each list and, for each term, the next one.
#[derive(Drop)]
pub(crate) struct Buckets {
    heads: Vec<Head>,
    nexts: Vec<u32>,
}

impl Model for Buckets {
    ghost use Rattle.std.specs.Prelude.{◌<◌, All, length, map};
    ghost use Rattle.rosenberg_layer.specs.Buckets.{list_of, TermLists};

    ghost Value = { TermLists };

    ghost view = { λ a. record {
      lists = map (list_of a.nexts.items) a.heads.items;
      room = length a.nexts.items;
    } };

    ghost invariant = { λ a.
        All (λ xs. All (λ t. t < length a.nexts.items) xs) (map (list_of a.nexts.items) a.heads.items) };
}

impl Buckets {
    /// So many lists without terms, with room for so many terms.
    pub(crate) fn new(alloc: Global, lists: usize, room: usize) -> Result<Buckets, NoMemory>
        ensures lists { IfOk result (λ made. made.lists ≡ replicate lists []) }
        ensures room { IfOk result (λ made. made.room ≡ room) }
    {
        Ok(Buckets {
            heads: vec![in alloc; NONE; lists]?,
            nexts: vec![in alloc; 0; room]?,
        })
    }

    /// How many lists there are.
    pub(crate) fn len(&self) -> usize
        ensures { result ≡ length self.now.lists }
    {
        self.heads.len()
    }

    /// Whether a list has no terms.
    pub(crate) fn is_empty(&self, list: usize) -> bool
        requires { list < length self.now.lists }
        ensures { IsTrue result ↔ list_at self.now.lists list ≡ [] }
    {
        self.heads[list].count == 0
    }

    /// Appends a list without terms.
    pub(crate) fn add(&mut self) -> Result<(), NoMemory>
        ensures lists { OnOk result (self.new.lists ≡ self.old.lists ++ [] ∷ []) }
        ensures room { OnOk result (self.new.room ≡ self.old.room) }
    {
        self.heads.push(NONE)?;
        Ok(())
    }

    /// Puts a term that is in no list before those of a list.
    pub(crate) fn put(&mut self, list: usize, term: u32)
        requires list { list < length self.old.lists }
        requires term { term < self.old.room }
        requires apart { IsApart self.old.lists term }
        requires few { listed_count self.old.lists + 1 < 2 ^ 32 }
        ensures lists { self.new.lists
            ≡ set self.old.lists list (term ∷ list_at self.old.lists list) }
        ensures room { self.new.room ≡ self.old.room }
    {
        let head = self.heads[list];
        self.nexts[term as usize] = head.first;
        self.heads[list] = Head {
            first: term,
            count: head.count + 1,
        };
    }

    /// Takes all terms of a list out, and appends them to others.
    pub(crate) fn take(&mut self, list: usize, terms: &mut Vec<u64>) -> Result<(), NoMemory>
        requires { list < length self.old.lists }
        ensures taken { OnOk result
            (terms.new.items ≡ terms.old.items ++ list_at self.old.lists list) }
        ensures lists { OnOk result (self.new.lists ≡ set self.old.lists list []) }
        ensures room { OnOk result (self.new.room ≡ self.old.room) }
    {
        append_list(terms, &self.nexts, self.heads[list])?;
        self.heads[list] = NONE;
        Ok(())
    }
}
