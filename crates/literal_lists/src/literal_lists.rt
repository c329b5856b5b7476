//! Lists of literals that lie flat.
ghost use Rattle.std.specs.Prelude.{◌≡◌, ◌<◌, ◌++◌, ◌∷◌, [], OnOk, OnErr, length, slice_get, Some};

use crate::literal::Literal;
use crate::literals::Literals;
use crate::narrow_lists::NarrowLists;
use crate::wide_lists::{WideLists, literals_at};
use base::NoMemory;
use std::alloc::Global;
use std::marker::Model;

/// Which form the lists have: codes of 32 bits, or literals.
#[derive(Drop)]
pub(crate) enum HeldLists {
    Narrow(NarrowLists),
    Wide(WideLists),
}

/// Lists of literals, which contracts see as a list of lists. A list takes no memory of its own, and
/// a literal four bytes, as long as all variables are below 2^31 and there are fewer than 2^32
/// literals: the first list for which that does not hold turns all into a form of sixteen.
pub struct LiteralLists {
    held: HeldLists,
    alloc: Global,
}

// an owner's end lets it go by one call, and does not ask which form it has
impl Drop for LiteralLists {
    fn drop(self) {
        let LiteralLists {
            held: _held,
            alloc: _alloc,
        } = self;
    }
}

impl Model for LiteralLists {
    ghost use Rattle.std.specs.Prelude.{List};
    ghost use Rattle.literal_lists.specs.declared.literal.Literal.{Literal};

    ghost Value = { List (List Literal) };

    ghost use Rattle.literal_lists.specs.HeldLists.{lists_held};

    ghost view = { λ a. lists_held a.held };
}

impl LiteralLists {
    /// No lists. It takes no memory.
    pub fn empty(alloc: Global) -> LiteralLists
        ensures { result ≡ [] }
    {
        LiteralLists {
            held: HeldLists::Narrow(NarrowLists::empty(alloc)),
            alloc,
        }
    }

    /// How many lists there are.
    pub fn len(&self) -> usize
        ensures { result ≡ length self.now }
    {
        match &self.held {
            HeldLists::Narrow(lists) => lists.len(),
            HeldLists::Wide(lists) => lists.len(),
        }
    }

    /// Takes all lists out.
    pub fn clear(&mut self)
        ensures { self.new ≡ [] }
    {
        match &mut self.held {
            HeldLists::Narrow(lists) => lists.clear(),
            HeldLists::Wide(lists) => lists.clear(),
        }
    }

    /// The list at a place.
    pub fn at(&self, i: usize) -> Literals<'_>
        requires { i < length self.now }
        ensures { slice_get self.now i ≡ Some result }
    {
        match &self.held {
            HeldLists::Narrow(lists) => lists.at(i),
            HeldLists::Wide(lists) => literals_at(lists, i),
        }
    }

    /// Appends a list. Where memory is refused the lists stay as they were.
    #[inline(always)]
    pub fn push(&mut self, literals: &[Literal]) -> Result<(), NoMemory>
        ensures pushed { OnOk result (self.new ≡ self.old ++ literals.now ∷ []) }
        ensures unchanged { OnErr result (self.new ≡ self.old) }
    {
        match &mut self.held {
            HeldLists::Wide(lists) => lists.push(literals),
            HeldLists::Narrow(lists) => {
                if lists.push(literals)? {
                    return Ok(());
                }
                let mut wide = lists.widened(self.alloc)?;
                wide.push(literals)?;
                self.held = HeldLists::Wide(wide);
                Ok(())
            }
        }
    }
}
