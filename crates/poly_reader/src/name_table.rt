//! The names that were read so far, and their numbers.
ghost use Rattle.std.specs.Prelude.{◌≡◌, ◌<◌, ◌≤◌, [], true, IfOk, OnOk, length};
ghost use Rattle.poly_reader.specs.Poly.{is_name};
ghost use Rattle.poly_reader.specs.Numbering.{with_name, number_of};

use crate::names::Names;
use base::NoMemory;
use indexmap::IndexSet;
use std::alloc::Global;
use std::marker::Model;

/// Names, each as it stands in the text. Contracts see the list of the names.
pub(crate) struct NameTable<'a> {
    set: IndexSet<&'a str>,
}

impl<'a> Drop for NameTable<'a> {
    fn drop(self) {
        let NameTable { set: _set } = self;
    }
}

impl<'a> Model for NameTable<'a> {
    ghost use Rattle.std.specs.Prelude.{ℕ, List};

    ghost Value = { List (List ℕ) };

    ghost use Rattle.poly_reader.specs.Numbering.{AreNames};
    ghost use Rattle.poly_reader.specs.Views.{names_lent};

    ghost view = { λ t. names_lent t.set.keys };

    ghost invariant = { λ t. AreNames (names_lent t.set.keys) };
}

impl<'a> NameTable<'a> {
    /// No names. It takes no memory.
    pub(crate) fn new(alloc: Global) -> NameTable<'a>
        ensures { result ≡ [] }
    {
        NameTable {
            set: IndexSet::new(alloc),
        }
    }

    /// How many names there are.
    pub(crate) fn len(&self) -> usize
        ensures { result ≡ length self.now }
    {
        self.set.len()
    }

    /// The number of a name. A new name is put behind the others.
    #[inline(always)]
    pub(crate) fn number(&mut self, name: &'a str) -> Result<usize, NoMemory>
        requires { is_name name.now ≡ true }
        ensures added { OnOk result (self.new ≡ with_name self.old name.now) }
        ensures number { IfOk result (λ n. n ≡ number_of self.new name.now) }
        ensures within { IfOk result (λ n. n < length self.new) }
    {
        let (number, _) = self.set.insert_full(name)?;
        Ok(number)
    }

    /// The names, copied.
    pub(crate) fn copied(&self, alloc: Global) -> Result<Names, NoMemory>
        ensures { IfOk result (λ names. names ≡ self.now) }
    {
        let mut names = Names::empty(alloc);
        for name in self.set.iter() {
            names.push(name)?;
        }
        Ok(names)
    }
}
