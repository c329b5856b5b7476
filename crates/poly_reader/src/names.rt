//! The names of variables.
ghost use Rattle.std.specs.Prelude.{◌≡◌, ◌<◌, ◌++◌, ◌∷◌, [], Some, OnOk, true, length, slice_get};
ghost use Rattle.poly_reader.specs.Poly.{is_name};

use base::{Lists, NoMemory};
use std::alloc::Global;
use std::marker::Model;
use std::str;

/// The bytes of a name as text. They are of ASCII, so they are not tested again.
pub(crate) fn as_text(name: &[u8]) -> &str
    requires { is_name name.now ≡ true }
    ensures { result.now ≡ name.now }
{
    unsafe { str::from_utf8_unchecked(name) }
}

/// The names of variables, in the order of the variables. They lie one after another, and a name
/// takes no memory of its own. Contracts see the list of the names.
pub struct Names {
    names: Lists<u8>,
}

impl Drop for Names {
    fn drop(self) {
        let Names { names: _names } = self;
    }
}

impl Model for Names {
    ghost use Rattle.std.specs.Prelude.{ℕ, List};

    ghost Value = { List (List ℕ) };

    ghost use Rattle.poly_reader.specs.Numbering.{AreNames};

    ghost view = { λ a. a.names };

    ghost invariant = { λ a. AreNames a.names };
}

impl Names {
    /// No names. It takes no memory.
    pub(crate) fn empty(alloc: Global) -> Names
        ensures { result ≡ [] }
    {
        Names {
            names: Lists::empty(alloc),
        }
    }

    /// How many names there are.
    pub fn len(&self) -> usize
        ensures { result ≡ length self.now }
    {
        self.names.len()
    }

    /// The name of a variable.
    pub fn name(&self, variable: usize) -> &str
        requires { variable < length self.now }
        ensures { slice_get self.now variable ≡ Some result.now }
    {
        as_text(self.names.list(variable))
    }

    /// Appends a name.
    pub(crate) fn push(&mut self, name: &str) -> Result<(), NoMemory>
        requires { is_name name.now ≡ true }
        ensures { OnOk result (self.new ≡ self.old ++ name.now ∷ []) }
    {
        self.names.push(name.as_bytes())
    }
}
