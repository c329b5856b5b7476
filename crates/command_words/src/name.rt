//! The name of a file.
ghost use Rattle.std.specs.Prelude.{◌≡◌, ℕ, List, nat_eq};
ghost use Rattle.std.specs.Cmp.Lexicographic.{pointwise, nat_list_eq_equiv};
ghost use Rattle.std.specs.Cmp.{partial_equiv_from_equiv};

use std::marker::Model;

/// The name of a file. Contracts see its bytes.
#[derive(Drop)]
pub struct Name<'a> {
    text: &'a str,
}

impl<'a> Model for Name<'a> {
    ghost Value = { List ℕ };

    ghost view = { λ a. a.text.now };
}

impl<'a> Name<'a> {
    /// The name that is this text.
    pub fn new(text: &'a str) -> Name<'a>
        ensures { result ≡ text.now }
    {
        Name { text }
    }

    /// The text that it is.
    pub fn text(&self) -> &'a str
        ensures { result.now ≡ self.now }
    {
        self.text
    }

    /// The same name once more.
    pub(crate) fn again(&self) -> Name<'a>
        ensures { result ≡ self.now }
    {
        Name { text: self.text }
    }
}

impl<'a> PartialEq for Name<'a> {
    ghost eq = { pointwise nat_eq };

    ghost laws = { partial_equiv_from_equiv nat_list_eq_equiv };

    fn eq(&self, other: &Name<'a>) -> bool {
        self.text == other.text
    }
}

impl<'a> Eq for Name<'a> {
    ghost laws = { nat_list_eq_equiv };
}

/// A name once more, where there is one.
pub(crate) fn again<'a>(name: &Option<Name<'a>>) -> Option<Name<'a>>
    ensures { result ≡ name.now }
{
    match name {
        Some(name) => Some(name.again()),
        None => None,
    }
}
