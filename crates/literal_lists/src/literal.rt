//! Literals, and lists of them.
ghost use Rattle.std.specs.Prelude.{◌≡◌};
ghost use Rattle.literal_lists.specs.Literals.{all_hold, holds};

use base::Items;

/// A variable or its complement. A variable stands before its complement.
#[derive(Clone, Copy, Debug, Default, PartialEq, Eq, PartialOrd, Ord)]
pub struct Literal {
    pub variable: u64,
    pub negated: bool,
}

impl Literal {
    /// Whether the literal is true under an assignment. A variable past its end is false.
    pub fn holds(&self, x: &[bool]) -> bool
        ensures { result ≡ holds x.now self.now }
    {
        let value = match x.get(self.variable as usize) {
            Some(bit) => *bit,
            None => false,
        };
        if self.negated { !value } else { value }
    }
}

/// Whether all literals are true under an assignment.
pub fn all_hold(literals: &[Literal], x: &[bool]) -> bool
    ensures { result ≡ all_hold x.now literals.now }
{
    literals.iter().all(|literal| literal.holds(x))
}

/// Literals, which contracts see as a list.
pub type LiteralList = Items<Literal>;
