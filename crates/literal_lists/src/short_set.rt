//! Sets of one or two literals, which take no memory of their own.
ghost use Rattle.std.specs.Prelude.{◌≡◌, ◌∷◌, [], None, Some, if◌then◌else◌};
ghost use Rattle.literal_lists.specs.Literals.{has_clash, literal_set};

use crate::literal::Literal;
use std::cmp::Ordering;
use std::marker::Model;

/// A set of one or two literals, which contracts see as a list.
#[derive(Drop)]
pub struct ShortSet {
    literals: [Literal; 2],
    len: usize,
}

impl Model for ShortSet {
    ghost use Rattle.std.specs.Prelude.{List, ◌≤◌, take};
    ghost use Rattle.literal_lists.specs.declared.literal.Literal.{Literal};

    ghost Value = { List Literal };

    ghost view = { λ s. take s.len s.literals };

    ghost invariant = { λ s. s.len ≤ 2 };
}

impl ShortSet {
    /// The set of two literals. `None` where they are opposite.
    #[inline(always)]
    pub fn of(first: Literal, second: Literal) -> Option<ShortSet>
        ensures { result ≡ (if has_clash (first ∷ second ∷ []) then None
            else Some (literal_set (first ∷ second ∷ []))) }
    {
        let (literals, len) = match first.variable.cmp(&second.variable) {
            Ordering::Less => ([first, second], 2),
            Ordering::Greater => ([second, first], 2),
            Ordering::Equal if first.negated == second.negated => ([first, first], 1),
            Ordering::Equal => return None,
        };
        Some(ShortSet { literals, len })
    }

    /// The literals in order.
    #[inline(always)]
    pub fn as_slice(&self) -> &[Literal]
        ensures { result.now ≡ self.now }
    {
        &self.literals[..self.len]
    }
}
