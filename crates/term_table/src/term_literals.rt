//! Literal sets, as the terms of a table hold them.
//!
//! Most sets of a table have at most two literals. Those lie in the term itself and take no memory
//! of their own.
ghost use Rattle.std.specs.Prelude.{◌≡◌, ◌≤◌, length, IsOk, IfOk, Some};
ghost use Rattle.std.proofs.Common.{refl};
ghost use Rattle.std.specs.Cmp.{partial_order_from_total};
ghost use Rattle.std.specs.Ordering.{eq_by_cmp};
ghost use Rattle.term_table.specs.Terms.{set_cmp};
ghost use Rattle.term_table.specs.laws.Keys.{key_total, key_equal, key_alike};

use base::NoMemory;
use literal_lists::Literal;
use smallvec::SmallVec;
use std::alloc::Global;
use std::cmp::Ordering;
use std::marker::Model;

/// A list of literals, which contracts see as a list. It is ordered as `Vec<Literal>` is.
#[derive(Drop)]
pub struct TermLiterals {
    held: SmallVec<Literal, 2>,
}

impl Model for TermLiterals {
    ghost use Rattle.std.specs.Prelude.{List};
    ghost use Rattle.literal_lists.specs.declared.literal.Literal.{Literal};

    ghost Value = { List Literal };

    ghost view = { λ k. k.held.items };
}

impl TermLiterals {
    /// Takes memory only for more than two literals.
    pub fn from_slice(alloc: Global, literals: &[Literal]) -> Result<TermLiterals, NoMemory>
        ensures same { IfOk result (λ k. k ≡ literals.now) }
        ensures few { length literals.now ≤ 2 → IsOk result }
    {
        let held = match literals {
            [first, second] => SmallVec::from_buf(alloc, [*first, *second]),
            _ => SmallVec::from_slice(alloc, literals)?,
        };
        Ok(TermLiterals { held })
    }

    pub fn as_slice(&self) -> &[Literal]
        ensures { result.now ≡ self.now }
    {
        self.held.as_slice()
    }
}

impl PartialEq for TermLiterals {
    ghost eq = { eq_by_cmp set_cmp };

    ghost laws = { key_alike };

    fn eq(&self, other: &TermLiterals) -> bool {
        self.cmp(other).is_eq()
    }
}

impl Eq for TermLiterals {
    ghost laws = { key_equal };
}

impl PartialOrd for TermLiterals {
    ghost partial_cmp = { λ a b. Some (set_cmp a b) };

    ghost laws = { partial_order_from_total key_total };

    fn partial_cmp(&self, other: &TermLiterals) -> Option<Ordering> {
        Some(self.cmp(other))
    }
}

impl Ord for TermLiterals {
    ghost cmp = { set_cmp };

    ghost total = { key_total };

    ghost matches_partial_cmp = { λ a b. refl };

    ghost matches_eq = { λ a b. refl };

    fn cmp(&self, other: &TermLiterals) -> Ordering {
        self.as_slice().cmp(&other.as_slice())
    }
}
