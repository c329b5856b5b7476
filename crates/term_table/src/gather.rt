//! Where terms are added, whatever is made of them in the end.
ghost use Rattle.std.specs.Prelude.{◌≡◌, ◌∷◌, List, OnOk};
ghost use Rattle.term_table.specs.Terms.{Term};
ghost use Rattle.term_table.specs.Tables.{TableContent, with_appended, with_more, AreAdditions};

use crate::gathered::GatheredTerms;
use base::NoMemory;
use literal_lists::Literal;

/// What gathers sets with coefficients, in the order in which they come. It need not keep each of
/// them. Where memory is refused, it may have gathered a part of what a set gives.
pub trait Gather {
    /// It has room for these terms, one after another.
    ghost takes: { Self → List Term → Type 0 };

    /// It holds what these additions give.
    ghost holds: { Self → TableContent → Type 0 };

    /// Appends an addition to the coefficient of a set.
    fn gather(&mut self, literals: &[Literal], coefficient: i128) -> Result<(), NoMemory>
        requires { (more : List Term) × takes self.old ((literals.now, coefficient) ∷ more) }
        ensures added { (t : TableContent) → holds self.old t
            → OnOk result (holds self.new (with_appended t literals.now coefficient)) }
        ensures takes { (more : List Term) → takes self.old ((literals.now, coefficient) ∷ more)
            → OnOk result (takes self.new more) };
}

impl Gather for GatheredTerms {
    ghost takes = { λ terms ts. AreAdditions (with_more terms ts) };

    ghost holds = { λ terms t. terms ≡ t };

    fn gather(&mut self, literals: &[Literal], coefficient: i128) -> Result<(), NoMemory> {
        self.add(literals, coefficient)
    }
}
