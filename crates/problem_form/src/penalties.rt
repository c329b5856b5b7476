//! Penalties of the hard parts of a problem.
ghost use Rattle.std.specs.Prelude.{◌≡◌};
ghost use Rattle.problem_form.specs.Problems.{no_penalties};

use base::Items;
use std::alloc::Global;

/// Penalties of hard parts, one after another as the clauses and the constraints of a problem are. A
/// soft clause has an entry that counts for nothing. Parts past the end of a list have the penalty of
/// the whole problem, and no part has a greater one.
#[derive(Drop)]
pub struct PartPenalties {
    pub clauses: Items<u64>,
    pub constraints: Items<u64>,
}

impl PartPenalties {
    /// No part has a penalty of its own. It takes no memory.
    pub fn none(alloc: Global) -> PartPenalties
        ensures { result ≡ no_penalties }
    {
        PartPenalties {
            clauses: Items::empty(alloc),
            constraints: Items::empty(alloc),
        }
    }

    /// The penalties of these lists.
    pub fn new(clauses: Vec<u64>, constraints: Vec<u64>) -> PartPenalties
        ensures { result
            ≡ record { clauses = clauses.items; constraints = constraints.items } }
    {
        PartPenalties {
            clauses: Items::new(clauses),
            constraints: Items::new(constraints),
        }
    }
}
