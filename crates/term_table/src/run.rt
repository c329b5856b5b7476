//! Runs: lists of terms in order, in which a table keeps what was added to it.
ghost use Rattle.std.specs.Prelude.{◌≡◌, ◌∷◌, [], length, IfOk};

use crate::run_term::RunTerm;
use base::NoMemory;
use literal_lists::Literal;
use std::alloc::Global;
use std::default::MadeWith;
use std::marker::Model;

/// Terms, which contracts see as their list.
#[derive(Drop)]
pub struct Run {
    pub(crate) terms: Vec<RunTerm>,
}

impl Model for Run {
    ghost use Rattle.std.specs.Prelude.{List};
    ghost use Rattle.term_table.specs.Terms.{Term};

    ghost Value = { List Term };

    ghost view = { λ r. r.terms.items };
}

/// An empty run, which fills a place that is not used.
impl MadeWith<Global> for Run {
    fn made_with(alloc: Global) -> Run {
        Run {
            terms: Vec::new(alloc),
        }
    }
}

impl Run {
    /// A run of one term.
    pub fn of_one(alloc: Global, literals: &[Literal], coefficient: i128) -> Result<Run, NoMemory>
        ensures { IfOk result (λ r. r ≡ (literals.now, coefficient) ∷ []) }
    {
        let mut terms = Vec::new(alloc);
        let term = RunTerm::of(alloc, literals, coefficient)?;
        terms.push(term)?;
        Ok(Run { terms })
    }

    pub fn as_slice(&self) -> &[RunTerm]
        ensures { result.now ≡ self.now }
    {
        self.terms.as_slice()
    }

    pub fn len(&self) -> usize
        ensures { result ≡ length self.now }
    {
        self.terms.len()
    }
}
