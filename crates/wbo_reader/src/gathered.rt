//! What was read of a source so far.
ghost use Rattle.std.specs.Prelude.{◌≡◌, ◌<◌, ◌^◌, OnOk};
ghost use Rattle.problem_form.specs.Problems.{constraint_total};
ghost use Rattle.wbo_reader.specs.Wbo.{IsWbo};
ghost use Rattle.wbo_reader.specs.Gathering.{nothing, with_constraint};

use crate::soft::{OrderList, SoftList};
use crate::wbo::Wbo;
use base::NoMemory;
use problem_form::{Constraint, ConstraintList};
use std::alloc::Global;
use std::marker::Model;

/// The constraints so far, and how many variables they have. It keeps nothing of what a source
/// keeps: what is read has this for every text, so that it is shown once, for the whole.
pub(crate) struct Gathered {
    pub variables: u64,
    pub hard: ConstraintList,
    pub soft: SoftList,
    pub top: Option<u64>,
    pub order: OrderList,
}

impl Drop for Gathered {
    fn drop(self) {
        let Gathered {
            variables: _variables,
            hard: _hard,
            soft: _soft,
            top: _top,
            order: _order,
        } = self;
    }
}

impl Model for Gathered {
    ghost use Rattle.wbo_reader.specs.Wbo.{WboContent};

    ghost Value = { WboContent };

    ghost view = { λ w. record {
      variables = w.variables;
      hard = w.hard;
      soft = w.soft;
      top = w.top;
      order = w.order;
    } };
}

impl Gathered {
    /// No constraints. It takes no memory.
    pub(crate) fn new(alloc: Global, top: Option<u64>) -> Gathered
        ensures { result ≡ nothing top }
    {
        Gathered {
            variables: 0,
            hard: ConstraintList::empty(alloc),
            soft: SoftList::empty(alloc),
            top,
            order: OrderList::empty(alloc),
        }
    }

    /// Adds a constraint as written, in normal form, with its weight where it is soft. One of
    /// weight 0 is dropped.
    pub(crate) fn add(&mut self, weight: Option<u64>, written: &Constraint) -> Result<(), NoMemory>
        requires { constraint_total written.now < 2 ^ 100 }
        ensures { OnOk result (self.new ≡ with_constraint self.old weight written.now) }
    {
        match weight {
            None => {
                self.hard.push_normal(written)?;
                self.order.push(false)
            }
            Some(0) => Ok(()),
            Some(weight) => {
                self.soft.push(written, weight)?;
                self.order.push(true)
            }
        }
    }

    /// The source, where it keeps all that a source keeps.
    pub(crate) fn into_wbo(self) -> Wbo
        requires { IsWbo self }
        ensures { result ≡ self }
    {
        let Gathered {
            variables,
            hard,
            soft,
            top,
            order,
        } = self;
        Wbo {
            variables,
            hard,
            soft,
            top,
            order,
        }
    }
}
