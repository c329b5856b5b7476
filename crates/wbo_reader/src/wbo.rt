//! A source of soft constraints.
use crate::soft::{OrderList, SoftList};
use problem_form::ConstraintList;
use std::marker::Model;

/// Constraints that are to hold, and soft ones, which cost their weight where they fail. A cost of
/// `top` or more is infinite, where it is given. `order` says of each constraint of the text, in
/// the text's order, whether it is soft.
///
/// It is kept in normal form, as a problem is, with weights of at least 1.
pub struct Wbo {
    pub variables: u64,
    pub hard: ConstraintList,
    pub soft: SoftList,
    pub top: Option<u64>,
    pub order: OrderList,
}

impl Drop for Wbo {
    fn drop(self) {
        let Wbo {
            variables: _variables,
            hard: _hard,
            soft: _soft,
            top: _top,
            order: _order,
        } = self;
    }
}

impl Model for Wbo {
    ghost use Rattle.wbo_reader.specs.Wbo.{WboContent, IsWbo};

    ghost Value = { WboContent };

    ghost view = { λ w. record {
      variables = w.variables;
      hard = w.hard;
      soft = w.soft;
      top = w.top;
      order = w.order;
    } };

    ghost invariant = { λ w. IsWbo (record {
      variables = w.variables;
      hard = w.hard;
      soft = w.soft;
      top = w.top;
      order = w.order;
    }) };
}
