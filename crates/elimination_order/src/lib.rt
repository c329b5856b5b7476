//! Orders in which the nodes of a model are eliminated.
//!
//! A text of words goes in, and out comes the order, which names each node once, or the first
//! fault. With an order a model goes in, and out comes its first least state, compared from the
//! node that is eliminated last on, or the first node in the order that has too many neighbours by
//! then.
#![tactic(auto)]

mod laws;
mod numbering;
mod reading;
mod renumbering;
mod solving;

pub use laws::{laws_of_numbers, laws_of_orders};
pub use numbering::{Numbering, taken_back};
pub use reading::read_order;
pub use solving::solve_by;
