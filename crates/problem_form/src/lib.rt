//! The form that every source is read into: products, clauses and constraints in normal form.
#![tactic(auto)]

mod bounds;
mod clause_list;
mod clauses;
mod constraint_list;
mod costs;
mod counts;
mod laws;
mod limits;
mod pairs;
mod penalties;
mod problem;
mod product_list;
mod products;
mod terms;

pub use clause_list::{ClauseList, ClauseRef, Clauses};
pub use constraint_list::{ConstraintList, ConstraintRef, Constraints};
pub use costs::sum_of_products;
pub use counts::{positive_coefficients, slack_range_of};
pub use laws::{digits_are_least, normal_form_keeps_costs, parts_add_up};
pub use limits::{Choices, High, LimitFault, LimitKind, MOST_BYTES, Normal, check_limits};
pub use literal_lists::{
    Literal, LiteralList, LiteralLists, Literals, WideLists, all_hold, clashes, make_set,
};
pub use pairs::binary_digits_of;
pub use penalties::PartPenalties;
pub use problem::Problem;
pub use product_list::{ProductList, ProductRef, Products};
pub use terms::{Clause, Constraint, Product};
