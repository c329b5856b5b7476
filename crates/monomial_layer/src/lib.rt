//! Terms of degree 3 or more are replaced by quadratic terms with new nodes, and the costs are
//! kept.
#![tactic(auto)]

mod bits;
mod laws;
mod monomials;
mod nodes;
mod replace;

pub use bits::push_taken;
pub use laws::laws_of_replacements;
pub use monomials::Monomials;
pub use nodes::{all_new_nodes, factor, new_nodes, nodes_for};
