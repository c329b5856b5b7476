//! Pairs of literals in terms of degree 3 or more are replaced by new nodes, and the costs are
//! kept.
#![tactic(auto)]

mod buckets;
mod gather;
mod laws;
mod long_terms;
mod pair_list;
mod pairs;
mod replacing;
mod rings;
mod rosenberg;
mod run;
mod waiting;

pub use gather::add_moved;
pub use laws::laws_of_substitutions;
pub use long_terms::LongTerms;
pub use pair_list::PairList;
pub use pairs::{pairs_of, wide_pairs};
pub use rosenberg::{Rosenberg, push_products};
pub use run::{Substitutions, run_of_long};
