//! Products, clauses and constraints, each by itself.

use crate::product_list::ProductList;
use literal_lists::LiteralList;

/// Counts its coefficient where all its literals are true.
#[derive(Drop)]
pub struct Product {
    pub literals: LiteralList,
    pub coefficient: i128,
}

/// Is to have a true literal. Without a weight it is hard.
#[derive(Drop)]
pub struct Clause {
    pub literals: LiteralList,
    pub weight: Option<u64>,
}

/// The sum of its products is to be `bound` where it is exact, and at least `bound` elsewhere.
#[derive(Drop)]
pub struct Constraint {
    pub products: ProductList,
    pub bound: i128,
    pub exact: bool,
}
