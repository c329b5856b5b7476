//! Constraints of which no two products may miss, or that any one of their products makes hold, as
//! hard clauses in place of slack bits.
//!
//! At most one of some literals, an implication or a clause that is written as a constraint is a
//! conflict: no two of its products may miss. Each two of its products become a clause of two
//! literals. What a conflict is, is seen in one walk over its products: any two sizes sum to more
//! than the room where the least size of those before each product and its own do. At least one of
//! some literals is a cover, and becomes one clause. A problem goes in, and one comes out that
//! costs the same under every assignment.
#![tactic(auto)]

mod clauses;
mod conflicts;
mod covers;
mod replacing;

pub use replacing::{without_conflicts, without_covers};
