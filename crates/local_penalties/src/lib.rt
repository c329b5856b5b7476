//! A penalty for each part, by the prices of literals.
//!
//! Making a literal true can raise the objective and soft clauses, and can break parts or break them
//! further. Its price is the most that all these can rise. A part whose cheapest repair has a price
//! needs a penalty of one more: then what breaks it alone can be mended at a gain. A clause is
//! repaired by its cheapest literal, a constraint by one that suffices alone, or step by step: of a
//! broken one several literals are false, so one costs no more than that many do each. Penalties are
//! found in rounds, since a price is finite only where all parts that the literal hurts have a
//! penalty of their own. A number for each literal has its price, and 2^64 or more where that is
//! infinite; after a round it changes by the parts that got a penalty.
#![tactic(auto)]

mod equations;
mod finding;
mod greatest;
mod local;
mod opening;
mod parts;
mod rounds;
mod tallies;

pub use finding::local_penalties;
