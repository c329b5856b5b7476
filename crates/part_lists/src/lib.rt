//! Lists of the parts of a graph: a text in, and out come the qubits and couplers of a host that it
//! names, line by line, or the text's first fault.
#![tactic(auto)]

mod pairs;
mod parts;
mod reading;

pub use pairs::{has_number, pair_number};
pub use parts::Part;
pub use reading::read_parts;
