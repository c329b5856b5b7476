//! What an embedding asks of a graph of qubits: which numbers are qubits, and which two are joined.
#![tactic(auto)]

mod hardware;
mod span;

pub use hardware::{Hardware, Others, is_qubit};
pub use span::Span;
