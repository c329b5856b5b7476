//! From a problem to its model: the steps that a command chooses, one after another.
//!
//! On the qubits of a Chimera graph, or on those of it that work, the model stands on the chains of a
//! map, or on those of a clique; on a graph that is given as a list, on those of a map. Each chain is
//! tied.
#![tactic(auto)]

mod chained;
mod compiling;
mod embedding;
mod extending;
mod forms;
mod held;
mod laws;
mod made;
mod on_qubits;
mod options;
mod promise;
mod scaled;
mod site;
mod size_laws;
mod spins;
mod states;
mod written;

pub use compiling::compile;
pub use extending::extended;
pub use held::Held;
pub use laws::{decoders_of_steps, laws_of_decoding, laws_of_extensions, laws_of_ties};
pub use made::{FormSteps, Made};
pub use on_qubits::form_on_qubits;
pub use options::{ModelTarget, Options};
pub use promise::{
    energies_are_bounded, least_states_compose, least_states_tell, relaxed_is_faithful,
    standing_is_faithful,
};
pub use site::{ChainSource, GivenGraph, Qubits, Site};
pub use size_laws::laws_of_sizes;
pub use states::extended_state;
