//! Certificates of least states: posiforms, which show by their signs that no state lies below
//! their bound.
//!
//! A certificate is a bound and lines: products of literals with a coefficient. Where no
//! coefficient is negative, its value is at least the bound under every list of bits. Where it is
//! the energy of a model, set by set, and the energy of a state is the bound, no state of the model
//! has a lesser one. Posiforms and their bounds are those of Boros and Hammer.
#![tactic(auto)]

mod certificate;
mod comparing;
mod faults;
mod forms;
mod laws;
mod limits;
mod lines;
mod listed;
mod proving;
mod quick;
mod reading;
mod set_sums;

pub use certificate::Certificate;
pub use faults::{ProofAnswer, ProofFault};
pub use laws::{laws_of_certificates, laws_of_first_faults, laws_of_readings};
pub use limits::check_certificate;
pub use lines::{Line, LineList, LineRef, Lines};
pub use proving::prove;
pub use reading::{read_certificate, read_certificate_tokens};
