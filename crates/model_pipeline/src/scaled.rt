//! What stands for a problem, and by which figures.
use base::Figures;

/// A form, and how its energies stand for the costs of a problem.
#[derive(Drop)]
pub struct Scaled<T> {
    pub target: T,
    pub figures: Figures,
}
