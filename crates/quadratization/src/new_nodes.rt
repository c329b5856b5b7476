//! The new nodes of a quadratic form, which stand for long terms, and their bits.
ghost use Rattle.std.specs.Prelude.{◌≡◌, IfOk};
ghost use Rattle.quadratization.specs.NewNodes.{with_new_bits};

use crate::long_table::LongTable;
use base::NoMemory;
use quad_form::Quad;
use rosenberg_layer::PairList;
use std::alloc::Global;

/// What the new nodes of a form stand for: long terms, each of which has nodes of its own, or pairs
/// of literals, which were replaced one after another.
#[derive(Drop)]
pub enum NewNodes {
    Terms(LongTable),
    Pairs(PairList),
}

/// A quadratic form and its new nodes.
#[derive(Drop)]
pub struct DirectForm {
    pub quad: Quad,
    pub new_nodes: NewNodes,
}

impl DirectForm {
    /// The form alone.
    pub(crate) fn into_quad(self) -> Quad
        ensures { result ≡ self.quad }
    {
        self.quad
    }
}

impl NewNodes {
    /// A state of the nodes before them, and the bits of the new ones.
    pub fn extended(&self, alloc: Global, mut x: Vec<bool>) -> Result<Vec<bool>, NoMemory>
        ensures { IfOk result (λ y. y.items ≡ with_new_bits self.now x.items) }
    {
        match self {
            NewNodes::Terms(terms) => terms.extended(alloc, &x),
            NewNodes::Pairs(pairs) => {
                pairs.push_products(&mut x)?;
                Ok(x)
            }
        }
    }
}
