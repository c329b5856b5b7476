//! Ising forms whose nodes stand on chains of qubits.
use base::{Cost, Costed, Items};
use bits_model::ChainList;
use ising_form::Ising;
use std::marker::Model;

/// Pairs of qubits.
pub type PairList = Items<(u32, u32)>;

/// An Ising form, a chain of qubits for each of its nodes, the parents of the qubits of each chain,
/// and the pairs of qubits on which its couplings are placed.
///
/// It is kept that there is a chain for each node, none empty; that no qubit is listed twice,
/// and there are at most 2^20; that the parents of a chain make a tree on it; and that each
/// coupling has a place with one end in each of its chains.
pub struct Embedded {
    pub(crate) ising: Ising,
    pub(crate) chains: ChainList,
    pub(crate) qubits: u32,
    pub(crate) parents: ChainList,
    pub(crate) places: PairList,
}

impl Drop for Embedded {
    fn drop(self) {
        let Embedded {
            ising: _ising,
            chains: _chains,
            qubits: _qubits,
            parents: _parents,
            places: _places,
        } = self;
    }
}

impl Model for Embedded {
    ghost use Rattle.embedding_check.specs.Embeddings.{Embedding, IsEmbedding};

    ghost Value = { Embedding };

    ghost view = { λ e. record {
      ising = e.ising;
      chains = e.chains;
      qubits = e.qubits;
      parents = e.parents;
      places = e.places;
    } };

    ghost invariant = { λ e. IsEmbedding (record {
      ising = e.ising;
      chains = e.chains;
      qubits = e.qubits;
      parents = e.parents;
      places = e.places;
    }) };
}

impl Embedded {
    ghost use Rattle.std.specs.Prelude.{◌≡◌};
    ghost use Rattle.embedding_check.specs.Embeddings.{IsEmbedding};

    /// An embedding of these parts.
    pub fn of(
        ising: Ising,
        chains: ChainList,
        qubits: u32,
        parents: ChainList,
        places: PairList,
    ) -> Embedded
        requires { IsEmbedding (record {
          ising = ising;
          chains = chains;
          qubits = qubits;
          parents = parents;
          places = places;
        }) }
        ensures { result ≡ record {
          ising = ising;
          chains = chains;
          qubits = qubits;
          parents = parents;
          places = places;
        } }
    {
        Embedded {
            ising,
            chains,
            qubits,
            parents,
            places,
        }
    }

    /// The form that is embedded.
    pub fn ising(&self) -> &Ising
        ensures form { result.now ≡ self.now.ising }
        ensures kept { IsEmbedding self.now }
    {
        &self.ising
    }

    /// A chain for each node.
    pub fn chains(&self) -> &ChainList
        ensures { result.now ≡ self.now.chains }
    {
        &self.chains
    }

    /// How many qubits the hardware has.
    pub fn qubits(&self) -> u32
        ensures { result ≡ self.now.qubits }
    {
        self.qubits
    }

    /// The parents of each chain's qubits, from its second on.
    pub fn parents(&self) -> &ChainList
        ensures { result.now ≡ self.now.parents }
    {
        &self.parents
    }

    /// The pair of qubits of each coupling.
    pub fn places(&self) -> &PairList
        ensures { result.now ≡ self.now.places }
    {
        &self.places
    }

    /// The chains, where they lie. All else of the embedding is let go.
    pub fn into_chains(self) -> ChainList
        ensures { result ≡ self.chains }
    {
        let Embedded {
            ising: _ising,
            chains,
            qubits: _qubits,
            parents: _parents,
            places: _places,
        } = self;
        chains
    }
}

impl Costed for Embedded {
    ghost use Rattle.ising_form.specs.Isings.{ising_total};
    ghost use Rattle.embedding_check.specs.Embeddings.{form_of, embedding_size};

    ghost form = { form_of };

    ghost total = { λ e. ising_total e.ising };

    ghost size = { embedding_size };

    fn width(&self) -> usize {
        self.ising.width()
    }

    /// What the form costs.
    fn cost(&self, x: &[bool]) -> Cost {
        self.ising.cost(x)
    }
}
