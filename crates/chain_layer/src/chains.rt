//! The layer that puts an embedded Ising form on the qubits of its chains.
//!
//! Ties are as strong as in Choi 2008, Minor-embedding in adiabatic quantum computation I: one more
//! than the sizes of the field and of the couplings of a node, so that a broken tie never pays.
ghost use Rattle.std.specs.Prelude.{◌≡◌, ◌+◌, ◌*◌, ◌≤◌, ◌^◌, IfOk, map, pos, unsigned_abs};
ghost use Rattle.form_steps.specs.Relations.{Keeps};
ghost use Rattle.embedding_check.specs.Embeddings.{IsEmbedding, embedding_size, form_of};
ghost use Rattle.ising_form.specs.Isings.{ising_size, ising_total};
ghost use Rattle.ising_form.specs.Isings as isings;
ghost use Rattle.chain_layer.specs.Image.{
  decoding,
  image,
  nodes_of,
  offset,
  strength,
  Fits,
};

use crate::copying::copied;
use crate::decoding::decoded;
use crate::extending::extended;
use crate::link::ChainLink;
use crate::shares::shared_fields;
use crate::strengths::strengths;
use crate::ties::{couplings_of, ties_cost};
use base::NoMemory;
use embedding_check::Embedded;
use form_steps::{Layer, Lowered};
use ising_form::Ising;
use quad_form::NumberList;
use std::alloc::Global;

/// The layer of chains. Each field is split over its chain, each coupling is placed on one pair of
/// joined qubits, and each qubit of a chain but the first is tied to its parent.
#[derive(Drop)]
pub struct Chains;

/// The form on the qubits.
fn image_of(alloc: Global, source: &Embedded, strengths: &[u128]) -> Result<Ising, NoMemory>
    requires kept { IsEmbedding source.now }
    requires strengths { strengths.now ≡ map (strength source.now) (nodes_of source.now) }
    requires total { (ising_total source.now.ising + 1) * 2 ^ 21 ≤ 2 ^ 124 }
    ensures { IfOk result (λ f. f ≡ image source.now) }
{
    let fields = shared_fields(alloc, source)?;
    let couplings = couplings_of(alloc, source, strengths)?;
    Ok(Ising {
        constant: source.ising().constant,
        fields: NumberList::new(fields),
        couplings,
    })
}

/// The form on the qubits, and how much is added to its energies.
fn lowered(alloc: Global, source: &Embedded) -> Result<(Ising, i128), NoMemory>
    requires total { (ising_total source.now.ising + 1) * 2 ^ 21 ≤ 2 ^ 124 }
    ensures image { IfOk result (λ made. made.0 ≡ image source.now) }
    ensures offset { IfOk result (λ made. made.1 ≡ offset source.now) }
    ensures kept { IsEmbedding source.now }
{
    let strengths = strengths(alloc, source)?;
    let target = image_of(alloc, source, &strengths)?;
    let cost = ties_cost(source, &strengths);
    Ok((target, -(cost as i128)))
}

impl Chains {
    /// The image of an embedded form that is given up: its chains become those of the link, where
    /// they lie. `lower` makes the same of a copy.
    pub fn lower_owned(
        &self,
        alloc: Global,
        source: Embedded,
    ) -> Result<Lowered<Ising, ChainLink>, NoMemory>
        requires total { (ising_total source.ising + 1) * 2 ^ 21 ≤ 2 ^ 124 }
        ensures image { IfOk result (λ made. made.target ≡ image source) }
        ensures fits { IfOk result (λ made. Fits made.link source) }
        ensures scale { IfOk result (λ made. made.scale ≡ pos 1) }
        ensures offset { IfOk result (λ made. made.offset ≡ offset source) }
        ensures keeps { IfOk result (λ made. Keeps (form_of source)
            (isings.form_of made.target) (decoding made.link) made.scale made.offset) }
        ensures offset_high { IfOk result (λ made.
            unsigned_abs made.offset ≤ (ising_total source.ising + 1) * 2 ^ 20) }
        ensures total { IfOk result (λ made.
            ising_total made.target + 1 ≤ (ising_total source.ising + 1) * 2 ^ 21) }
        ensures size { IfOk result (λ made.
            ising_size made.target ≤ embedding_size source * 2 ^ 1) }
    {
        let (target, offset) = lowered(alloc, &source)?;
        let qubits = source.qubits();
        Ok(Lowered {
            target,
            link: ChainLink {
                chains: source.into_chains(),
                qubits,
            },
            scale: 1,
            offset,
        })
    }
}

impl Layer for Chains {
    type Source = Embedded;

    type Target = Ising;

    type Link = ChainLink;

    ghost use Rattle.std.specs.Prelude.{pos};
    ghost use Rattle.chain_layer.specs.Image.{
      image,
      offset,
      extension,
      decoding,
      IsSound,
      Fits,
    };
    ghost use Rattle.chain_layer.specs.laws.Kept.{
      chains_sound,
      chains_join,
      chains_keep,
      chains_whole_source,
      chains_whole,
    };

    ghost TOTAL_GROWTH = { 21 };

    ghost SIZE_GROWTH = { 1 };

    ghost OFFSET_FACTOR = { 2 ^ 20 };

    ghost image = { image };

    ghost scale = { λ _. pos 1 };

    ghost offset = { offset };

    ghost extension = { extension };

    ghost decoding = { decoding };

    ghost is_sound = { IsSound };

    ghost fits = { λ link e. Fits link e };

    ghost sound = { chains_sound };

    ghost joins = { chains_join };

    ghost keeps = { chains_keep };

    ghost whole_source = { chains_whole_source };

    ghost whole = { chains_whole };

    fn lower(
        &self,
        alloc: Global,
        source: &Embedded,
    ) -> Result<Lowered<Ising, ChainLink>, NoMemory> {
        self.lower_owned(alloc, copied(alloc, source)?)
    }

    fn decode(&self, alloc: Global, link: &ChainLink, y: &[bool]) -> Result<Vec<bool>, NoMemory> {
        decoded(alloc, &link.chains, y)
    }

    fn extend(
        &self,
        alloc: Global,
        source: &Embedded,
        _link: &ChainLink,
        x: &[bool],
    ) -> Result<Vec<bool>, NoMemory> {
        extended(alloc, source, x)
    }
}
