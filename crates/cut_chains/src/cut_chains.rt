//! The layer of chains with cut-bound ties.
//!
//! A tie parts its chain into two sides. Where it is broken, the lighter side can be flipped. Then
//! fields and couplings give back at most twice the weight of that side, and the tie gives twice
//! its strength. So a tie stronger than that weight is broken in no least state. Nothing is said of
//! other states.
ghost use Rattle.std.specs.Prelude.{◌≡◌, ◌+◌, ◌*◌, ◌≤◌, ◌^◌, IfOk, pos, unsigned_abs, length};
ghost use Rattle.form_steps.specs.Least.{KeepsLeast};
ghost use Rattle.form_steps.specs.Relations.{Extends};
ghost use Rattle.ising_form.specs.Isings.{ising_total, ising_size};
ghost use Rattle.ising_form.specs.Isings as isings;
ghost use Rattle.embedding_check.specs.Embeddings.{IsEmbedding, embedding_size, form_of};
ghost use Rattle.chain_layer.specs.Image.{extension};
ghost use Rattle.cut_chains.specs.CutImage.{cut_image, cut_offset};
ghost use Rattle.cut_chains.specs.CutLinks.{Fits, IsSound, decoding};

use crate::image::image_of;
use crate::link::CutLink;
use base::NoMemory;
use chain_layer::{copied, decoded, extended};
use embedding_check::Embedded;
use form_steps::Lowered;
use ising_form::Ising;
use std::alloc::Global;

/// The layer of chains, where a tie is as strong as the lighter of its sides asks. It is no
/// `Layer`: the image keeps least states alone, and another state may lie below what it is read as.
#[derive(Drop)]
pub struct CutChains;

/// The form on the qubits, and how much is added to its energies.
fn lowered(alloc: Global, source: &Embedded) -> Result<(Ising, i128), NoMemory>
    requires total { (ising_total source.now.ising + 1) * 2 ^ 21 ≤ 2 ^ 124 }
    ensures image { IfOk result (λ made. made.0 ≡ cut_image source.now) }
    ensures offset { IfOk result (λ made. made.1 ≡ cut_offset source.now) }
    ensures kept { IsEmbedding source.now }
    ensures total { IfOk result (λ made.
        ising_total made.0 + 1 ≤ (ising_total source.now.ising + 1) * 2 ^ 21) }
    ensures size { IfOk result (λ made. ising_size made.0 ≤ embedding_size source.now * 2 ^ 1) }
{
    let (target, cost) = image_of(alloc, source)?;
    Ok((target, -(cost as i128)))
}

impl CutChains {
    /// Makes the image of a form that stays.
    pub fn lower(
        &self,
        alloc: Global,
        source: &Embedded,
    ) -> Result<Lowered<Ising, CutLink>, NoMemory>
        requires total { (ising_total source.now.ising + 1) * 2 ^ 21 ≤ 2 ^ 124 }
        requires offset { (ising_total source.now.ising + 1) * 2 ^ 20 ≤ 2 ^ 125 }
        requires size { embedding_size source.now * 2 ^ 1 ≤ 2 ^ 32 }
        ensures image { IfOk result (λ made. made.target ≡ cut_image source.now) }
        ensures fits { IfOk result (λ made. Fits made.link source.now) }
        ensures scale { IfOk result (λ made. made.scale ≡ pos 1) }
        ensures offset { IfOk result (λ made. made.offset ≡ cut_offset source.now) }
        ensures keeps { IfOk result (λ made. KeepsLeast (form_of source.now)
            (isings.form_of made.target) (decoding made.link) made.scale made.offset) }
        ensures offset_high { IfOk result (λ made.
            unsigned_abs made.offset ≤ (ising_total source.now.ising + 1) * 2 ^ 20) }
        ensures total { IfOk result (λ made.
            ising_total made.target + 1 ≤ (ising_total source.now.ising + 1) * 2 ^ 21) }
        ensures size { IfOk result (λ made.
            ising_size made.target ≤ embedding_size source.now * 2 ^ 1) }
    {
        self.lower_owned(alloc, copied(alloc, source)?)
    }

    /// The image of a form that is given up: its chains become those of the link, where they lie.
    /// `lower` makes the same of a copy.
    pub fn lower_owned(
        &self,
        alloc: Global,
        source: Embedded,
    ) -> Result<Lowered<Ising, CutLink>, NoMemory>
        requires total { (ising_total source.ising + 1) * 2 ^ 21 ≤ 2 ^ 124 }
        ensures image { IfOk result (λ made. made.target ≡ cut_image source) }
        ensures fits { IfOk result (λ made. Fits made.link source) }
        ensures scale { IfOk result (λ made. made.scale ≡ pos 1) }
        ensures offset { IfOk result (λ made. made.offset ≡ cut_offset source) }
        ensures keeps { IfOk result (λ made. KeepsLeast (form_of source)
            (isings.form_of made.target) (decoding made.link) made.scale made.offset) }
        ensures offset_high { IfOk result (λ made.
            unsigned_abs made.offset ≤ (ising_total source.ising + 1) * 2 ^ 20) }
        ensures total { IfOk result (λ made.
            ising_total made.target + 1 ≤ (ising_total source.ising + 1) * 2 ^ 21) }
        ensures size { IfOk result (λ made.
            ising_size made.target ≤ embedding_size source * 2 ^ 1) }
    {
        let (target, offset) = lowered(alloc, &source)?;
        let qubits = source.qubits();
        Ok(Lowered {
            target,
            link: CutLink {
                chains: source.into_chains(),
                qubits,
            },
            scale: 1,
            offset,
        })
    }

    /// The assignment that a state decodes to.
    pub fn decode(&self, alloc: Global, link: &CutLink, y: &[bool]) -> Result<Vec<bool>, NoMemory>
        requires sound { IsSound link.now }
        requires width { length y.now ≡ (decoding link.now).target_width }
        ensures decoded { IfOk result (λ x. x.items ≡ (decoding link.now).decoded y.now) }
        ensures width { IfOk result (λ x. length x.items ≡ (decoding link.now).source_width) }
    {
        decoded(alloc, &link.chains, y)
    }

    /// The state that an assignment extends to. It decodes to the assignment and reaches its cost.
    pub fn extend(
        &self,
        alloc: Global,
        source: &Embedded,
        _link: &CutLink,
        x: &[bool],
    ) -> Result<Vec<bool>, NoMemory>
        requires fits { Fits _link.now source.now }
        requires width { length x.now ≡ length source.now.ising.fields }
        ensures extension { IfOk result (λ y. y.items ≡ extension source.now x.now) }
        ensures reaches { IfOk result (λ y. Extends (form_of source.now)
            (isings.form_of (cut_image source.now)) (decoding _link.now)
            (pos 1) (cut_offset source.now) x.now y.items) }
    {
        extended(alloc, source, x)
    }
}
