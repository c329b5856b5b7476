//! The layer that makes an Ising form of a quadratic form.
//!
//! A bit is half of its spin and 1, so four times a quadratic form is an Ising form with whole weights.
//!
//! No run of the program comes here: it gives the quadratic form up (`Ising::from_quad`).
ghost use Rattle.std.specs.Prelude.{◌≡◌, ◌+◌, ◌*◌, ◌≤◌, ◌^◌, IfOk};
ghost use Rattle.quad_form.specs.Quads.{IsQuad, quad_total};
ghost use Rattle.ising_form.specs.Spins.{image};

use crate::ising::Ising;
use crate::spins::spins_of;
use base::{Costed, NoMemory};
use bits_model::CouplerList;
use form_steps::{BitsLink, Layer, Lowered};
use quad_form::{NumberList, Quad};
use std::alloc::Global;
use std::mem;

/// The layer from bits to spins. It adds no nodes, and states are assignments.
#[derive(Drop)]
pub struct ToSpins;

impl Layer for ToSpins {
    type Source = Quad;

    type Target = Ising;

    type Link = BitsLink;

    ghost use Rattle.std.specs.Prelude.{pos};
    ghost use Rattle.quad_form.specs.Flat.{same_bits, IsSound};
    ghost use Rattle.ising_form.specs.Spins.{image, Fits};
    ghost use Rattle.ising_form.specs.laws.Spun.{
      spins_sound,
      spins_joins,
      spins_keeps,
      spins_whole_source,
      spins_whole,
    };

    ghost TOTAL_GROWTH = { 2 };

    ghost SIZE_GROWTH = { 1 };

    ghost OFFSET_FACTOR = { 0 };

    ghost image = { image };

    ghost scale = { λ _. pos 4 };

    ghost offset = { λ _. pos 0 };

    ghost extension = { λ _ x. x };

    ghost decoding = { same_bits };

    ghost is_sound = { IsSound };

    ghost fits = { λ link q. Fits link q };

    ghost sound = { spins_sound };

    ghost joins = { spins_joins };

    ghost keeps = { spins_keeps };

    ghost whole_source = { spins_whole_source };

    ghost whole = { spins_whole };

    fn lower(&self, alloc: Global, source: &Quad) -> Result<Lowered<Ising, BitsLink>, NoMemory> {
        let width = source.width();
        let nodes = source.diagonal.as_slice().to_vec(alloc)?;
        let spins = spins_of(source.constant, nodes, &source.couplers);
        let couplings = source.couplers.copied(alloc)?;
        Ok(Lowered {
            target: Ising {
                constant: spins.constant,
                fields: NumberList::new(spins.fields),
                couplings,
            },
            link: BitsLink {
                source_width: width,
                target_width: width,
            },
            scale: 4,
            offset: 0,
        })
    }

    fn decode(&self, alloc: Global, _link: &BitsLink, y: &[bool]) -> Result<Vec<bool>, NoMemory> {
        Ok(y.to_vec(alloc)?)
    }

    fn extend(
        &self,
        alloc: Global,
        _source: &Quad,
        _link: &BitsLink,
        x: &[bool],
    ) -> Result<Vec<bool>, NoMemory> {
        Ok(x.to_vec(alloc)?)
    }
}

impl Ising {
    /// The Ising form of a quadratic form that is given up: its couplers become the couplings and its
    /// weights the fields, where they lie. `ToSpins` makes the same of a form that stays.
    pub fn from_quad(alloc: Global, mut quad: Quad) -> Result<Ising, NoMemory>
        requires { (quad_total quad + 1) * 2 ^ 2 ≤ 2 ^ 124 }
        ensures image { IfOk result (λ made. made ≡ image quad) }

        // What the laws of the layer rest on.
        ensures kept { IsQuad quad }
    {
        let couplers = mem::replace(&mut quad.couplers, CouplerList::empty(alloc));
        let nodes = mem::replace(&mut quad.diagonal, NumberList::new(Vec::new(alloc)));
        let spins = spins_of(quad.constant, nodes.into_vec(), &couplers);
        Ok(Ising {
            constant: spins.constant,
            fields: NumberList::new(spins.fields),
            couplings: couplers,
        })
    }
}
