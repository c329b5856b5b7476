//! The layer that makes a quadratic form of a table of low terms.
//!
//! Its terms are added to sums, and the form is made of these.
//!
//! No run of the program comes here: what it has gathered goes into the same sums (`QuadSums`).
ghost use Rattle.std.specs.Prelude.{◌≤◌, ◌<◌, ◌^◌, IfOk, OnOk};
ghost use Rattle.term_table.specs.Terms.{terms_total};
ghost use Rattle.term_table.specs.Tables.{IsTable, IsLow};
ghost use Rattle.term_table.specs.Rooms.{Fills, HasRoomFor};
ghost use Rattle.quad_form.specs.Sums.{AreSummed};

use crate::quad::Quad;
use crate::sums::QuadSums;
use base::{Costed, NoMemory};
use form_steps::{BitsLink, Layer, Lowered};
use std::alloc::Global;
use term_table::{Gather, LowTable, Terms};

/// The layer that multiplies out. It adds no nodes, and states are assignments.
#[derive(Drop)]
pub struct Flatten;

/// Adds terms, one after another.
fn add_terms<T: Gather>(sums: &mut T, terms: Terms<'_>) -> Result<(), NoMemory>
    requires { HasRoomFor T.takes sums.old terms }
    ensures { OnOk result (Fills T.takes T.holds sums.old sums.new terms.entry) }
{
    for (literals, coefficient) in terms {
        sums.gather(literals, coefficient)?;
    }
    Ok(())
}

/// The sums of a table's terms.
fn sums_of(alloc: Global, table: &LowTable) -> Result<QuadSums, NoMemory>
    requires narrow { table.now.content.width < 2 ^ 32 }
    requires total { terms_total table.now.content.terms ≤ 2 ^ 122 }
    ensures summed { IfOk result (AreSummed table.now.content) }

    // What the laws of the layer rest on.
    ensures kept { IsTable table.now.content }
    ensures low { IsLow table.now.content }
{
    let terms = table.terms();
    let mut sums = QuadSums::new(alloc, table.width())?;
    add_terms(&mut sums, terms)?;
    Ok(sums)
}

impl Layer for Flatten {
    type Source = LowTable;

    type Target = Quad;

    type Link = BitsLink;

    ghost use Rattle.std.specs.Prelude.{pos};
    ghost use Rattle.quad_form.specs.Flat.{image, same_bits, IsSound, Fits};
    ghost use Rattle.quad_form.specs.laws.Flattened.{
      flat_sound,
      flat_joins,
      flat_keeps,
      flat_whole_source,
      flat_whole,
    };

    ghost TOTAL_GROWTH = { 2 };

    ghost SIZE_GROWTH = { 1 };

    ghost OFFSET_FACTOR = { 0 };

    ghost image = { λ t. image t.content };

    ghost scale = { λ _. pos 1 };

    ghost offset = { λ _. pos 0 };

    ghost extension = { λ _ x. x };

    ghost decoding = { same_bits };

    ghost is_sound = { IsSound };

    ghost fits = { λ link t. Fits link t.content };

    ghost sound = { λ link t. flat_sound link t.content };

    ghost joins = { λ link t. flat_joins link t.content };

    ghost keeps = { λ link t. flat_keeps link t.content };

    ghost whole_source = { λ t. flat_whole_source t.content };

    ghost whole = { λ t. flat_whole t.content };

    fn lower(&self, alloc: Global, source: &LowTable) -> Result<Lowered<Quad, BitsLink>, NoMemory> {
        let width = source.width();
        let sums = sums_of(alloc, source)?;
        Ok(Lowered {
            target: sums.into_quad()?,
            link: BitsLink {
                source_width: width,
                target_width: width,
            },
            scale: 1,
            offset: 0,
        })
    }

    fn decode(&self, alloc: Global, _link: &BitsLink, y: &[bool]) -> Result<Vec<bool>, NoMemory> {
        Ok(y.to_vec(alloc)?)
    }

    fn extend(
        &self,
        alloc: Global,
        _source: &LowTable,
        _link: &BitsLink,
        x: &[bool],
    ) -> Result<Vec<bool>, NoMemory> {
        Ok(x.to_vec(alloc)?)
    }
}
