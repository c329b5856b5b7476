//! The layer that replaces each term of degree 3 or more by itself.
//!
//! No run of the program comes here: quadratization makes the same form at once.
ghost use Rattle.std.specs.Prelude.{◌≡◌, ◌++◌, IfOk};
ghost use Rattle.std.specs.List.{flat_map};
ghost use Rattle.term_table.specs.Tables.{IsLow};
ghost use Rattle.monomial_layer.specs.Monomials.{extension};

use crate::bits::push_bits;
use crate::replace::quadratic_table;
use base::{Costed, NoMemory};
use form_steps::{BitsLink, Layer, Lowered};
use std::alloc::Global;
use term_table::{LowTable, Table, low};

/// The layer that replaces terms of degree 3 or more, each by itself and over literals.
///
/// A term of degree d has one new node where its coefficient is negative, and floor((d - 1) / 2)
/// where it is positive, so at most d - 2. A state decodes to its first bits.
#[derive(Drop)]
pub struct Monomials;

/// A table without terms of three literals, as one that is known to have none.
fn known_low(table: Table) -> LowTable
    requires { IsLow table.content }
    ensures { result ≡ table }
{
    match low(table) {
        Ok(table) => table,
        Err(_) => unreachable!(),
    }
}

/// An assignment, and the bits of all new nodes.
fn extension_of(alloc: Global, table: &Table, x: &[bool]) -> Result<Vec<bool>, NoMemory>
    ensures { IfOk result (λ y. y.items ≡ extension x.now table.now.content.terms) }
{
    let mut bits = x.to_vec(alloc)?;
    for (literals, coefficient) in table.terms() {
        push_bits(&mut bits, x, literals, coefficient)?;
    }
    Ok(bits)
}

impl Layer for Monomials {
    type Source = Table;

    type Target = LowTable;

    type Link = BitsLink;

    ghost use Rattle.std.specs.Prelude.{pos};
    ghost use Rattle.form_steps.specs.Links.{first_bits, HasFirstBits};
    ghost use Rattle.term_table.specs.Tables.{kept_at_once};
    ghost use Rattle.monomial_layer.specs.Monomials.{image, extension, Fits};
    ghost use Rattle.monomial_layer.specs.laws.Kept.{
      mono_sound,
      mono_joins,
      mono_keeps,
      mono_whole_source,
      mono_whole,
    };

    ghost TOTAL_GROWTH = { 24 };

    ghost SIZE_GROWTH = { 2 };

    ghost OFFSET_FACTOR = { 0 };

    ghost image = { λ t. kept_at_once (image t.content) };

    ghost scale = { λ _. pos 1 };

    ghost offset = { λ _. pos 0 };

    ghost extension = { λ t x. extension x t.content.terms };

    ghost decoding = { first_bits };

    ghost is_sound = { HasFirstBits };

    ghost fits = { λ link t. Fits link t.content };

    ghost sound = { λ link t. mono_sound link t.content };

    ghost joins = { λ link t. mono_joins link t.content };

    ghost keeps = { λ link t. mono_keeps link t.content };

    ghost whole_source = { λ t. mono_whole_source t.content };

    ghost whole = { λ t. mono_whole t.content };

    fn lower(
        &self,
        alloc: Global,
        source: &Table,
    ) -> Result<Lowered<LowTable, BitsLink>, NoMemory> {
        let target = quadratic_table(alloc, source)?;
        Ok(Lowered {
            link: BitsLink {
                source_width: source.width(),
                target_width: target.width(),
            },
            target: known_low(target),
            scale: 1,
            offset: 0,
        })
    }

    fn decode(&self, alloc: Global, link: &BitsLink, y: &[bool]) -> Result<Vec<bool>, NoMemory> {
        Ok(y[..link.source_width].to_vec(alloc)?)
    }

    fn extend(
        &self,
        alloc: Global,
        source: &Table,
        _link: &BitsLink,
        x: &[bool],
    ) -> Result<Vec<bool>, NoMemory> {
        extension_of(alloc, source, x)
    }
}
