//! The layer that replaces pairs of literals, one after another.
//!
//! No run of the program comes here: quadratization replaces pairs in what was gathered.
ghost use Rattle.std.specs.Prelude.{◌≡◌, ◌+◌, ◌*◌, ◌<◌, ◌≤◌, ◌^◌, IfOk, OnOk, fold};
ghost use Rattle.term_table.specs.Terms.{terms_total};
ghost use Rattle.term_table.specs.Tables.{kept_at_once, table_size, IsLow, IsTable};
ghost use Rattle.rosenberg_layer.specs.Rosenberg.{extension, image, with_product};

use crate::gather::gathered;
use crate::pairs::pairs_of;
use crate::run::{excess, run_of};
use base::{Costed, NoMemory};
use form_steps::{BitsLink, Layer, Lowered};
use literal_lists::Literal;
use std::alloc::Global;
use term_table::{LowTable, Table, low};

/// The layer that replaces pairs of literals in terms of degree 3 or more, until none is left.
///
/// A term of degree d is touched at most d - 2 times, so it has at most d - 2 new nodes. A state
/// decodes to its first bits. See Rosenberg, Reduction of bivalent maximization to the quadratic
/// case (1975).
#[derive(Drop)]
pub struct Rosenberg;

/// A table without terms of three literals, as one that is known to have none.
fn known_low(table: Table) -> LowTable
    requires { IsLow table.content }
    ensures { result ≡ table }
{
    match low(table) {
        Ok(table) => table,
        Err(_) => unreachable!(),
    }
}

/// The table at the end of the run.
fn reduced(alloc: Global, table: &Table) -> Result<Table, NoMemory>
    requires size { table_size table.now.content * 2 ^ 2 ≤ 2 ^ 32 }
    requires total { (terms_total table.now.content.terms + 1) * 2 ^ 15 ≤ 2 ^ 124 }
    ensures made { IfOk result (λ quadratic. quadratic ≡ kept_at_once (image table.now.content)) }
    ensures kept { IsTable table.now.content }
{
    let width = table.width();
    let made = run_of(alloc, table, width, excess(table))?;
    gathered(alloc, table, &made, width, width + made.pairs.len())
}

/// Appends the product of a pair.
pub(crate) fn push_product(bits: &mut Vec<bool>, pair: (Literal, Literal)) -> Result<(), NoMemory>
    ensures { OnOk result (bits.new.items ≡ with_product bits.old.items pair) }
{
    let product = pair.0.holds(bits) && pair.1.holds(bits);
    bits.push(product)?;
    Ok(())
}

/// Appends the product of each pair, one after another.
pub fn push_products(bits: &mut Vec<bool>, pairs: &[(Literal, Literal)]) -> Result<(), NoMemory>
    ensures { OnOk result (bits.new.items ≡ fold with_product bits.old.items pairs.now) }
{
    for pair in pairs {
        push_product(bits, *pair)?;
    }
    Ok(())
}

/// An assignment of so many variables, and the bits of all new nodes, up to so many bits in all.
fn extended(
    alloc: Global,
    table: &Table,
    variables: usize,
    bits: usize,
    x: &[bool],
) -> Result<Vec<bool>, NoMemory>
    requires source { variables ≡ table.now.content.width }
    requires target { bits ≡ (image table.now.content).width }
    ensures { IfOk result (λ y. y.items ≡ extension x.now table.now.content) }
{
    let pairs = pairs_of(alloc, table, variables, bits - variables)?;
    let mut y = x.to_vec(alloc)?;
    push_products(&mut y, &pairs)?;
    Ok(y)
}

impl Layer for Rosenberg {
    type Source = Table;

    type Target = LowTable;

    type Link = BitsLink;

    ghost use Rattle.std.specs.Prelude.{pos};
    ghost use Rattle.form_steps.specs.Links.{first_bits, HasFirstBits};
    ghost use Rattle.term_table.specs.Tables.{kept_at_once};
    ghost use Rattle.rosenberg_layer.specs.Rosenberg.{extension, image, Fits};
    ghost use Rattle.rosenberg_layer.specs.laws.Kept.{
      rosen_sound,
      rosen_joins,
      rosen_keeps,
      rosen_whole_source,
      rosen_whole,
    };

    ghost TOTAL_GROWTH = { 15 };

    ghost SIZE_GROWTH = { 2 };

    ghost OFFSET_FACTOR = { 0 };

    ghost image = { λ t. kept_at_once (image t.content) };

    ghost scale = { λ _. pos 1 };

    ghost offset = { λ _. pos 0 };

    ghost extension = { λ t x. extension x t.content };

    ghost decoding = { first_bits };

    ghost is_sound = { HasFirstBits };

    ghost fits = { λ link t. Fits link t.content };

    ghost sound = { λ link t. rosen_sound link t.content };

    ghost joins = { λ link t. rosen_joins link t.content };

    ghost keeps = { λ link t. rosen_keeps link t.content };

    ghost whole_source = { λ t. rosen_whole_source t.content };

    ghost whole = { λ t. rosen_whole t.content };

    fn lower(
        &self,
        alloc: Global,
        source: &Table,
    ) -> Result<Lowered<LowTable, BitsLink>, NoMemory> {
        let target = reduced(alloc, source)?;
        Ok(Lowered {
            link: BitsLink {
                source_width: source.width(),
                target_width: target.width(),
            },
            target: known_low(target),
            scale: 1,
            offset: 0,
        })
    }

    fn decode(&self, alloc: Global, link: &BitsLink, y: &[bool]) -> Result<Vec<bool>, NoMemory> {
        Ok(y[..link.source_width].to_vec(alloc)?)
    }

    fn extend(
        &self,
        alloc: Global,
        source: &Table,
        link: &BitsLink,
        x: &[bool],
    ) -> Result<Vec<bool>, NoMemory> {
        extended(alloc, source, link.source_width, link.target_width, x)
    }
}
