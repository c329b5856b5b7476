//! Layers at all states of small forms: none lies below the assignment that it decodes to, scaled and
//! moved, and each assignment is reached by its extension.
ghost use Rattle.std.specs.Prelude.{◌≡◌, ◌<◌, ◌^◌, length};
ghost use Rattle.base.specs.Costs.{IsOf};

use crate::given::state;
use base::{Cost, Costed, NoMemory};
use form_steps::{Layer, Lowered};
use std::alloc::Global;

fn whole(cost: Cost) -> Option<i128> {
    match cost {
        Cost::Whole(cost) => Some(cost),
        Cost::Infinite => None,
    }
}

/// A cost, scaled and moved.
fn moved(cost: Cost, scale: i128, offset: i128) -> Option<i128> {
    whole(cost)?.checked_mul(scale)?.checked_add(offset)
}

/// What a state decodes to costs, scaled and moved.
fn decoded_cost<L: Layer>(
    alloc: Global,
    layer: &L,
    source: &L::Source,
    made: &Lowered<L::Target, L::Link>,
    y: &[bool],
) -> Result<Option<i128>, NoMemory>
    requires fits { L.fits made.now.link source.now }
    requires narrow { (L.Source.form source.now).bits < 2 ^ 32 }
    requires width { length y.now ≡ (L.decoding made.now.link).target_width }
{
    let x = layer.decode(alloc, &made.link, y)?;
    Ok(moved(source.cost(&x), made.scale, made.offset))
}

/// Whether the state of a number lies no lower than the assignment that it decodes to.
fn is_no_lower<L: Layer>(
    alloc: Global,
    layer: &L,
    source: &L::Source,
    made: &Lowered<L::Target, L::Link>,
    number: u64,
) -> Result<bool, NoMemory>
    requires fits { L.fits made.now.link source.now }
    requires image { made.now.target ≡ L.image source.now }
    requires narrow { (L.Target.form made.now.target).bits < 2 ^ 32 }
    requires narrow_source { (L.Source.form source.now).bits < 2 ^ 32 }
{
    let y = state(alloc, made.target.width(), number)?;
    let cost = decoded_cost(alloc, layer, source, made, &y)?;
    Ok(cost.is_some() && cost <= whole(made.target.cost(&y)))
}

/// Whether a state decodes to an assignment, and has its cost, scaled and moved.
fn reaches<L: Layer>(
    alloc: Global,
    layer: &L,
    made: &Lowered<L::Target, L::Link>,
    y: &[bool],
    x: &[bool],
    cost: Option<i128>,
) -> Result<bool, NoMemory>
    requires sound { L.is_sound made.now.link }
    requires width { length y.now ≡ (L.decoding made.now.link).target_width }
    requires own { IsOf (L.Target.form made.now.target) y.now }
    requires narrow { (L.Target.form made.now.target).bits < 2 ^ 32 }
{
    let again = layer.decode(alloc, &made.link, y)?;
    Ok(again.as_slice() == x && cost.is_some() && cost == whole(made.target.cost(y)))
}

/// Whether an assignment is reached by its extension.
fn extends<L: Layer>(
    alloc: Global,
    layer: &L,
    source: &L::Source,
    made: &Lowered<L::Target, L::Link>,
    x: &[bool],
) -> Result<bool, NoMemory>
    requires fits { L.fits made.now.link source.now }
    requires image { made.now.target ≡ L.image source.now }
    requires width { IsOf (L.Source.form source.now) x.now }
    requires narrow { (L.Target.form made.now.target).bits < 2 ^ 32 }
    requires narrow_source { (L.Source.form source.now).bits < 2 ^ 32 }
{
    let y = layer.extend(alloc, source, &made.link, x)?;
    let cost = moved(source.cost(x), made.scale, made.offset);
    reaches(alloc, layer, made, &y, x, cost)
}

/// Whether the assignment of a number is.
fn is_reached<L: Layer>(
    alloc: Global,
    layer: &L,
    source: &L::Source,
    made: &Lowered<L::Target, L::Link>,
    number: u64,
) -> Result<bool, NoMemory>
    requires fits { L.fits made.now.link source.now }
    requires image { made.now.target ≡ L.image source.now }
    requires narrow { (L.Target.form made.now.target).bits < 2 ^ 32 }
    requires narrow_source { (L.Source.form source.now).bits < 2 ^ 32 }
{
    let x = state(alloc, source.width(), number)?;
    extends(alloc, layer, source, made, &x)
}

/// Whether each assignment is.
fn are_reached<L: Layer>(
    alloc: Global,
    layer: &L,
    source: &L::Source,
    made: &Lowered<L::Target, L::Link>,
) -> Result<bool, NoMemory>
    requires fits { L.fits made.now.link source.now }
    requires image { made.now.target ≡ L.image source.now }
    requires narrow { (L.Target.form made.now.target).bits < 2 ^ 32 }
    requires narrow_source { (L.Source.form source.now).bits < 2 ^ 32 }
{
    for number in 0..1 << source.width().min(6) {
        if !is_reached(alloc, layer, source, made, number)? {
            return Ok(false);
        }
    }
    Ok(source.width() <= 6)
}

/// Whether what a layer makes of a source of up to six variables keeps its costs.
pub fn keeps_costs<L: Layer>(
    alloc: Global,
    layer: &L,
    source: &L::Source,
    made: &Lowered<L::Target, L::Link>,
) -> Result<bool, NoMemory>
    requires fits { L.fits made.now.link source.now }
    requires image { made.now.target ≡ L.image source.now }
    requires narrow { (L.Target.form made.now.target).bits < 2 ^ 32 }
    requires narrow_source { (L.Source.form source.now).bits < 2 ^ 32 }
{
    for number in 0..1 << made.target.width().min(15) {
        if !is_no_lower(alloc, layer, source, made, number)? {
            return Ok(false);
        }
    }
    Ok(made.target.width() <= 15 && are_reached(alloc, layer, source, made)?)
}
