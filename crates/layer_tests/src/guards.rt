//! Guards at all states of small problems: the least energy of the states that decode to an
//! assignment stands for its cost, and the state that it extends to has that energy.
ghost use Rattle.std.specs.Prelude.{◌≡◌, ◌<◌, ◌^◌, length};
ghost use Rattle.base.specs.Costs.{IsOf};

use crate::given::state;
use base::{Cost, Costed, Figures, NoMemory};
use form_steps::{Guard, Guarded};
use problem_form::Problem;
use std::alloc::Global;

/// The number of an assignment, whose bits are its lowest.
fn number_of(x: &[bool]) -> usize {
    let mut number: usize = 0;
    for (i, bit) in x.iter().take(5).enumerate() {
        if *bit {
            number |= 1 << i;
        }
    }
    number
}

/// The least energy of the states that decode to each assignment, by its number.
type Least = [Option<i128>; 32];

fn least_of(least: &Least, number: usize) -> Option<i128> {
    match least.get(number) {
        Some(found) => *found,
        None => None,
    }
}

/// Notes the energy of a state, by the number of the assignment that it decodes to.
fn note(least: &mut Least, number: usize, energy: Cost) {
    let (Some(place), Cost::Whole(energy)) = (least.get_mut(number), energy) else {
        return;
    };
    *place = match *place {
        Some(before) if before <= energy => Some(before),
        _ => Some(energy),
    };
}

/// The number of the assignment that a state decodes to.
fn decoded<G: Guard>(
    alloc: Global,
    guard: &G,
    link: &G::Link,
    y: &[bool],
) -> Result<usize, NoMemory>
    requires sound { G.is_sound link.now }
    requires width { length y.now ≡ (G.decoding link.now).target_width }
{
    let x = guard.decode(alloc, link, y)?;
    Ok(number_of(&x))
}

/// Notes the state of a number.
fn note_number<G: Guard>(
    alloc: Global,
    guard: &G,
    source: &G::Source,
    made: &Guarded<G::Target, G::Link>,
    number: u64,
    least: &mut Least,
) -> Result<(), NoMemory>
    requires fits { G.fits made.now.link source.now }
    requires image { made.now.target ≡ G.image source.now }
    requires narrow { (G.Target.form made.now.target).bits < 2 ^ 32 }
{
    let y = state(alloc, made.target.width(), number)?;
    let place = decoded(alloc, guard, &made.link, &y)?;
    note(least, place, made.target.cost(&y));
    Ok(())
}

/// Notes all states of a form of up to eleven nodes.
fn note_all<G: Guard>(
    alloc: Global,
    guard: &G,
    source: &G::Source,
    made: &Guarded<G::Target, G::Link>,
    least: &mut Least,
) -> Result<(), NoMemory>
    requires fits { G.fits made.now.link source.now }
    requires image { made.now.target ≡ G.image source.now }
    requires narrow { (G.Target.form made.now.target).bits < 2 ^ 32 }
{
    for number in 0..1 << made.target.width().min(11) {
        note_number(alloc, guard, source, made, number, least)?;
    }
    Ok(())
}

/// Whether a least energy is the cost, scaled and moved, and not above the threshold, or lies above it
/// for an infinite one.
fn stands_for(energy: i128, cost: Cost, figures: &Figures) -> bool {
    match cost {
        Cost::Whole(cost) => figures.scale == 1
            && cost.checked_add(figures.offset) == Some(energy)
            && energy <= figures.threshold,
        Cost::Infinite => figures.threshold < energy,
    }
}

/// The energy of the state that an assignment extends to.
fn extended_energy<G: Guard>(
    alloc: Global,
    guard: &G,
    source: &G::Source,
    made: &Guarded<G::Target, G::Link>,
    x: &[bool],
) -> Result<Cost, NoMemory>
    requires fits { G.fits made.now.link source.now }
    requires image { made.now.target ≡ G.image source.now }
    requires narrow { (G.Target.form made.now.target).bits < 2 ^ 32 }
    requires width { IsOf (G.Source.form source.now) x.now }
{
    let y = guard.extend(alloc, source, &made.link, x)?;
    Ok(made.target.cost(&y))
}

/// A cost, where its least energy stands for it, and this is that energy.
fn cost_if_kept(cost: Cost, energy: Cost, least: Option<i128>, figures: &Figures) -> Option<Cost> {
    match (energy, least) {
        (Cost::Whole(energy), Some(least)) => if energy == least
            && stands_for(least, cost, figures)
        {
            Some(cost)
        } else {
            None
        },
        _ => None,
    }
}

/// The cost of the assignment of a number, where its least energy stands for it, and the state that
/// it extends to has that energy.
fn kept_cost<G: Guard>(
    alloc: Global,
    guard: &G,
    source: &G::Source,
    made: &Guarded<G::Target, G::Link>,
    number: u64,
    least: Option<i128>,
) -> Result<Option<Cost>, NoMemory>
    requires fits { G.fits made.now.link source.now }
    requires image { made.now.target ≡ G.image source.now }
    requires narrow { (G.Target.form made.now.target).bits < 2 ^ 32 }
    requires narrow_source { (G.Source.form source.now).bits < 2 ^ 32 }
{
    let x = state(alloc, source.width(), number)?;
    let energy = extended_energy(alloc, guard, source, made, &x)?;
    Ok(cost_if_kept(source.cost(&x), energy, least, &made.figures))
}

/// How many assignments are kept: those whose cost is whole, and those whose cost is infinite.
#[derive(Clone, Copy, Debug, PartialEq, Eq)]
pub struct Kept {
    pub whole: u64,
    pub infinite: u64,
}

impl Kept {
    pub const NONE: Kept = Kept {
        whole: 0,
        infinite: 0,
    };

    fn add(&mut self, cost: Option<Cost>) {
        match cost {
            Some(Cost::Whole(_)) => self.whole = self.whole.saturating_add(1),
            Some(Cost::Infinite) => self.infinite = self.infinite.saturating_add(1),
            None => {}
        }
    }

    /// How many there are.
    pub fn all(self) -> u64 {
        self.whole.saturating_add(self.infinite)
    }
}

/// Counts the assignments that are kept.
fn count_kept<G: Guard>(
    alloc: Global,
    guard: &G,
    source: &G::Source,
    made: &Guarded<G::Target, G::Link>,
    least: &Least,
) -> Result<Kept, NoMemory>
    requires fits { G.fits made.now.link source.now }
    requires image { made.now.target ≡ G.image source.now }
    requires narrow { (G.Target.form made.now.target).bits < 2 ^ 32 }
    requires narrow_source { (G.Source.form source.now).bits < 2 ^ 32 }
{
    let mut kept = Kept::NONE;
    for number in 0..1_usize << source.width().min(5) {
        kept.add(kept_cost(
            alloc,
            guard,
            source,
            made,
            number as u64,
            least_of(least, number),
        )?);
    }
    Ok(kept)
}

/// How many assignments of a source of up to five variables are kept by what a guard makes of it.
pub fn kept_by<G: Guard>(
    alloc: Global,
    guard: &G,
    source: &G::Source,
    made: &Guarded<G::Target, G::Link>,
) -> Result<Kept, NoMemory>
    requires fits { G.fits made.now.link source.now }
    requires image { made.now.target ≡ G.image source.now }
    requires narrow { (G.Target.form made.now.target).bits < 2 ^ 32 }
    requires narrow_source { (G.Source.form source.now).bits < 2 ^ 32 }
{
    if source.width() > 5 || made.target.width() > 11 {
        return Ok(Kept::NONE);
    }
    let mut least: Least = [None; 32];
    note_all(alloc, guard, source, made, &mut least)?;
    count_kept(alloc, guard, source, made, &least)
}
