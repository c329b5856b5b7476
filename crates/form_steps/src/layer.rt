//! Layers: steps from one form to another whose costs are never infinite.
ghost use Rattle.std.specs.Prelude.{◌≡◌, ◌≤◌, ◌+◌, ◌*◌, ◌^◌, ℕ, ℤ, Bool, List, length, IfOk, pos, ◌≤ℤ◌, unsigned_abs};
ghost use Rattle.base.specs.Costs.{IsOf, IsNeverInfinite};
ghost use Rattle.form_steps.specs.Relations.{Decoding, Keeps, Extends, Joins};

use base::{Costed, NoMemory};
use std::alloc::Global;

/// What a layer makes of a form.
#[derive(Drop)]
pub struct Lowered<T, L> {
    pub target: T,
    pub link: L,
    pub scale: i128,
    pub offset: i128,
}

/// What a form becomes when its weights are divided by a unit. The constant is taken off: unit
/// times an energy of the target is that of the source, and `offset` more.
#[derive(Drop)]
pub struct Reduced<T> {
    pub target: T,
    pub unit: i128,
    pub offset: i128,
}

/// The link of a layer that keeps the first bits, or all of them: the widths of the source and of
/// its image.
#[derive(Clone, Copy, Debug, PartialEq, Eq)]
pub struct BitsLink {
    pub source_width: usize,
    pub target_width: usize,
}

/// A step from a form to one whose states decode to assignments: no state costs less than what it
/// decodes to, scaled and moved, and each assignment is reached with equality.
pub trait Layer {
    type Source: Costed;

    type Target: Costed + Drop;

    type Link: Drop;

    /// The total and one grow at most by two to this power.
    ghost TOTAL_GROWTH: { ℕ };

    /// The size grows at most by two to this power.
    ghost SIZE_GROWTH: { ℕ };

    /// The offset is at most this many times the total and one.
    ghost OFFSET_FACTOR: { ℕ };

    /// What the layer makes of each source.
    ghost image: { Self.Source → Self.Target };

    ghost scale: { Self.Source → ℤ };

    ghost offset: { Self.Source → ℤ };

    /// The state that each assignment extends to.
    ghost extension: { Self.Source → List Bool → List Bool };

    /// How states are decoded by each link.
    ghost decoding: { Self.Link → Decoding };

    /// A link that can be decoded by.
    ghost is_sound: { Self.Link → Type 0 };

    /// A link between this source and its image.
    ghost fits: { Self.Link → Self.Source → Type 0 };

    /// Makes the image of a source.
    fn lower(
        &self,
        alloc: Global,
        source: &Self::Source,
    ) -> Result<Lowered<Self::Target, Self::Link>, NoMemory>
        requires total { (Self.Source.total source.now + 1) * 2 ^ TOTAL_GROWTH ≤ 2 ^ 124 }
        requires offset { (Self.Source.total source.now + 1) * OFFSET_FACTOR ≤ 2 ^ 125 }
        requires size { Self.Source.size source.now * 2 ^ SIZE_GROWTH ≤ 2 ^ 32 }
        ensures image { IfOk result (λ made. made.target ≡ image source.now) }
        ensures fits { IfOk result (λ made. fits made.link source.now) }
        ensures scale { IfOk result (λ made. made.scale ≡ scale source.now) }
        ensures offset { IfOk result (λ made. made.offset ≡ offset source.now) }

        ensures keeps { IfOk result (λ made. Keeps (Self.Source.form source.now)
            (Self.Target.form made.target) (decoding made.link) made.scale made.offset) }

        // What the next step's sums rest on.
        ensures scale_low { IfOk result (λ made. pos 1 ≤ℤ made.scale) }
        ensures scale_high { IfOk result (λ made. made.scale ≤ℤ pos (2 ^ TOTAL_GROWTH)) }
        ensures offset_high { IfOk result (λ made.
            unsigned_abs made.offset ≤ (Self.Source.total source.now + 1) * OFFSET_FACTOR) }
        ensures total { IfOk result (λ made. Self.Target.total made.target + 1
            ≤ (Self.Source.total source.now + 1) * 2 ^ TOTAL_GROWTH) }
        ensures size { IfOk result (λ made. Self.Target.size made.target
            ≤ Self.Source.size source.now * 2 ^ SIZE_GROWTH) };

    /// The assignment that a state decodes to.
    fn decode(&self, alloc: Global, link: &Self::Link, y: &[bool]) -> Result<Vec<bool>, NoMemory>
        requires sound { is_sound link.now }
        requires width { length y.now ≡ (decoding link.now).target_width }
        ensures decoded { IfOk result (λ x. x.items ≡ (decoding link.now).decoded y.now) }
        ensures width { IfOk result (λ x. length x.items ≡ (decoding link.now).source_width) };

    /// The state that an assignment extends to. It decodes to the assignment and reaches its cost.
    fn extend(
        &self,
        alloc: Global,
        form: &Self::Source,
        link: &Self::Link,
        x: &[bool],
    ) -> Result<Vec<bool>, NoMemory>
        requires fits { fits link.now form.now }
        requires width { IsOf (Self.Source.form form.now) x.now }
        ensures extension { IfOk result (λ y. y.items ≡ extension form.now x.now) }
        ensures reaches { IfOk result (λ y. Extends (Self.Source.form form.now)
            (Self.Target.form (image form.now)) (decoding link.now)
            (scale form.now) (offset form.now) x.now y.items) };

    /// A link that fits a source is sound.
    ghost sound: { (link : Self.Link) (source : Self.Source) → fits link source → is_sound link };

    /// It has the widths of the source and of its image.
    ghost joins: { (link : Self.Link) (source : Self.Source) → fits link source
        → Joins (Self.Source.form source) (Self.Target.form (image source)) (decoding link) };

    /// The image keeps the costs of the source.
    ghost keeps: { (link : Self.Link) (source : Self.Source) → fits link source
        → Keeps (Self.Source.form source) (Self.Target.form (image source)) (decoding link)
        (scale source) (offset source) };

    /// A source's costs are whole.
    ghost whole_source: { (source : Self.Source) → IsNeverInfinite (Self.Source.form source) };

    /// An image's costs are whole.
    ghost whole: { (source : Self.Source) → IsNeverInfinite (Self.Target.form (image source)) };
}
