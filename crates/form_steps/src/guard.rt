//! Guards: first steps, whose sources may have infinite costs.
ghost use Rattle.std.specs.Prelude.{◌≡◌, ◌≤◌, ◌+◌, ◌*◌, ◌^◌, ℕ, Bool, List, length, IfOk, pos, ◌≤ℤ◌, unsigned_abs};
ghost use Rattle.base.specs.declared.costs.Figures.{Figures};
ghost use Rattle.form_steps.specs.declared.scope.PenaltyScope.{PenaltyScope};
ghost use Rattle.base.specs.Costs.{IsOf, IsNeverInfinite};
ghost use Rattle.form_steps.specs.Relations.{Decoding, RelaxesBy, RelaxesIn, StaysAbove, ExtendsLeast, Joins};

use base::{Costed, Figures, NoMemory};
use std::alloc::Global;

/// What a guard makes of a source.
#[derive(Drop)]
pub struct Guarded<T, L> {
    pub target: T,
    pub link: L,
    pub figures: Figures,
}

/// A step from a source whose costs may be infinite to a form whose costs are not: what decodes to
/// an infinite cost lies above the threshold or, where parts have penalties of their own, above some
/// whole cost, and all else stands as at a layer.
pub trait Guard {
    type Source: Costed;

    type Target: Costed + Drop;

    type Link: Drop;

    /// An image's total and one are at most two to this power.
    ghost TOTAL_BITS: { ℕ };

    /// An image's size is at most two to this power.
    ghost SIZE_BITS: { ℕ };

    /// No figure is greater in size.
    ghost FIGURE_BOUND: { ℕ };

    /// A source that the guard takes.
    ghost admits: { Self.Source → Type 0 };

    /// The scopes that a source's penalties allow.
    ghost allows: { PenaltyScope → Self.Source → Type 0 };

    /// What the guard makes of each source.
    ghost image: { Self.Source → Self.Target };

    ghost figures: { Self.Source → Figures };

    /// The state that each assignment extends to.
    ghost extension: { Self.Source → List Bool → List Bool };

    /// How states are decoded by each link.
    ghost decoding: { Self.Link → Decoding };

    /// A link that can be decoded by.
    ghost is_sound: { Self.Link → Type 0 };

    /// A link between this source and its image.
    ghost fits: { Self.Link → Self.Source → Type 0 };

    /// Makes the image of a source.
    fn guard(
        &self,
        alloc: Global,
        source: &Self::Source,
    ) -> Result<Guarded<Self::Target, Self::Link>, NoMemory>
        requires { admits source.now }
        ensures image { IfOk result (λ made. made.target ≡ image source.now) }
        ensures fits { IfOk result (λ made. fits made.link source.now) }
        ensures figures { IfOk result (λ made. made.figures ≡ figures source.now) }

        ensures relaxes { IfOk result (λ made. RelaxesIn (λ scope. allows scope source.now)
            (Self.Source.form source.now) (Self.Target.form made.target)
            (decoding made.link) (pos 1) made.figures) }
        ensures stays { IfOk result (λ made. StaysAbove (Self.Source.form source.now)
            (Self.Target.form made.target) (decoding made.link) (pos 1) made.figures) }

        // What the next step's sums rest on.
        ensures scale_low { IfOk result (λ made. pos 1 ≤ℤ made.figures.scale) }
        ensures scale_high { IfOk result (λ made. unsigned_abs made.figures.scale ≤ FIGURE_BOUND) }
        ensures offset_high { IfOk result (λ made.
            unsigned_abs made.figures.offset ≤ FIGURE_BOUND) }
        ensures threshold_high { IfOk result (λ made.
            unsigned_abs made.figures.threshold ≤ FIGURE_BOUND) }
        ensures total { IfOk result (λ made. Self.Target.total made.target + 1 ≤ 2 ^ TOTAL_BITS) }
        ensures size { IfOk result (λ made. Self.Target.size made.target ≤ 2 ^ SIZE_BITS) };

    /// The assignment that a state decodes to.
    fn decode(&self, alloc: Global, link: &Self::Link, y: &[bool]) -> Result<Vec<bool>, NoMemory>
        requires sound { is_sound link.now }
        requires width { length y.now ≡ (decoding link.now).target_width }
        ensures decoded { IfOk result (λ x. x.items ≡ (decoding link.now).decoded y.now) }
        ensures width { IfOk result (λ x. length x.items ≡ (decoding link.now).source_width) };

    /// The state that an assignment extends to. It decodes to the assignment, and has the least
    /// energy among those that do.
    fn extend(
        &self,
        alloc: Global,
        source: &Self::Source,
        link: &Self::Link,
        x: &[bool],
    ) -> Result<Vec<bool>, NoMemory>
        requires fits { fits link.now source.now }
        requires width { IsOf (Self.Source.form source.now) x.now }
        ensures extension { IfOk result (λ y. y.items ≡ extension source.now x.now) }
        ensures least { IfOk result (λ y. ExtendsLeast (Self.Source.form source.now)
            (Self.Target.form (image source.now)) (decoding link.now)
            (figures source.now) x.now y.items) };

    /// A link that fits a source is sound.
    ghost sound: { (link : Self.Link) (source : Self.Source) → fits link source → is_sound link };

    /// It has the widths of the source and of its image.
    ghost joins: { (link : Self.Link) (source : Self.Source) → fits link source
        → Joins (Self.Source.form source) (Self.Target.form (image source)) (decoding link) };

    /// The image relaxes the source, in each scope that the source's penalties allow.
    ghost relaxes: { (link : Self.Link) (source : Self.Source) → fits link source
        → (scope : PenaltyScope) → allows scope source
        → RelaxesBy scope (Self.Source.form source) (Self.Target.form (image source))
        (decoding link) (pos 1) (figures source) };

    /// No state of the image lies below the whole cost that it decodes to.
    ghost stays: { (link : Self.Link) (source : Self.Source) → fits link source
        → StaysAbove (Self.Source.form source) (Self.Target.form (image source)) (decoding link)
        (pos 1) (figures source) };

    /// An image's costs are whole.
    ghost whole: { (source : Self.Source) → IsNeverInfinite (Self.Target.form (image source)) };
}
