//! One step after another: a layer after a layer, and a layer after a guard.
//!
//! No run of the program comes here: it calls its steps in a row.
ghost use Rattle.std.specs.Prelude.{◌≡◌, ℕ, ℤ, ◌+ℤ◌, ◌*ℤ◌, FitsSigned};
ghost use Rattle.std.specs.Int.{w128};
ghost use Rattle.base.specs.Figures.{figures_after};

use crate::guard::{Guard, Guarded};
use crate::layer::{Layer, Lowered};
use base::{Costed, Figures, NoMemory};
use std::alloc::Global;

/// The first step, and then the second.
#[derive(Drop)]
pub struct Then<A, B> {
    pub first: A,
    pub second: B,
}

/// The links of both steps, and the form between.
#[derive(Drop)]
pub struct ThenLink<L, T, M> {
    pub first: L,
    pub middle: T,
    pub second: M,
}

/// The scale of two steps.
fn scale_of_both<T, L, U, M>(first: &Lowered<T, L>, second: &Lowered<U, M>) -> i128
    requires { FitsSigned w128 (first.now.scale *ℤ second.now.scale) }
    ensures { result ≡ first.now.scale *ℤ second.now.scale }
{
    first.scale * second.scale
}

/// The offset of two steps.
fn offset_of_both<T, L, U, M>(first: &Lowered<T, L>, second: &Lowered<U, M>) -> i128
    requires product { FitsSigned w128 (second.now.scale *ℤ first.now.offset) }
    requires sum { FitsSigned w128 (second.now.scale *ℤ first.now.offset +ℤ second.now.offset) }
    ensures { result ≡ second.now.scale *ℤ first.now.offset +ℤ second.now.offset }
{
    second.scale * first.offset + second.offset
}

impl<A: Layer, B: Layer<Source = A::Target>> Layer for Then<A, B> {
    type Source = A::Source;

    type Target = B::Target;

    type Link = ThenLink<A::Link, A::Target, B::Link>;

    ghost use Rattle.std.specs.Prelude.{◌≡◌, ◌+◌, ◌*◌, ◌^◌, ◌+ℤ◌, ◌*ℤ◌};
    ghost use Rattle.form_steps.specs.laws.Composed.{keeps_after_keeps, joins_both, widths_meet};
    ghost use Rattle.form_steps.specs.Relations.{decoding_after};
    ghost use Rattle.std.proofs.Common.{subst};

    ghost TOTAL_GROWTH = { A.TOTAL_GROWTH + B.TOTAL_GROWTH };

    ghost SIZE_GROWTH = { A.SIZE_GROWTH + B.SIZE_GROWTH };

    ghost OFFSET_FACTOR = { 2 ^ B.TOTAL_GROWTH * A.OFFSET_FACTOR
        + 2 ^ A.TOTAL_GROWTH * B.OFFSET_FACTOR };

    ghost image = { λ s. B.image (A.image s) };

    ghost scale = { λ s. A.scale s *ℤ B.scale (A.image s) };

    ghost offset = { λ s. B.scale (A.image s) *ℤ A.offset s +ℤ B.offset (A.image s) };

    ghost extension = { λ s x. B.extension (A.image s) (A.extension s x) };

    ghost decoding = { λ l. decoding_after (A.decoding l.first) (B.decoding l.second) };

    ghost is_sound = { λ l. A.is_sound l.first × B.is_sound l.second
        × ((A.decoding l.first).target_width ≡ (B.decoding l.second).source_width) };

    ghost fits = { λ l s. A.fits l.first s × (l.middle ≡ A.image s) × B.fits l.second l.middle };

    ghost sound = { λ l s f.
        let k = subst (λ m. B.fits l.second m) f.1 f.2 in (
          A.sound l.first s f.0,
          B.sound l.second (A.image s) k,
          widths_meet (A.joins l.first s f.0) (B.joins l.second (A.image s) k),
        ) };

    ghost joins = { λ l s f.
        joins_both (A.joins l.first s f.0)
        (B.joins l.second (A.image s) (subst (λ m. B.fits l.second m) f.1 f.2)) };

    ghost keeps = { λ l s f.
        keeps_after_keeps (A.keeps l.first s f.0)
        (B.keeps l.second (A.image s) (subst (λ m. B.fits l.second m) f.1 f.2)) };

    ghost whole_source = { λ s. A.whole_source s };

    ghost whole = { λ s. B.whole (A.image s) };

    fn lower(
        &self,
        alloc: Global,
        source: &A::Source,
    ) -> Result<Lowered<B::Target, ThenLink<A::Link, A::Target, B::Link>>, NoMemory> {
        let first = self.first.lower(alloc, source)?;
        let second = self.second.lower(alloc, &first.target)?;
        let scale = scale_of_both(&first, &second);
        let offset = offset_of_both(&first, &second);
        Ok(Lowered {
            target: second.target,
            link: ThenLink {
                first: first.link,
                middle: first.target,
                second: second.link,
            },
            scale,
            offset,
        })
    }

    fn decode(
        &self,
        alloc: Global,
        link: &ThenLink<A::Link, A::Target, B::Link>,
        y: &[bool],
    ) -> Result<Vec<bool>, NoMemory> {
        let middle = self.second.decode(alloc, &link.second, y)?;
        self.first.decode(alloc, &link.first, &middle)
    }

    fn extend(
        &self,
        alloc: Global,
        source: &A::Source,
        link: &ThenLink<A::Link, A::Target, B::Link>,
        x: &[bool],
    ) -> Result<Vec<bool>, NoMemory> {
        let middle = self.first.extend(alloc, source, &link.first, x)?;
        self.second
            .extend(alloc, &link.middle, &link.second, &middle)
    }
}

/// The figures of a guard and a layer.
fn figures_of_both<T, L, U, M>(first: &Guarded<T, L>, second: &Lowered<U, M>) -> Figures
    requires scale { FitsSigned w128 (first.now.figures.scale *ℤ second.now.scale) }
    requires product { FitsSigned w128 (second.now.scale *ℤ first.now.figures.offset) }
    requires sum { FitsSigned w128
        (second.now.scale *ℤ first.now.figures.offset +ℤ second.now.offset) }
    requires product_2 { FitsSigned w128 (second.now.scale *ℤ first.now.figures.threshold) }
    requires sum_2 { FitsSigned w128
        (second.now.scale *ℤ first.now.figures.threshold +ℤ second.now.offset) }
    ensures { result ≡ figures_after first.now.figures second.now.scale second.now.offset }
{
    first.figures.after(second.scale, second.offset)
}

impl<A: Guard, B: Layer<Source = A::Target>> Guard for Then<A, B> {
    type Source = A::Source;

    type Target = B::Target;

    type Link = ThenLink<A::Link, A::Target, B::Link>;

    ghost use Rattle.std.specs.Prelude.{◌≡◌, ◌+◌, ◌*◌, ◌^◌, ◌≤◌};
    ghost use Rattle.form_steps.specs.laws.Composed.{joins_both, widths_meet};
    ghost use Rattle.form_steps.specs.laws.AtLeast.{keeps_after_by, keeps_stays_above};
    ghost use Rattle.form_steps.specs.Relations.{decoding_after};
    ghost use Rattle.base.specs.Figures.{figures_after};
    ghost use Rattle.std.proofs.Common.{subst};

    ghost TOTAL_BITS = { A.TOTAL_BITS + B.TOTAL_GROWTH };

    ghost SIZE_BITS = { A.SIZE_BITS + B.SIZE_GROWTH };

    ghost FIGURE_BOUND = { 2 ^ B.TOTAL_GROWTH * A.FIGURE_BOUND
        + 2 ^ A.TOTAL_BITS * B.OFFSET_FACTOR };

    ghost admits = { λ s. A.admits s
        × (A.TOTAL_BITS + B.TOTAL_GROWTH ≤ 124)
        × (A.SIZE_BITS + B.SIZE_GROWTH ≤ 32)
        × (2 ^ B.TOTAL_GROWTH * A.FIGURE_BOUND + 2 ^ A.TOTAL_BITS * B.OFFSET_FACTOR ≤ 2 ^ 125) };

    ghost allows = { A.allows };

    ghost image = { λ s. B.image (A.image s) };

    ghost figures = { λ s.
        figures_after (A.figures s) (B.scale (A.image s)) (B.offset (A.image s)) };

    ghost extension = { λ s x. B.extension (A.image s) (A.extension s x) };

    ghost decoding = { λ l. decoding_after (A.decoding l.first) (B.decoding l.second) };

    ghost is_sound = { λ l. A.is_sound l.first × B.is_sound l.second
        × ((A.decoding l.first).target_width ≡ (B.decoding l.second).source_width) };

    ghost fits = { λ l s. A.fits l.first s × (l.middle ≡ A.image s) × B.fits l.second l.middle };

    ghost sound = { λ l s f.
        let k = subst (λ m. B.fits l.second m) f.1 f.2 in (
          A.sound l.first s f.0,
          B.sound l.second (A.image s) k,
          widths_meet (A.joins l.first s f.0) (B.joins l.second (A.image s) k),
        ) };

    ghost joins = { λ l s f.
        joins_both (A.joins l.first s f.0)
        (B.joins l.second (A.image s) (subst (λ m. B.fits l.second m) f.1 f.2)) };

    ghost relaxes = { λ l s f scope allowed.
        keeps_after_by scope _ _ _ _ _ _ _ _ (A.relaxes l.first s f.0 scope allowed)
        (B.keeps l.second (A.image s) (subst (λ m. B.fits l.second m) f.1 f.2)) };

    ghost stays = { λ l s f.
        keeps_stays_above (A.stays l.first s f.0)
        (B.keeps l.second (A.image s) (subst (λ m. B.fits l.second m) f.1 f.2)) };

    ghost whole = { λ s. B.whole (A.image s) };

    fn guard(
        &self,
        alloc: Global,
        source: &A::Source,
    ) -> Result<Guarded<B::Target, ThenLink<A::Link, A::Target, B::Link>>, NoMemory> {
        let first = self.first.guard(alloc, source)?;
        let second = self.second.lower(alloc, &first.target)?;
        let figures = figures_of_both(&first, &second);
        Ok(Guarded {
            target: second.target,
            link: ThenLink {
                first: first.link,
                middle: first.target,
                second: second.link,
            },
            figures,
        })
    }

    fn decode(
        &self,
        alloc: Global,
        link: &ThenLink<A::Link, A::Target, B::Link>,
        y: &[bool],
    ) -> Result<Vec<bool>, NoMemory> {
        let middle = self.second.decode(alloc, &link.second, y)?;
        self.first.decode(alloc, &link.first, &middle)
    }

    fn extend(
        &self,
        alloc: Global,
        source: &A::Source,
        link: &ThenLink<A::Link, A::Target, B::Link>,
        x: &[bool],
    ) -> Result<Vec<bool>, NoMemory> {
        let middle = self.first.extend(alloc, source, &link.first, x)?;
        self.second
            .extend(alloc, &link.middle, &link.second, &middle)
    }
}
