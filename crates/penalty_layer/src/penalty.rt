//! The penalty method.
ghost use Rattle.std.specs.Prelude.{◌^◌};
ghost use Rattle.penalty_layer.specs.Penalty.{Admits, Allows, extension, image, figures, Fits};
ghost use Rattle.form_steps.specs.Links.{first_bits, HasFirstBits};
ghost use Rattle.term_table.specs.Tables.{kept_at_once};
ghost use Rattle.penalty_layer.specs.laws.Relaxing.{penalty_relaxes, penalty_stays, penalty_joins, penalty_sound, penalty_whole};

use crate::adding::add_contributions;
use crate::constraints::node_count;
use crate::slack::extended;
use base::{Figures, NoMemory};
use form_steps::{BitsLink, Guard, Guarded};
use problem_form::Problem;
use std::alloc::Global;
use term_table::{GatheredTerms, Table};

/// The first step of every pipeline: hard clauses become soft ones, and constraints squares, of a
/// weight that no gain outweighs, so that a state that breaks one lies above the threshold. A
/// constraint that is not exact adds a node for each of its slack bits, and a state decodes to its
/// first bits.
///
/// The penalty is one more than the sum of the sizes of the objective's coefficients and of the
/// soft weights (Boros and Hammer, Pseudo-Boolean optimization, 2002). Where an assignment may cost no
/// more than a given most, it is no more than what lifts the least cost above that. A part that
/// has a penalty of its own which is less has that.
#[derive(Drop)]
pub struct Penalty;

impl Guard for Penalty {
    type Source = Problem;

    type Target = Table;

    type Link = BitsLink;

    ghost TOTAL_BITS = { 64 };

    ghost SIZE_BITS = { 26 };

    ghost FIGURE_BOUND = { 2 ^ 64 };

    ghost admits = { Admits };

    ghost allows = { Allows };

    ghost image = { λ problem. kept_at_once (image problem) };

    ghost figures = { figures };

    ghost extension = { extension };

    ghost decoding = { first_bits };

    ghost is_sound = { HasFirstBits };

    ghost fits = { λ link problem. Fits link problem };

    ghost sound = { penalty_sound };

    ghost joins = { penalty_joins };

    ghost relaxes = { penalty_relaxes };

    ghost stays = { penalty_stays };

    ghost whole = { penalty_whole };

    fn guard(&self, alloc: Global, source: &Problem) -> Result<Guarded<Table, BitsLink>, NoMemory> {
        let width = node_count(source);
        let mut terms = GatheredTerms::new(alloc, width);
        add_contributions(alloc, &mut terms, source)?;
        Ok(Guarded {
            target: terms.into_table(),
            link: BitsLink {
                source_width: source.variables as usize,
                target_width: width,
            },
            figures: Figures {
                scale: 1,
                offset: 0,
                threshold: source.upper(),
            },
        })
    }

    fn decode(&self, alloc: Global, link: &BitsLink, y: &[bool]) -> Result<Vec<bool>, NoMemory> {
        Ok(y[..link.source_width].to_vec(alloc)?)
    }

    fn extend(
        &self,
        alloc: Global,
        source: &Problem,
        _link: &BitsLink,
        x: &[bool],
    ) -> Result<Vec<bool>, NoMemory> {
        extended(alloc, &source.constraints, x)
    }
}
