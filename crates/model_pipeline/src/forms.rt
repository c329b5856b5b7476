//! The quadratic form of a problem, by the steps that a command chooses.
ghost use Rattle.std.specs.Prelude.{◌≡◌, Bool, List, None, IfOk};
ghost use Rattle.problem_form.specs.Limits.{limit_fault};
ghost use Rattle.problem_form.specs.Problems.{IsNormal};
ghost use Rattle.term_table.specs.Tables.{TableContent};
ghost use Rattle.normal_form.specs.Multilinear as multilinear;
ghost use Rattle.penalty_layer.specs.Penalty.{figures};
ghost use Rattle.quad_form.specs.Flat as flat;
ghost use Rattle.quadratization.specs.Direct.{additions_of};
ghost use Rattle.quadratization.specs.Held.{AreHeld};
ghost use Rattle.quadratization.specs.NewNodes.{with_new_bits};
ghost use Rattle.model_pipeline.specs.Models.{low_terms_of, quad_of, terms_of};
ghost use Rattle.model_pipeline.specs.Extensions.{low_extension};
ghost use Rattle.model_pipeline.specs.Formed.{AreHeldFor, IsQuadratized};
ghost use Rattle.model_pipeline.specs.Kept.{AreKept};

use crate::held::Held;
use crate::made::FormSteps;
use crate::scaled::Scaled;
use base::{Figures, NoMemory};
use normal_form::PlainTerms;
use penalty_layer::{add_contributions, node_count};
use problem_form::{Choices, High, Normal, Problem};
use quad_form::Quad;
use quadratization::{DirectForm, DirectTerms, form_by_pairs, problem_terms};
use std::alloc::Global;

/// How energies stand for the costs of a problem: they are its costs, and no more than the bound
/// where it has an assignment that is allowed.
fn problem_figures(problem: &Problem) -> Figures
    ensures { result ≡ figures problem.now }
{
    Figures {
        scale: 1,
        offset: 0,
        threshold: problem.upper(),
    }
}

/// What a problem within the limits contributes, multiplied out as it comes.
fn multilinear_terms(alloc: Global, problem: &Problem) -> Result<DirectTerms, NoMemory>
    requires { multilinear.Admits problem.now }
    ensures { IfOk result (AreHeld (multilinear.multiplied (additions_of problem.now))) }
{
    let sums = DirectTerms::new(alloc, node_count(problem))?;
    let mut terms = PlainTerms::new(alloc, sums);
    add_contributions(alloc, &mut terms, problem)?;
    Ok(terms.into_terms())
}

/// What a problem within the limits contributes, in the normal form that is chosen.
fn normal_terms(alloc: Global, problem: &Problem, normal: Normal) -> Result<DirectTerms, NoMemory>
    requires normal { IsNormal problem.now }
    requires within { limit_fault normal problem.now ≡ None }
    ensures { IfOk result (AreHeldFor (terms_of normal problem.now)) }
{
    match normal {
        Normal::Literal => problem_terms(alloc, problem),
        Normal::Multilinear => multilinear_terms(alloc, problem),
    }
}

/// The quadratic form of terms at once, without the tables between: each long term is replaced by
/// itself, or pairs of its literals are, one after another.
fn low_form(alloc: Global, terms: DirectTerms, high: High) -> Result<DirectForm, NoMemory>
    requires { (t : TableContent) × AreHeldFor t terms }
    ensures image { (t : TableContent) → AreHeldFor t terms → IfOk result (λ form.
        form.quad ≡ flat.image (low_terms_of high t)) }
    ensures new_nodes { (t : TableContent) → AreHeldFor t terms → IfOk result (λ form.
        (x : List Bool) → with_new_bits form.new_nodes x ≡ low_extension high t x) }
{
    match high {
        High::Monomial => terms.into_form(alloc),
        High::Rosenberg => form_by_pairs(alloc, terms),
    }
}

/// The quadratic form of a problem within the limits. The problem is let go as soon as its terms are
/// gathered, and the steps as soon as the form stands, unless they are kept.
pub fn quadratized<P: Held>(
    alloc: Global,
    problem: P,
    choices: &Choices,
    keep: bool,
) -> Result<(Scaled<Quad>, Option<FormSteps>), NoMemory>
    requires { limit_fault choices.now.normal (P.problem problem) ≡ None }
    ensures image { IfOk result (λ made. made.0.target ≡ quad_of choices.now (P.problem problem)) }
    ensures stands { IfOk result (λ made.
        IsQuadratized (P.problem problem) made.0.target made.0.figures) }
    ensures kept { IfOk result (λ made. AreKept keep choices.now (P.problem problem) made.1) }
{
    let source = problem.problem();
    let terms = normal_terms(alloc, source, choices.normal)?;
    let figures = problem_figures(source);
    drop(problem);
    let DirectForm { quad, new_nodes } = low_form(alloc, terms, choices.high)?;
    let steps = FormSteps {
        choices: *choices,
        new_nodes,
    };
    let form = Scaled {
        target: quad,
        figures,
    };
    Ok((form, keep.then_some(steps)))
}
