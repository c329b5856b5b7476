//! What one state is worth.
ghost use Rattle.std.specs.Prelude.{◌≡◌};
ghost use Rattle.state_scores.specs.Scores.{is_below, is_better};

use base::Cost;

/// What a state is worth: the number of its line, the cost of what it decodes to, and its energy.
#[derive(Clone, Copy, Debug, PartialEq, Eq)]
pub struct Score {
    pub line: u64,
    pub cost: Cost,
    pub energy: i128,
}

/// Whether a cost is below another. Infinite costs are above all others.
fn is_below(cost: Cost, other: Cost) -> bool
    ensures { result ≡ is_below cost other }
{
    match (cost, other) {
        (Cost::Whole(value), Cost::Whole(limit)) => value < limit,
        (Cost::Whole(_), Cost::Infinite) => true,
        (Cost::Infinite, _) => false,
    }
}

/// Whether a score is better than another: by its cost, and at equal costs by its energy.
pub(crate) fn is_better(score: &Score, other: &Score) -> bool
    ensures { result ≡ is_better score.now other.now }
{
    let same = !is_below(other.cost, score.cost);
    is_below(score.cost, other.cost) || same && score.energy < other.energy
}
