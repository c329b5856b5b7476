//! Who says what a state is worth.
ghost use Rattle.std.specs.Prelude.{◌≡◌, ◌≤◌, All, length};
ghost use Rattle.state_scores.specs.Scores.{Judgement, IsSmall};
ghost use Rattle.state_scores.specs.Batches.{AreCosts, AreEnergies};

use base::{Cost, Lists};

/// Who says what a state is worth. It has what it needs for that, so no call takes memory.
pub trait Judge {
    /// How many bits a state has, the cost of what each state decodes to, and its energy.
    ghost judgement: { Self → Judgement };

    /// The costs of what states decode to, which are at most 64. The size of each is below 2^64.
    fn costs(&mut self, states: &Lists<bool>, costs: &mut [Cost])
        requires few { length states.now ≤ 64 }
        requires room { length costs.old ≡ length states.now }
        requires width { All (λ state. length state ≡ (judgement self.old).width) states.now }
        ensures costs { AreCosts (judgement self.old) states.now costs.new }
        ensures small { All IsSmall costs.new }
        ensures same { judgement self.new ≡ judgement self.old };

    /// The energies of states, which are at most 64.
    fn energies(&mut self, states: &Lists<bool>, energies: &mut [i128])
        requires few { length states.now ≤ 64 }
        requires room { length energies.old ≡ length states.now }
        requires width { All (λ state. length state ≡ (judgement self.old).width) states.now }
        ensures energies { AreEnergies (judgement self.old) states.now energies.new }
        ensures same { judgement self.new ≡ judgement self.old };
}
