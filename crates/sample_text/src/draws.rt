//! What is drawn for a clause: its weight and its literals.
//!
//! The draws are those of the minimal standard generator of Park and Miller, "Random number
//! generators: good ones are hard to find" (1988): the state is multiplied by 16807, modulo the
//! prime 2 ^ 31 - 1. They serve to vary a sample, and hide nothing.
ghost use Rattle.std.specs.Prelude.{◌≡◌, ◌<◌, ◌%◌, ◌+◌, pos, neg_ℤ, if◌then◌else◌};
ghost use Rattle.sample_text.specs.Sample.{seed, drawn, after, drawn_weight, drawn_literal};

const MULTIPLIER: u64 = 16807;

const MODULUS: u64 = 2147483647;

/// The state of the generator, which each draw replaces.
#[derive(Drop)]
pub(crate) struct Draws {
    state: u32,
}

/// A literal of a variable, as the number that stands for it.
fn literal_of(variable: u64, negated: bool) -> i128
    ensures { result ≡ (if negated then neg_ℤ (pos variable) else pos variable) }
{
    let number = i128::from(variable);
    if negated { -number } else { number }
}

impl Draws {
    /// The draws that a number begins.
    #[tactic(auto, unfolding(crate::specs::Sample::seed))]
    pub(crate) fn new(number: u64) -> Draws
        ensures { result.state ≡ seed number }
    {
        Draws {
            state: (1 + number % (MODULUS - 1)) as u32,
        }
    }

    /// One draw.
    #[tactic(auto, unfolding(crate::specs::Sample::drawn))]
    fn next(&mut self) -> u64
        ensures drawn { result ≡ drawn self.old.state }
        ensures state { self.new.state ≡ drawn self.old.state }
    {
        let number = MULTIPLIER * u64::from(self.state) % MODULUS;
        self.state = number as u32;
        number
    }

    /// The weight of a clause, by one draw.
    pub(crate) fn weight(&mut self, top: u64) -> u64
        ensures weight { result ≡ drawn_weight top self.old.state }
        ensures state { self.new.state ≡ after 1 self.old.state }
    {
        let number = self.next();
        if number % 8 == 0 { top } else { 1 + number % 9 }
    }

    /// A literal, by two draws.
    pub(crate) fn literal(&mut self, variables: u64) -> i128
        requires { 0 < variables }
        ensures literal { result ≡ drawn_literal variables self.old.state }
        ensures state { self.new.state ≡ after 2 self.old.state }
    {
        let variable = 1 + self.next() % variables;
        literal_of(variable, self.next() % 2 == 1)
    }
}
