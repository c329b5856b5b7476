//! What an embedding asks of a graph of qubits.

ghost use Rattle.std.specs.Prelude.{◌≡◌, ◌≤◌, ◌<◌, ◌^◌, ℕ, Bool, true, false};
ghost use Rattle.hardware.specs.declared.span.Span.{Span};
ghost use Rattle.hardware.specs.declared.hardware.Others.{Others};
ghost use Rattle.hardware.specs.Others.{CanBeJoined, IsOther};

use crate::span::Span;

/// The places of the others of a qubit: from `start` on, and below `end`.
#[derive(Clone, Copy, Debug, PartialEq, Eq)]
pub struct Others {
    pub start: usize,
    pub end: usize,
}

/// A graph of qubits: at most 2^20 numbers, of which some are qubits, and joins that go both ways,
/// none of them from a qubit to itself.
///
/// `joined` alone says which qubits are joined. `facing`, `others` and `other` say where the joins
/// of a qubit can be, so that whoever looks for them need not try all pairs: in one span of
/// numbers, or at one of its others.
pub trait Hardware {
    // how many numbers there are
    ghost qubits: { Self → ℕ };

    // which of them are qubits
    ghost exists: { Self → ℕ → Bool };

    // whether two qubits are joined
    ghost joined: { Self → ℕ → ℕ → Bool };

    // where the joins of a qubit can be: in a span of numbers, and at the others of these places
    ghost facing: { Self → ℕ → Span };

    ghost others: { Self → ℕ → Others };

    ghost other: { Self → ℕ → ℕ → ℕ };

    /// How many numbers there are.
    fn qubits(&self) -> u32
        ensures { result ≡ qubits self.now };

    /// Whether a number is one of a qubit.
    fn exists(&self, a: u32) -> bool
        requires { a < qubits self.now }
        ensures { result ≡ exists self.now a };

    /// Whether two qubits are joined.
    fn joined(&self, a: u32, b: u32) -> bool
        requires first { a < qubits self.now }
        requires second { b < qubits self.now }
        ensures { result ≡ joined self.now a b };

    /// The numbers that a qubit faces. Its other joins can only be to its others.
    fn facing(&self, a: u32) -> Span
        requires { a < qubits self.now }
        ensures { result ≡ facing self.now a };

    /// The places of the others of a qubit.
    fn others(&self, a: u32) -> Others
        requires { a < qubits self.now }
        ensures { result ≡ others self.now a };

    /// The other at a place.
    fn other(&self, a: u32, k: usize) -> u32
        requires qubit { a < qubits self.now }
        requires place { IsOther (others self.now a) k }
        ensures { result ≡ other self.now a k };

    // what holds of every graph
    ghost few: { (graph : Self) → qubits graph ≤ 2 ^ 20 };

    ghost symmetric: { (graph : Self) (a b : ℕ) → joined graph a b ≡ joined graph b a };

    ghost irreflexive: { (graph : Self) (a : ℕ) → joined graph a a ≡ false };

    ghost below: { (graph : Self) (a : ℕ) → exists graph a ≡ true → a < qubits graph };

    ghost existing: { (graph : Self) (a b : ℕ) → a < qubits graph → joined graph a b ≡ true
        → exists graph a ≡ true };

    ghost ordered: { (graph : Self) (a : ℕ) → (others graph a).start ≤ (others graph a).end };

    ghost findable: { (graph : Self) (a b : ℕ) → a < qubits graph → b < qubits graph
        → joined graph a b ≡ true
        → CanBeJoined (facing graph a) (others graph a) (other graph a) b };
}

/// Whether a number is one of a qubit that exists.
pub fn is_qubit<H: Hardware>(hardware: &H, number: u64) -> bool
    ensures value { result ≡ H.exists hardware.now number }
    ensures few { result ≡ true → number < 2 ^ 20 }
{
    if number >= u64::from(hardware.qubits()) {
        return false;
    }
    hardware.exists(number as u32)
}
