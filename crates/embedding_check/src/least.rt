//! The least joined pair of qubits between two chains.
ghost use Rattle.std.specs.Prelude.{◌≡◌, ◌+◌, ◌≤◌, ◌<◌, ◌⊎◌, ◌^◌, ℕ, length, All};
ghost use Rattle.embedding_check.specs.Checked.{IsBefore};
ghost use Rattle.embedding_check.specs.Search.{IsRising};
ghost use Rattle.embedding_check.specs.Least.{
  IsLeast,
  IsLeastPair,
  IsAhead,
  IsFacedAhead,
  IsNumberedAhead,
  IsOtherAhead,
  IsArrow,
  IsPlaceIn,
};

use crate::search::position_of;
use hardware::{Hardware, Span};

/// The lesser of two numbers.
fn lesser(x: Option<u32>, y: Option<u32>) -> Option<u32>
    ensures left { x ≡ None → result ≡ y }
    ensures right { y ≡ None → result ≡ x }
    ensures both { (m n : ℕ) → x ≡ Some m → y ≡ Some n
        → ((m ≤ n) × (result ≡ Some m)) ⊎ ((n ≤ m) × (result ≡ Some n)) }
{
    match (x, y) {
        (Some(m), Some(n)) => { if m <= n { Some(m) } else { Some(n) } }
        (Some(m), None) => Some(m),
        (None, other) => other,
    }
}

/// The least number from the span's start on that is above a qubit.
fn first_above(span: Span, a: u32) -> u32
    requires { a < 2 ^ 20 }
    ensures from { span.start ≤ result }
    ensures above { a < result }
    ensures least { (b : ℕ) → span.start ≤ b → a < b → result ≤ b }
{
    if span.start <= a { a + 1 } else { span.start }
}

/// The least qubit of a chain in a span that is above a qubit and joined to it.
fn least_faced<H: Hardware>(hardware: &H, a: u32, chain: &[u32], span: Span) -> Option<u32>
    requires qubit { a < H.qubits hardware.now }
    requires within { All (λ q. q < H.qubits hardware.now) chain.now }
    requires rising { IsRising chain.now }
    ensures { IsLeast (IsFacedAhead (H.joined hardware.now) a chain.now span) result }
{
    for k in position_of(chain, first_above(span, a))..chain.len() {
        if chain[k] >= span.end {
            return None;
        }
        if hardware.joined(a, chain[k]) {
            return Some(chain[k]);
        }
    }
    None
}

/// A number of a chain, if it is above a qubit and joined to it.
fn numbered<H: Hardware>(hardware: &H, a: u32, chain: &[u32], number: Option<u32>) -> Option<u32>
    requires qubit { a < H.qubits hardware.now }
    requires within { All (λ q. q < H.qubits hardware.now) chain.now }
    requires rising { IsRising chain.now }
    ensures { IsLeast (IsNumberedAhead (H.joined hardware.now) a chain.now number) result }
{
    let b = number?;
    match chain.binary_search(&b) {
        Ok(_) => {
            if a < b && hardware.joined(a, b) {
                Some(b)
            } else {
                None
            }
        }
        Err(_) => None,
    }
}

/// The least qubit of a chain that is above a qubit, joined to it, and one of its others.
fn least_other<H: Hardware>(hardware: &H, a: u32, chain: &[u32]) -> Option<u32>
    requires qubit { a < H.qubits hardware.now }
    requires within { All (λ q. q < H.qubits hardware.now) chain.now }
    requires rising { IsRising chain.now }
    ensures { IsLeast (IsOtherAhead (H.joined hardware.now) a chain.now
        (H.others hardware.now a) (H.other hardware.now a)) result }
{
    let others = hardware.others(a);
    let mut least = None;
    for k in others.start..others.end {
        let one = numbered(hardware, a, chain, Some(hardware.other(a, k)));
        least = lesser(least, one);
    }
    least
}

/// The least qubit of a chain that is above a qubit and joined to it.
fn least_ahead<H: Hardware>(hardware: &H, a: u32, chain: &[u32]) -> Option<u32>
    requires qubit { a < H.qubits hardware.now }
    requires within { All (λ q. q < H.qubits hardware.now) chain.now }
    requires rising { IsRising chain.now }
    ensures { IsLeast (IsAhead (H.joined hardware.now) a chain.now) result }
{
    let span = hardware.facing(a);
    let faced = least_faced(hardware, a, chain, span);
    let of_others = least_other(hardware, a, chain);
    lesser(faced, of_others)
}

/// The least join from a chain up to another.
fn arrow<H: Hardware>(hardware: &H, c: &[u32], d: &[u32]) -> Option<(u32, u32)>
    requires from { All (λ q. q < H.qubits hardware.now) c.now }
    requires to { All (λ q. q < H.qubits hardware.now) d.now }
    requires rising { IsRising c.now }
    requires rising_to { IsRising d.now }
    ensures { IsLeastPair (IsArrow (H.joined hardware.now) c.now d.now) result }
{
    for k in 0..c.len() {
        let a = c[k];
        if let Some(b) = least_ahead(hardware, a, d) {
            return Some((a, b));
        }
    }
    None
}

/// The lesser of two pairs.
fn lesser_pair(x: Option<(u32, u32)>, y: Option<(u32, u32)>) -> Option<(u32, u32)>
    ensures left { x ≡ None → result ≡ y }
    ensures right { y ≡ None → result ≡ x }
    ensures both { (m n : ℕ × ℕ) → x ≡ Some m → y ≡ Some n
        → (IsBefore m n × (result ≡ Some m)) ⊎ (IsBefore n m × (result ≡ Some n)) }
{
    match (x, y) {
        (Some(m), Some(n)) => {
            if m.0 < n.0 || (m.0 == n.0 && m.1 <= n.1) {
                Some(m)
            } else {
                Some(n)
            }
        }
        (Some(m), None) => Some(m),
        (None, other) => other,
    }
}

/// Where a coupling between two chains is placed.
pub(crate) fn place_between<H: Hardware>(hardware: &H, c: &[u32], d: &[u32]) -> Option<(u32, u32)>
    requires from { All (λ q. q < H.qubits hardware.now) c.now }
    requires to { All (λ q. q < H.qubits hardware.now) d.now }
    requires rising { IsRising c.now }
    requires rising_to { IsRising d.now }
    ensures { IsPlaceIn (H.joined hardware.now) c.now d.now result }
{
    let up = arrow(hardware, c, d);
    let down = arrow(hardware, d, c);
    lesser_pair(up, down)
}
