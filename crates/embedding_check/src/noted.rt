//! The least joined pairs from one node's chain to the chains of later nodes.
//!
//! All joins of the chain are gone over once, and the least pair for each other node is kept in a
//! table. Of a run of qubits with one owner only the first joined one is looked at, and a span that
//! several qubits of the chain face is gone over for the first of them. The table is emptied for
//! the next chain without going over it: a mark says in which turn its pair was noted.
ghost use Rattle.std.specs.Prelude.{◌≡◌, ◌≤◌, ◌<◌, ℕ, true, false, length, All, Option, Some, None, IfOk, IfSome};
ghost use Rattle.hardware.specs.declared.span.Span.{Span};
ghost use Rattle.embedding_check.specs.Checked.{IsBefore};
ghost use Rattle.embedding_check.specs.Least.{IsLeastPair};
ghost use Rattle.embedding_check.specs.Noted.{
  marked_pair,
  noted_at,
  ordered,
  Notes,
  IsJoin,
  IsRunJoin,
  IsSpanJoin,
  IsNumberJoin,
  IsOthersJoin,
  IsQubitJoin,
  IsChainJoin,
  AreNotedTo,
  AreNotedFrom,
};

use crate::owners::Owned;
use base::NoMemory;
use hardware::{Hardware, Span};
use std::alloc::Global;
use std::marker::Model;

/// A pair of qubits, and the turn in which it was noted.
#[derive(Clone, Copy)]
struct Mark {
    turn: u32,
    from: u32,
    to: u32,
}

/// A pair of qubits for each node, or none.
#[derive(Drop)]
pub(crate) struct Noted {
    turn: u32,
    marks: Vec<Mark>,
}

impl Model for Noted {
    ghost use Rattle.std.specs.Prelude.{ℕ, ◌≤◌, List, map, All, Option};
    ghost use Rattle.embedding_check.specs.Noted.{marked_pair};

    ghost Value = { List (Option (ℕ × ℕ)) };

    ghost view = { λ n. map (marked_pair n.turn) n.marks.items };

    ghost invariant = { λ n. All (λ m. m.turn ≤ n.turn) n.marks.items };
}

/// The lesser of two numbers.
fn lesser(a: u32, b: u32) -> u32
    ensures first { result ≤ a }
    ensures second { result ≤ b }
    ensures between { (n : ℕ) → n < a → n < b → n < result }
{
    if a < b { a } else { b }
}

/// The two qubits, the lesser one first.
fn ordered(a: u32, b: u32) -> (u32, u32)
    ensures { result ≡ ordered a b }
{
    if a < b { (a, b) } else { (b, a) }
}

/// Whether two spans are the same.
fn is_same(one: Span, other: Span) -> bool
    ensures { result ≡ true → one ≡ other }
{
    one.start == other.start && one.end == other.end
}

/// Whether nothing is noted in a turn, or only a pair that is not less.
fn is_lesser(mark: Mark, turn: u32, from: u32, to: u32) -> bool
    requires { mark.turn ≤ turn }
    ensures lesser { result ≡ true → (p : ℕ × ℕ) → marked_pair turn mark ≡ Some p
        → IsBefore (from, to) p }
    ensures kept { result ≡ false →
        (marked_pair turn mark ≡ Some (mark.from, mark.to))
        × IsBefore (mark.from, mark.to) (from, to) }
{
    mark.turn < turn || from < mark.from || (from == mark.from && to < mark.to)
}

/// No mark is of a turn after 0.
fn forget(marks: &mut Vec<Mark>)
    ensures len { length marks.new.items ≡ length marks.old.items }
    ensures none { All (λ m. m.turn ≡ 0) marks.new.items }
{
    for k in 0..marks.len() {
        marks[k].turn = 0;
    }
}

impl Noted {
    /// Nothing is noted for any of so many nodes.
    pub(crate) fn new(alloc: Global, nodes: usize) -> Result<Noted, NoMemory>
        ensures len { IfOk result (λ n. length n ≡ nodes) }
    {
        let none = Mark {
            turn: 0,
            from: 0,
            to: 0,
        };
        Ok(Noted {
            turn: 1,
            marks: vec![in alloc; none; nodes]?,
        })
    }

    /// How many nodes there are.
    fn len(&self) -> usize
        ensures { result ≡ length self.now }
    {
        self.marks.len()
    }

    /// What is noted for a node.
    pub(crate) fn at(&self, node: usize) -> Option<(u32, u32)>
        requires { node < length self.now }
        ensures { result ≡ noted_at self.now node }
    {
        let mark = self.marks[node];
        if mark.turn == self.turn {
            Some((mark.from, mark.to))
        } else {
            None
        }
    }

    /// Nothing is noted any more.
    fn clear(&mut self)
        ensures len { length self.new ≡ length self.old }
        ensures none { (v : ℕ) → v < length self.old → noted_at self.new v ≡ None }
    {
        if self.turn == u32::MAX {
            forget(&mut self.marks);
            self.turn = 1;
        } else {
            self.turn += 1;
        }
    }

    /// Notes a pair, unless a lesser one is noted.
    fn put(&mut self, node: usize, from: u32, to: u32)
        requires { node < length self.old }
        ensures { Notes (λ v p. (v ≡ node) × (p ≡ (from, to))) self.old self.new }
    {
        if is_lesser(self.marks[node], self.turn, from, to) {
            self.marks[node] = Mark {
                turn: self.turn,
                from,
                to,
            };
        }
    }

    /// Notes the pair of two qubits, if they are joined and the second one is a later node's.
    fn note<H: Hardware>(&mut self, hardware: &H, owners: &Owned, node: u32, a: u32, b: u32)
        requires owners { length owners.now ≡ H.qubits hardware.now }
        requires first { a < H.qubits hardware.now }
        requires second { b < H.qubits hardware.now }
        ensures { Notes (IsJoin (H.joined hardware.now) owners.now node a b) self.old self.new }
    {
        let owner = owners.owner(b);
        if node < owner && (owner as usize) < self.len() && hardware.joined(a, b) {
            let (from, to) = ordered(a, b);
            self.put(owner as usize, from, to);
        }
    }

    /// Notes the joins of a qubit to those from `b` on and below `end`, as far as they have one owner,
    /// and gives where it stopped. Once one of them is joined, no later one has a lesser pair; where one of a later
    /// node is not joined, it stops after that one and says so.
    fn note_run<H: Hardware>(
        &mut self,
        hardware: &H,
        owners: &Owned,
        node: u32,
        a: u32,
        b: u32,
        end: u32,
    ) -> (u32, bool)
        requires owners { length owners.now ≡ H.qubits hardware.now }
        requires first { a < H.qubits hardware.now }
        requires second { b < end }
        requires end { end ≤ H.qubits hardware.now }
        ensures after { b < result.0 }
        ensures within { result.0 ≤ end }
        ensures noted { Notes (IsRunJoin (H.joined hardware.now) owners.now node a b result.0)
            self.old self.new }
        ensures all { result.1 ≡ true
            → AreNotedTo self.new owners.now node a (λ c. (b ≤ c) × (c < result.0)) }
    {
        let owner = owners.owner(b);
        if owner <= node || self.len() <= owner as usize {
            return (lesser(owners.run_end(b), end), true);
        }
        if hardware.joined(a, b) {
            let (from, to) = ordered(a, b);
            self.put(owner as usize, from, to);
            return (lesser(owners.run_end(b), end), true);
        }
        (b + 1, false)
    }

    /// Notes the joins of a qubit to those of a span, and says whether each qubit of a later node there
    /// has a pair that is noted or not less.
    fn note_span<H: Hardware>(
        &mut self,
        hardware: &H,
        owners: &Owned,
        node: u32,
        a: u32,
        span: Span,
    ) -> bool
        requires owners { length owners.now ≡ H.qubits hardware.now }
        requires qubit { a < H.qubits hardware.now }
        ensures noted { Notes (IsSpanJoin (H.joined hardware.now) owners.now node a span)
            self.old self.new }
        ensures all { result ≡ true → AreNotedFrom self.new owners.now node a span }
    {
        let end = lesser(span.end, hardware.qubits());
        let mut b = span.start;
        let mut all = true;
        'runs: while b < end {
            let (next, noted) = self.note_run(hardware, owners, node, a, b, end);
            b = next;
            all = all && noted;
        }
        all
    }

    /// Notes the join of a qubit to a number, if there is one.
    fn note_number<H: Hardware>(
        &mut self,
        hardware: &H,
        owners: &Owned,
        node: u32,
        a: u32,
        number: Option<u32>,
    )
        requires owners { length owners.now ≡ H.qubits hardware.now }
        requires qubit { a < H.qubits hardware.now }
        ensures { Notes (IsNumberJoin (H.joined hardware.now) owners.now node a number)
            self.old self.new }
    {
        match number {
            Some(b) => {
                if b < hardware.qubits() {
                    self.note(hardware, owners, node, a, b);
                }
            }
            None => {}
        }
    }

    /// Notes the joins of a qubit to those of the span that it faces, unless this was done for a lesser
    /// qubit. It gives the qubit and the span for which it is done.
    fn note_faced<H: Hardware>(
        &mut self,
        hardware: &H,
        owners: &Owned,
        node: u32,
        a: u32,
        done: Option<(u32, Span)>,
    ) -> Option<(u32, Span)>
        requires owners { length owners.now ≡ H.qubits hardware.now }
        requires qubit { a < H.qubits hardware.now }
        requires done { IfSome done (λ p. AreNotedFrom self.old owners.now node p.0 p.1) }
        ensures noted { Notes
            (IsSpanJoin (H.joined hardware.now) owners.now node a (H.facing hardware.now a))
            self.old self.new }
        ensures done { IfSome result (λ p. AreNotedFrom self.new owners.now node p.0 p.1) }
    {
        let span = hardware.facing(a);
        match done {
            Some((least, faced)) => {
                if least <= a && is_same(faced, span) {
                    return done;
                }
            }
            None => {}
        }
        if self.note_span(hardware, owners, node, a, span) {
            Some((a, span))
        } else {
            None
        }
    }

    /// Notes the joins of a qubit to its others.
    fn note_others<H: Hardware>(&mut self, hardware: &H, owners: &Owned, node: u32, a: u32)
        requires owners { length owners.now ≡ H.qubits hardware.now }
        requires qubit { a < H.qubits hardware.now }
        ensures { Notes (IsOthersJoin (H.joined hardware.now) owners.now node a
            (H.others hardware.now a) (H.other hardware.now a)) self.old self.new }
    {
        let others = hardware.others(a);
        for k in others.start..others.end {
            self.note_number(hardware, owners, node, a, Some(hardware.other(a, k)));
        }
    }

    /// Notes all joins of a qubit. It takes and gives a qubit and a span for whose joins that is done
    /// already.
    fn note_qubit<H: Hardware>(
        &mut self,
        hardware: &H,
        owners: &Owned,
        node: u32,
        a: u32,
        done: Option<(u32, Span)>,
    ) -> Option<(u32, Span)>
        requires owners { length owners.now ≡ H.qubits hardware.now }
        requires qubit { a < H.qubits hardware.now }
        requires done { IfSome done (λ p. AreNotedFrom self.old owners.now node p.0 p.1) }
        ensures noted { Notes (IsQubitJoin (H.joined hardware.now) owners.now node a)
            self.old self.new }
        ensures done { IfSome result (λ p. AreNotedFrom self.new owners.now node p.0 p.1) }
    {
        let next = self.note_faced(hardware, owners, node, a, done);
        self.note_others(hardware, owners, node, a);
        next
    }

    /// Notes all joins of a chain.
    fn note_all<H: Hardware>(&mut self, hardware: &H, owners: &Owned, node: u32, chain: &[u32])
        requires owners { length owners.now ≡ H.qubits hardware.now }
        requires within { All (λ q. q < H.qubits hardware.now) chain.now }
        ensures { Notes
            (IsChainJoin (H.joined hardware.now) owners.now node chain.now (length chain.now))
            self.old self.new }
    {
        let mut done = None;
        for k in 0..chain.len() {
            done = self.note_qubit(hardware, owners, node, chain[k], done);
        }
    }

    /// Notes all joins of a chain, and nothing else.
    pub(crate) fn note_chain<H: Hardware>(
        &mut self,
        hardware: &H,
        owners: &Owned,
        node: u32,
        chain: &[u32],
    )
        requires owners { length owners.now ≡ H.qubits hardware.now }
        requires within { All (λ q. q < H.qubits hardware.now) chain.now }
        ensures len { length self.new ≡ length self.old }
        ensures noted { (v : ℕ) → v < length self.old → IsLeastPair
            (IsChainJoin (H.joined hardware.now) owners.now node chain.now (length chain.now) v)
            (noted_at self.new v) }
    {
        self.clear();
        self.note_all(hardware, owners, node, chain);
    }
}
