//! The bits of the new nodes of long terms, under a state of the nodes before them.
//!
//! They go by the degree of a term, by how many of its literals are true and by the sign of its
//! coefficient.
ghost use Rattle.std.specs.Prelude.{◌≡◌, ◌++◌, ◌≤◌, IfOk, OnOk, length};
ghost use Rattle.monomial_layer.specs.Monomials.{extension, new_bits, true_literals};

use crate::long_table::LongTable;
use base::NoMemory;
use literal_lists::Literals;
use monomial_layer::{nodes_for, push_taken};
use std::alloc::Global;

/// How many literals are true.
fn true_literals(literals: Literals<'_>, x: &[bool]) -> usize
    ensures { result ≡ true_literals x.now literals.entry }
{
    literals.filter(|literal| literal.holds(x)).count()
}

/// Appends the bits of the new nodes of a long term.
fn push_bits(
    bits: &mut Vec<bool>,
    x: &[bool],
    literals: Literals<'_>,
    coefficient: i128,
) -> Result<(), NoMemory>
    requires long { 3 ≤ length literals }
    requires short { length literals ≤ 2048 }
    ensures { OnOk result (bits.new.items
        ≡ bits.old.items ++ new_bits x.now (literals.entry, coefficient)) }
{
    let degree = literals.len();
    let holding = true_literals(literals, x);
    if coefficient < 0 {
        bits.push(holding == degree)?;
        return Ok(());
    }
    push_taken(bits, holding, nodes_for(degree))
}

impl LongTable {
    /// A state of the variables, and the bits of all new nodes.
    pub fn extended(&self, alloc: Global, x: &[bool]) -> Result<Vec<bool>, NoMemory>
        ensures { IfOk result (λ y. y.items ≡ extension x.now self.now.terms) }
    {
        let mut bits = Vec::with_capacity(alloc, self.node_count() as usize)?;
        bits.extend_from_slice(x)?;
        for i in 0..self.len() {
            let term = self.at(i);
            push_bits(&mut bits, x, term.literals, term.coefficient)?;
        }
        Ok(bits)
    }
}
