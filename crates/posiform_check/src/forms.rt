//! Bit forms, gathered into tables.
ghost use Rattle.std.specs.Prelude.{◌≡◌, pos, neg_ℤ, ◌*ℤ◌, ◌<◌, ◌≤◌, ◌^◌, ◌∷◌, [], false, All, None, IfOk, OnOk, unsigned_abs};
ghost use Rattle.std.specs.List.{flat_map};
ghost use Rattle.base.specs.Sums.{total_by};
ghost use Rattle.bits_model.specs.Output.{weight_total, IsPlaced};
ghost use Rattle.term_table.specs.Terms.{terms_total, with_additions};
ghost use Rattle.term_table.specs.Tables.{with_more, AreAdditions};
ghost use Rattle.posiform_check.specs.BitForms.{
  bit_sets,
  certificate_list,
  certificate_terms,
  coupling_sets,
  entry_constant,
  entry_sets,
  node_set,
  pair_set,
  sets_of,
  spin_sets,
};
ghost use Rattle.posiform_check.specs.Certificates.{certificate_fault, AreOfNodes};

use crate::certificate::Certificate;
use crate::lines::LineRef;
use base::NoMemory;
use bits_model::{Entry, EntryList, Kind};
use literal_lists::Literal;
use normal_form::add_plain_terms;
use std::alloc::Global;
use term_table::{GatheredTerms, Table};

/// The bit of a node, as a literal.
fn bit(node: u32) -> Literal
    ensures { result ≡ record { variable = node; negated = false } }
{
    Literal {
        variable: u64::from(node),
        negated: false,
    }
}

/// Adds a term that fits.
fn add(terms: &mut GatheredTerms, set: &[Literal], coefficient: i128) -> Result<(), NoMemory>
    requires { AreAdditions (with_more terms.old ((set.now, coefficient) ∷ [])) }
    ensures { OnOk result (terms.new ≡ with_more terms.old ((set.now, coefficient) ∷ [])) }
{
    terms.add(set, coefficient)
}

/// Adds to the coefficient of a node.
fn add_node(terms: &mut GatheredTerms, node: u32, coefficient: i128) -> Result<(), NoMemory>
    requires { AreAdditions (with_more terms.old ((node_set node, coefficient) ∷ [])) }
    ensures { OnOk result (terms.new ≡ with_more terms.old ((node_set node, coefficient) ∷ [])) }
{
    add(terms, &[bit(node)], coefficient)
}

/// Adds to the coefficient of a pair of nodes.
fn add_pair(
    terms: &mut GatheredTerms,
    first: u32,
    second: u32,
    coefficient: i128,
) -> Result<(), NoMemory>
    requires { AreAdditions (with_more terms.old ((pair_set first second, coefficient) ∷ [])) }
    ensures { OnOk result (terms.new
        ≡ with_more terms.old ((pair_set first second, coefficient) ∷ [])) }
{
    add(terms, &[bit(first), bit(second)], coefficient)
}

/// A number of a model, twice.
fn twice(weight: i128) -> i128
    requires { unsigned_abs weight ≤ 2 ^ 121 }
    ensures { result ≡ pos 2 *ℤ weight }
{
    2 * weight
}

/// A number of a model, twice and with the other sign.
fn twice_less(weight: i128) -> i128
    requires { unsigned_abs weight ≤ 2 ^ 121 }
    ensures { result ≡ neg_ℤ (pos 2 *ℤ weight) }
{
    -twice(weight)
}

/// A number of a model, four times.
fn four_times(weight: i128) -> i128
    requires { unsigned_abs weight ≤ 2 ^ 121 }
    ensures { result ≡ pos 4 *ℤ weight }
{
    4 * weight
}

/// Adds the terms of an entry on bits.
fn add_bits(terms: &mut GatheredTerms, entry: Entry) -> Result<(), NoMemory>
    requires { AreAdditions (with_more terms.old (bit_sets entry)) }
    ensures { OnOk result (terms.new ≡ with_more terms.old (bit_sets entry)) }
{
    if entry.first == entry.second {
        add_node(terms, entry.first, entry.weight)
    } else {
        add_pair(terms, entry.first, entry.second, entry.weight)
    }
}

/// Adds the terms of a coupling of spins, but for its constant.
fn add_coupling(
    terms: &mut GatheredTerms,
    first: u32,
    second: u32,
    weight: i128,
) -> Result<(), NoMemory>
    requires fits { AreAdditions (with_more terms.old (coupling_sets first second weight)) }
    requires small { unsigned_abs weight ≤ 2 ^ 121 }
    ensures { OnOk result (terms.new ≡ with_more terms.old (coupling_sets first second weight)) }
{
    let less = twice_less(weight);
    add_node(terms, first, less)?;
    add_node(terms, second, less)?;
    add_pair(terms, first, second, four_times(weight))
}

/// Adds the terms of an entry on spins, but for its constant.
fn add_spins(terms: &mut GatheredTerms, entry: Entry) -> Result<(), NoMemory>
    requires fits { AreAdditions (with_more terms.old (spin_sets entry)) }
    requires small { unsigned_abs entry.weight ≤ 2 ^ 121 }
    ensures { OnOk result (terms.new ≡ with_more terms.old (spin_sets entry)) }
{
    if entry.first == entry.second {
        add_node(terms, entry.first, twice(entry.weight))
    } else {
        add_coupling(terms, entry.first, entry.second, entry.weight)
    }
}

/// Adds the terms of an entry of this kind, but for its constant.
fn add_entry(terms: &mut GatheredTerms, kind: Kind, entry: Entry) -> Result<(), NoMemory>
    requires fits { AreAdditions (with_more terms.old (entry_sets kind entry)) }
    requires small { unsigned_abs entry.weight ≤ 2 ^ 121 }
    ensures { OnOk result (terms.new ≡ with_more terms.old (entry_sets kind entry)) }
{
    match kind {
        Kind::Qubo => add_bits(terms, entry),
        Kind::Ising | Kind::Qubits(_) => add_spins(terms, entry),
    }
}

/// The constant of an entry of this kind.
fn constant_of(kind: Kind, entry: Entry) -> i128
    requires { unsigned_abs entry.weight ≤ 2 ^ 121 }
    ensures { result ≡ entry_constant kind entry }
{
    match kind {
        Kind::Qubo => 0,
        Kind::Ising | Kind::Qubits(_) => {
            if entry.first == entry.second {
                -entry.weight
            } else {
                entry.weight
            }
        }
    }
}

/// The constant of the bit form of a model.
pub(crate) fn model_constant(kind: Kind, entries: &EntryList) -> i128
    requires { weight_total entries.now ≤ 2 ^ 121 }
    ensures { result ≡ total_by (entry_constant kind) entries.now }
{
    let mut sum: i128 = 0;
    for entry in entries.iter() {
        sum += constant_of(kind, entry);
    }
    sum
}

/// The other terms of the bit form of a model, summed set by set.
pub(crate) fn model_table(
    alloc: Global,
    nodes: usize,
    kind: Kind,
    entries: &EntryList,
) -> Result<Table, NoMemory>
    requires placed { All (IsPlaced nodes) entries.now }
    requires small { weight_total entries.now ≤ 2 ^ 121 }
    ensures { IfOk result (λ table. table.content
        ≡ record { width = nodes; terms = with_additions [] (sets_of kind entries.now) }) }
{
    let mut terms = GatheredTerms::new(alloc, nodes);
    for entry in entries.iter() {
        add_entry(&mut terms, kind, entry)?;
    }
    Ok(terms.into_table())
}

/// Adds the bound and all lines, multiplied out, to terms of which there are none. Both lists serve
/// for each line.
fn add_all(
    terms: &mut GatheredTerms,
    line: &mut Vec<Literal>,
    list: &mut Vec<Literal>,
    certificate: &Certificate,
) -> Result<(), NoMemory>
    requires few { certificate_fault certificate.now ≡ None }
    requires nodes { AreOfNodes terms.old.width certificate.now }
    requires none { terms.old.terms ≡ [] }
    requires list { list.old.items ≡ [] }
    ensures { OnOk result (terms.new
        ≡ record { width = terms.old.width; terms = certificate_terms certificate.now }) }
{
    add(terms, &[], certificate.bound)?;
    for LineRef {
        literals,
        coefficient,
        ..
    } in certificate.lines.iter() {
        literals.copy_into(line)?;
        add_plain_terms(terms, list, line, &coefficient)?;
    }
    Ok(())
}

/// The bit form of a certificate: its bound, and its lines multiplied out, summed set by set.
pub(crate) fn certificate_table(
    alloc: Global,
    nodes: usize,
    certificate: &Certificate,
) -> Result<Table, NoMemory>
    requires few { certificate_fault certificate.now ≡ None }
    requires nodes { AreOfNodes nodes certificate.now }
    ensures { IfOk result (λ table. table.content
        ≡ record { width = nodes; terms = certificate_list certificate.now }) }
{
    let mut terms = GatheredTerms::new(alloc, nodes);
    let mut line = Vec::new(alloc);
    let mut list = Vec::new(alloc);
    add_all(&mut terms, &mut line, &mut list, certificate)?;
    Ok(terms.into_table())
}
