//! Whether the forms of a model and of a certificate are one, by sums of what the one has more than
//! the other.
//!
//! A yes is sure. Without it the forms may still be one.
ghost use Rattle.std.specs.Prelude.{◌≡◌, ◌*ℤ◌, ◌+ℤ◌, ◌∷◌, ◌++◌, [], List, pos, neg_ℤ, None, IfOk, OnOk};
ghost use Rattle.std.specs.List.{flat_map};
ghost use Rattle.literal_lists.specs.declared.literal.Literal.{Literal};
ghost use Rattle.term_table.specs.Terms.{coefficient_of, Term};
ghost use Rattle.term_table.specs.Tables.{with_more, AreAdditions};
ghost use Rattle.term_table.specs.MultipliedOut.{plain_terms};
ghost use Rattle.posiform_check.specs.BitForms.{
  bit_sets,
  certificate_terms,
  coupling_sets,
  entry_terms,
  line_terms,
  model_terms,
  node_set,
  AreSameForms,
};
ghost use Rattle.posiform_check.specs.Certificates.{certificate_fault, AreOfNodes};
ghost use Rattle.posiform_check.specs.Sums.{HasMore, HasNone};

use crate::certificate::Certificate;
use crate::lines::LineRef;
use crate::set_sums::{SetSums, Unsettled, opposite, sum};
use bits_model::{Entry, EntryList, Kind, OutputModel};
use literal_lists::Literal;
use normal_form::add_plain_terms;
use std::alloc::Global;
use term_table::{GatheredTerms, Table};

/// Takes away an entry on bits.
fn take_bits(sums: &mut SetSums, entry: Entry) -> Result<(), Unsettled>
    ensures { OnOk result (HasMore sums.new (bit_sets entry) sums.old) }
{
    let Entry {
        first,
        second,
        weight,
    } = entry;
    let less = opposite(weight)?;
    if first == second {
        sums.add_node(u64::from(first), less)
    } else {
        sums.add_pair(u64::from(first), u64::from(second), less)
    }
}

/// Takes away a coupling of spins.
fn take_coupling(sums: &mut SetSums, entry: Entry) -> Result<(), Unsettled>
    ensures { OnOk result (HasMore sums.new
        (([], entry.weight) ∷ coupling_sets entry.first entry.second entry.weight) sums.old) }
{
    let Entry {
        first,
        second,
        weight,
    } = entry;
    let less = opposite(weight)?;
    let twice = sum(weight, weight)?;
    let twice_less = sum(less, less)?;
    sums.add_constant(less)?;
    sums.add_node(u64::from(first), twice)?;
    sums.add_node(u64::from(second), twice)?;
    sums.add_pair(
        u64::from(first),
        u64::from(second),
        sum(twice_less, twice_less)?,
    )
}

/// Takes away a field of a spin.
fn take_field(sums: &mut SetSums, node: u32, field: i128) -> Result<(), Unsettled>
    ensures { OnOk result (HasMore sums.new
        (([], neg_ℤ field) ∷ (node_set node, pos 2 *ℤ field) ∷ []) sums.old) }
{
    let less = opposite(field)?;
    sums.add_constant(field)?;
    sums.add_node(u64::from(node), sum(less, less)?)
}

/// Takes away an entry of this kind.
fn take_entry(sums: &mut SetSums, kind: Kind, entry: Entry) -> Result<(), Unsettled>
    ensures { OnOk result (HasMore sums.new (entry_terms kind entry) sums.old) }
{
    match kind {
        Kind::Qubo => take_bits(sums, entry),
        Kind::Ising | Kind::Qubits(_) => {
            if entry.first == entry.second {
                take_field(sums, entry.first, entry.weight)
            } else {
                take_coupling(sums, entry)
            }
        }
    }
}

/// Takes away all entries of a model.
fn take_entries(sums: &mut SetSums, kind: Kind, entries: &EntryList) -> Result<(), Unsettled>
    ensures { OnOk result (HasMore sums.new (flat_map (entry_terms kind) entries.now) sums.old) }
{
    for entry in entries.iter() {
        take_entry(sums, kind, entry)?;
    }
    Ok(())
}

/// Adds all terms of a table.
fn add_table(sums: &mut SetSums, table: &Table) -> Result<(), Unsettled>
    ensures { OnOk result (HasMore sums.old table.now.content.terms sums.new) }
{
    for (set, coefficient) in table.terms() {
        sums.add_set(set, coefficient)?;
    }
    Ok(())
}

/// Adds a line, multiplied out, where it has at most two literals.
fn add_short(sums: &mut SetSums, line: &[Literal], coefficient: i128) -> Result<(), Unsettled>
    ensures { OnOk result (HasMore sums.old (plain_terms line.now coefficient) sums.new) }
{
    match line {
        [] => sums.add_constant(coefficient),
        [only] => sums.add_one(*only, coefficient),
        [first, second] => sums.add_two(*first, *second, coefficient),
        _ => Err(Unsettled::NoPlace),
    }
}

/// Adds a line, multiplied out: to the sums, where it has at most two literals, and else to the
/// gathered terms. The list is empty before and after.
fn add_line(
    sums: &mut SetSums,
    long: &mut GatheredTerms,
    list: &mut Vec<Literal>,
    line: &[Literal],
    coefficient: i128,
) -> Result<(), Unsettled>
    requires list { list.old.items ≡ [] }
    requires fits { AreAdditions (with_more long.old (plain_terms line.now coefficient)) }
    ensures added { OnOk result (HasMore (sums.old ++ long.old.terms)
        (plain_terms line.now coefficient) (sums.new ++ long.new.terms)) }
    ensures left { OnOk result ((rest : List Term)
        → AreAdditions (with_more long.old (plain_terms line.now coefficient ++ rest))
        → AreAdditions (with_more long.new rest)) }
    ensures list { OnOk result (list.new.items ≡ []) }
{
    if line.len() <= 2 {
        add_short(sums, line, coefficient)?;
    } else {
        add_plain_terms(long, list, line, &coefficient)?;
    }
    Ok(())
}

/// Adds all lines, multiplied out: those of more than two literals to the gathered terms, of which
/// there are none before. Both lists serve for each line.
fn add_each_line(
    sums: &mut SetSums,
    long: &mut GatheredTerms,
    line: &mut Vec<Literal>,
    list: &mut Vec<Literal>,
    certificate: &Certificate,
) -> Result<(), Unsettled>
    requires few { certificate_fault certificate.now ≡ None }
    requires nodes { AreOfNodes long.old.width certificate.now }
    requires none { long.old.terms ≡ [] }
    requires list { list.old.items ≡ [] }
    ensures { OnOk result (HasMore sums.old (flat_map line_terms certificate.now.lines)
        (sums.new ++ long.new.terms)) }
{
    for LineRef {
        literals,
        coefficient,
        ..
    } in certificate.lines.iter() {
        literals.copy_into(line)?;
        add_line(sums, long, list, line, coefficient)?;
    }
    Ok(())
}

/// Adds all lines, multiplied out. Those of more than two literals are summed in a table first, for
/// most sets of three nodes cancel.
fn add_lines(
    alloc: Global,
    sums: &mut SetSums,
    nodes: usize,
    certificate: &Certificate,
) -> Result<(), Unsettled>
    requires few { certificate_fault certificate.now ≡ None }
    requires nodes { AreOfNodes nodes certificate.now }
    ensures { OnOk result (HasMore sums.old (flat_map line_terms certificate.now.lines) sums.new) }
{
    let mut long = GatheredTerms::new(alloc, nodes);
    let mut line = Vec::new(alloc);
    let mut list = Vec::new(alloc);
    add_each_line(sums, &mut long, &mut line, &mut list, certificate)?;
    add_table(sums, &long.into_table())
}

/// Adds the form of a certificate to no sums, and takes away that of a model.
fn add_difference(
    alloc: Global,
    sums: &mut SetSums,
    model: &OutputModel,
    certificate: &Certificate,
) -> Result<(), Unsettled>
    requires none { HasNone sums.old }
    requires accepted { certificate_fault certificate.now ≡ None }
    requires nodes { AreOfNodes model.now.nodes certificate.now }
    ensures { OnOk result
        (HasMore sums.new (model_terms model.now) (certificate_terms certificate.now)) }
{
    sums.add_constant(certificate.bound)?;
    add_lines(alloc, sums, model.nodes as usize, certificate)?;
    take_entries(sums, model.kind, &model.entries)
}

/// Ends well only where the model and the certificate have one form.
pub(crate) fn find_same(
    alloc: Global,
    model: &OutputModel,
    certificate: &Certificate,
) -> Result<(), Unsettled>
    requires accepted { certificate_fault certificate.now ≡ None }
    requires nodes { AreOfNodes model.now.nodes certificate.now }
    ensures { IfOk result
        (λ _. AreSameForms (model_terms model.now) (certificate_terms certificate.now)) }
{
    let mut sums = SetSums::new(alloc, model.nodes as usize)?;
    add_difference(alloc, &mut sums, model, certificate)?;
    if sums.cancel()? {
        Ok(())
    } else {
        Err(Unsettled::NoPlace)
    }
}
