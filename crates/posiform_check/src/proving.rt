//! Whether a certificate proves a state of a model.
ghost use Rattle.std.specs.Prelude.{◌≡◌, ◌-ℤ◌, ◌≤◌, ◌^◌, [], None, length, unsigned_abs, IfOk, IfErr};
ghost use Rattle.base.specs.Costs.{energy};
ghost use Rattle.bits_model.specs.Output.{form_of, weight_total};
ghost use Rattle.posiform_check.specs.BitForms.{certificate_list, model_list};
ghost use Rattle.posiform_check.specs.Certificates.{certificate_fault, first_negative, AreOfNodes, IsRefusal};
ghost use Rattle.posiform_check.specs.Differences.{difference};
ghost use Rattle.posiform_check.specs.FirstFaults.{proof_fault, IsFirstFault};
ghost use Rattle.posiform_check.specs.Proved.{Proves};

use crate::certificate::Certificate;
use crate::comparing::first_difference;
use crate::faults::{ProofAnswer, ProofFault};
use crate::forms::{certificate_table, model_constant, model_table};
use crate::lines::LineList;
use crate::quick::find_same;
use crate::set_sums::Unsettled;
use base::NoMemory;
use bits_model::{OutputModel, total_energy};
use std::alloc::Global;

/// The line of the text of the first line with a negative coefficient.
fn first_negative(lines: &LineList) -> Option<u64>
    ensures { result ≡ first_negative lines.now }
{
    for line in lines.iter() {
        if line.coefficient < 0 {
            return Some(line.line);
        }
    }
    None
}

/// The first difference of a model's bit form from a certificate's.
fn difference(
    alloc: Global,
    model: &OutputModel,
    certificate: &Certificate,
) -> Result<Option<(i128, i128)>, NoMemory>
    requires small { weight_total model.now.entries ≤ 2 ^ 121 }
    requires accepted { certificate_fault certificate.now ≡ None }
    requires nodes { AreOfNodes model.now.nodes certificate.now }
    ensures { IfOk result (λ found. found
        ≡ difference (model_list model.now) (certificate_list certificate.now)) }
{
    match find_same(alloc, model, certificate) {
        Ok(()) => return Ok(None),
        Err(Unsettled::NoMemory) => return Err(NoMemory),
        Err(Unsettled::NoPlace) => {}
    }
    let nodes = model.nodes as usize;
    let constant = model_constant(model.kind, &model.entries);
    let form = model_table(alloc, nodes, model.kind, &model.entries)?;
    let other = certificate_table(alloc, nodes, certificate)?;
    Ok(first_difference(constant, &form, &other))
}

/// How far an energy is above a bound.
fn above(energy: i128, bound: i128) -> i128
    requires energy { unsigned_abs energy ≤ 2 ^ 124 }
    requires bound { unsigned_abs bound ≤ 2 ^ 124 }
    ensures { result ≡ energy -ℤ bound }
{
    energy - bound
}

/// The energy of a state of a model, where the certificate proves the state; else the first fault:
/// a negative line, a set whose coefficients differ, or an energy above the bound.
///
/// The forms are one where all sums of what the one has more cancel. Where that does not show, both
/// are made into tables, each by one sort, and compared from the least set on.
pub fn prove(
    alloc: Global,
    model: &OutputModel,
    certificate: &Certificate,
    y: &[bool],
) -> Result<i128, ProofAnswer>
    requires small { weight_total model.now.entries ≤ 2 ^ 121 }
    requires accepted { certificate_fault certificate.now ≡ None }
    requires nodes { AreOfNodes model.now.nodes certificate.now }
    requires width { length y.now ≡ model.now.nodes }
    ensures energy { IfOk result (λ e. e ≡ energy (form_of model.now) y.now) }
    ensures proved { IfOk result (λ _. Proves model.now certificate.now y.now) }
    ensures refused { IfErr result (IsRefusal model.now certificate.now y.now) }
    ensures faultless { IfOk result (λ _. proof_fault model.now certificate.now y.now ≡ None) }
    ensures first { IfErr result (IsFirstFault model.now certificate.now y.now) }
{
    if let Some(line) = first_negative(&certificate.lines) {
        return Err(ProofAnswer::Fault(ProofFault::Negative(line)));
    }
    if let Some((ours, theirs)) = difference(alloc, model, certificate)? {
        return Err(ProofAnswer::Fault(ProofFault::Differs(ours, theirs)));
    }
    let energy = total_energy(model.kind, y, &model.entries);
    if energy != certificate.bound {
        return Err(ProofAnswer::Fault(ProofFault::NotZero(above(energy, certificate.bound))));
    }
    Ok(energy)
}
