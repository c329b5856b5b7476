//! A certificate, read from a file, and the state that it proves.
ghost use Rattle.std.specs.Prelude.{◌≡◌, ◌≤◌, ◌^◌, [], None, Some, length, IfOk, IfErr};
ghost use Rattle.bits_model.specs.Output.{weight_total};
ghost use Rattle.command_words.specs.declared.names.Which.{Which};
ghost use Rattle.command_words.specs.Names.{ask_file, if_named, name_of};
ghost use Rattle.posiform_check.specs.BitForms.{CertificateContent};
ghost use Rattle.posiform_check.specs.Certificates.{certificate_fault, AreOfNodes};
ghost use Rattle.posiform_check.specs.FirstFaults.{proof_fault};
ghost use Rattle.run_steps.specs.Steps.{Meets, certified, certifying, ends, limits_end, proof_end};
ghost use Rattle.run_steps.specs.Statuses.{ended, IsReading, IsUnproved};
ghost use Rattle.run_steps.specs.Causes.{AreFilesOf, MeetsHeld};

use crate::from_file::{FromFile, take_named};
use crate::status::Status;
use crate::steps::{read_into, take_bytes};
use bits_model::OutputModel;
use command_words::{Command, Name, Which};
use edge_io::Files;
use posiform_check::{Certificate, ProofAnswer, check_certificate, prove, read_certificate};
use std::alloc::Global;

/// A certificate within its limits, or the status of the limit that it passes.
fn within_limits(certificate: Certificate) -> Result<Certificate, Status>
    ensures step { Meets (λ c. c) result
        (ends (limits_end Which.Certificate certificate (certificate_fault certificate))) }
    ensures same { IfOk result (λ c. c ≡ certificate) }
    ensures accepted { IfOk result (λ c. certificate_fault c ≡ None) }
{
    match check_certificate(&certificate) {
        Ok(()) => Ok(certificate),
        Err(fault) => Err(Status::Limit(Which::Certificate, fault.kind, fault.number)),
    }
}

/// A certificate within its limits, for a model of so many nodes.
impl FromFile for Certificate {
    type Context = u32;

    ghost which = { Which.Certificate };

    ghost Content = { CertificateContent };

    ghost view = { λ c. c };

    ghost steps = { λ nodes held name. certifying held name nodes };

    ghost fits = { λ nodes c. AreOfNodes nodes c × (certificate_fault c ≡ None) };

    #[tactic(auto, unfolding(crate::specs::Steps::certifying), using(crate::proofs::Taking::judged_meets))]
    fn take<F: Files>(
        alloc: Global,
        name: &str,
        nodes: u32,
        files: &mut F,
    ) -> Result<Certificate, Status> {
        let text = take_bytes(alloc, name, Which::Certificate, files)?;
        let read = read_certificate(alloc, &text, nodes);
        drop(text);
        let certificate = read_into(read, Which::Certificate)?;
        within_limits(certificate)
    }
}

/// The bits of a state, where a certificate proves that it is least, or the status of the first fault.
fn proved(
    alloc: Global,
    model: &OutputModel,
    certificate: &Certificate,
    bits: Vec<bool>,
) -> Result<Vec<bool>, Status>
    requires small { weight_total model.now.entries ≤ 2 ^ 121 }
    requires accepted { certificate_fault certificate.now ≡ None }
    requires nodes { AreOfNodes model.now.nodes certificate.now }
    requires width { length bits.items ≡ model.now.nodes }
    ensures step { Meets (λ b. b.items) result
        (ends (proof_end bits.items (proof_fault model.now certificate.now bits.items))) }
    ensures same { IfOk result (λ b. b ≡ bits) }
    ensures refusal { IfErr result IsUnproved }
{
    match prove(alloc, model, certificate, &bits) {
        Ok(_) => Ok(bits),
        Err(ProofAnswer::Fault(fault)) => Err(Status::NotProved(fault)),
        Err(ProofAnswer::NoMemory) => Err(Status::NoMemory),
    }
}

/// The bits of a state, where the certificate of this name proves that it is least.
pub fn take_proof<F: Files>(
    alloc: Global,
    command: &Command<'_>,
    name: &Name<'_>,
    model: &OutputModel,
    bits: Vec<bool>,
    files: &mut F,
) -> Result<Vec<bool>, Status>
    requires asked { ask_file command.now.ask Which.Certificate ≡ Some name.now }
    requires small { weight_total model.now.entries ≤ 2 ^ 121 }
    requires width { length bits.items ≡ model.now.nodes }
    ensures step { MeetsHeld (F.held files.old) (if_named command.now Which.Certificate)
        (λ b. b.items) result (λ held. certified held name.now model.now bits.items) }
    ensures same { IfOk result (λ b. b ≡ bits) }
    ensures files { AreFilesOf (name_of command.now) []
        (if_named command.now Which.Certificate) (ended result)
        (F.counts files.old) (F.counts files.new) }
    ensures refusal { IfErr result IsReading }
{
    let certificate = take_named::<Certificate, F>(alloc, command, name, model.nodes, files)?;
    proved(alloc, model, &certificate, bits)
}
