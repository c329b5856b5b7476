//! The models of forms that are embedded, each chain tied.
ghost use Rattle.std.specs.Prelude.{◌≡◌, ◌+◌, ◌*◌, ◌<◌, ◌≤◌, ◌^◌, ◌≤ℤ◌, pos, length, unsigned_abs, IfOk};
ghost use Rattle.ising_form.specs.Isings.{ising_total};
ghost use Rattle.bits_model.specs.Output.{qubits_of};
ghost use Rattle.embedding_check.specs.Embeddings.{IsEmbedding};
ghost use Rattle.model_pipeline.specs.QubitModels.{
  image_tied,
  offset_tied,
  qubit_model,
};

use crate::scaled::Scaled;
use crate::written::chained_model;
use base::{Figures, NoMemory, UnitChoice};
use bits_model::{ChainList, Graph, Kind, OutputModel};
use chain_layer::Chains;
use command_words::ChainStrength;
use cut_chains::CutChains;
use embedding_check::Embedded;
use ising_form::Ising;
use std::alloc::Global;

/// An embedded form that is given up on its qubits, each chain tied: the form, its chains, and how
/// much is added to the energies.
fn tied(
    alloc: Global,
    embedded: Embedded,
    ties: ChainStrength,
) -> Result<(Ising, ChainList, i128), NoMemory>
    requires { (ising_total embedded.ising + 1) * 2 ^ 21 ≤ 2 ^ 124 }
    ensures form { IfOk result (λ made. made.0 ≡ image_tied ties embedded) }
    ensures chains { IfOk result (λ made. made.1 ≡ embedded.chains) }
    ensures offset { IfOk result (λ made. made.2 ≡ offset_tied ties embedded) }

    // What the laws of the model rest on.
    ensures kept { IfOk result (λ _. IsEmbedding embedded) }
{
    match ties {
        ChainStrength::Choi => {
            let made = Chains.lower_owned(alloc, embedded)?;
            Ok((made.target, made.link.chains, made.offset))
        }
        ChainStrength::Cut => {
            let made = CutChains.lower_owned(alloc, embedded)?;
            Ok((made.target, made.link.chains, made.offset))
        }
    }
}

/// The model of an embedded form on the qubits of its graph. The model has the chains of the
/// embedding.
pub fn embedded_model(
    alloc: Global,
    embedded: Embedded,
    own: u32,
    figures: Figures,
    unit: UnitChoice,
    ties: ChainStrength,
    graph: Graph,
) -> Result<OutputModel, NoMemory>
    requires qubits { embedded.qubits ≡ qubits_of graph }
    requires own { own ≤ length embedded.ising.fields }
    requires total { (ising_total embedded.ising + 1) * 2 ^ 21 ≤ 2 ^ 124 }
    requires scale { pos 1 ≤ℤ figures.scale }
    requires offset { unsigned_abs figures.offset < 2 ^ 122 }
    requires threshold { unsigned_abs figures.threshold < 2 ^ 122 }
    ensures model { IfOk result (λ m.
        m ≡ qubit_model unit ties embedded own figures (Kind.Qubits graph)) }

    // What the laws of the model rest on.
    ensures kept { IfOk result (λ _. IsEmbedding embedded) }
{
    let (target, chains, offset) = tied(alloc, embedded, ties)?;
    let form = Scaled {
        target,
        figures: figures.after(1, offset),
    };
    chained_model(alloc, form, own, unit, Kind::Qubits(graph), chains)
}
