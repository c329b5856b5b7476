//! The state that stands for an assignment.
ghost use Rattle.std.specs.Prelude.{◌≡◌, ◌<◌, ◌||◌, ◌&&◌, ℕ, false, All, IfOk, length};
ghost use Rattle.std.specs.List.{slice_index_or};
ghost use Rattle.bits_model.specs.Walks.{is_in};
ghost use Rattle.embedding_check.specs.Embeddings.{IsEmbedding};
ghost use Rattle.chain_layer.specs.Image.{extension, on_chains};

use base::NoMemory;
use bits_model::ChainList;
use embedding_check::Embedded;
use ising_form::mark;
use std::alloc::Global;

/// Sets all qubits of a chain, if the bit of its node is 1.
fn mark_where(y: &mut [bool], bit: bool, chain: &[u32])
    requires { All (λ q. q < length y.old) chain.now }
    ensures length { length y.new ≡ length y.old }
    ensures bits { (q : ℕ) → slice_index_or y.new q false
        ≡ (slice_index_or y.old q false || (bit && is_in chain.now q)) }
{
    if bit {
        mark(y, chain);
    }
}

/// Each qubit has the bit of its node, and a qubit in no chain has 0.
pub fn on_chains(
    alloc: Global,
    chains: &ChainList,
    qubits: u32,
    x: &[bool],
) -> Result<Vec<bool>, NoMemory>
    requires width { length x.now ≡ length chains.now }
    requires within { All (λ chain. All (λ q. q < qubits) chain) chains.now }
    ensures { IfOk result (λ y. y.items ≡ on_chains chains.now qubits x.now) }
{
    let mut y = vec![in alloc; false; qubits as usize]?;
    for i in 0..x.len() {
        mark_where(&mut y, x[i], chains.list(i));
    }
    Ok(y)
}

/// Each qubit has the bit of its node, and a qubit in no chain has 0.
pub fn extended(alloc: Global, source: &Embedded, x: &[bool]) -> Result<Vec<bool>, NoMemory>
    requires kept { IsEmbedding source.now }
    requires width { length x.now ≡ length source.now.ising.fields }
    ensures { IfOk result (λ y. y.items ≡ extension source.now x.now) }
{
    on_chains(alloc, source.chains(), source.qubits(), x)
}
