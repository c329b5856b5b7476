//! How strongly the qubits of each chain are tied.
ghost use Rattle.std.specs.Prelude.{◌≡◌, ◌+◌, ◌<◌, ◌≤◌, ◌^◌, ◌∷◌, [], ℕ, All, IfOk, length, map, unsigned_abs};
ghost use Rattle.std.specs.List.{slice_index_or, slice_set};
ghost use Rattle.bits_model.specs.Output.{weight_total};
ghost use Rattle.quad_form.specs.Quads.{IsCoupler};
ghost use Rattle.embedding_check.specs.Embeddings.{IsEmbedding};
ghost use Rattle.chain_layer.specs.Image.{couplings_at, nodes_of, strength};

use base::NoMemory;
use bits_model::{CouplerList, Entry};
use embedding_check::Embedded;
use std::alloc::Global;

/// One more than the size of each field.
fn field_strengths(alloc: Global, fields: &[i128]) -> Result<Vec<u128>, NoMemory>
    ensures { IfOk result (λ v. v.items ≡ map (λ h. unsigned_abs h + 1) fields.now) }
{
    let mut strengths = Vec::with_capacity(alloc, fields.len())?;
    for field in fields {
        strengths.push(field.unsigned_abs() + 1)?;
    }
    Ok(strengths)
}

/// Adds to the strength of a node.
fn raise(strengths: &mut [u128], node: u32, size: u128)
    requires within { node < length strengths.old }
    requires small { slice_index_or strengths.old node 0 + size < 2 ^ 127 }
    ensures { strengths.new
        ≡ slice_set strengths.old node (slice_index_or strengths.old node 0 + size) }
{
    strengths[node as usize] += size;
}

/// Adds the size of a coupling to what both of its ends have.
pub fn raise_ends(sums: &mut [u128], coupling: &Entry)
    requires ends { IsCoupler (length sums.old) coupling.now }
    requires small { (i : ℕ) → i < length sums.old
        → slice_index_or sums.old i 0 + unsigned_abs coupling.now.weight < 2 ^ 127 }
    ensures length { length sums.new ≡ length sums.old }
    ensures sums { (i : ℕ) → i < length sums.old → slice_index_or sums.new i 0
        ≡ slice_index_or sums.old i 0 + couplings_at i (coupling.now ∷ []) }
{
    let size = coupling.weight.unsigned_abs();
    raise(sums, coupling.first, size);
    raise(sums, coupling.second, size);
}

/// Adds the size of each coupling to both of its nodes.
fn add_couplings(strengths: &mut [u128], couplings: &CouplerList)
    requires within { All (IsCoupler (length strengths.old)) couplings.now }
    requires small { (i : ℕ)
        → slice_index_or strengths.old i 0 + weight_total couplings.now < 2 ^ 127 }
    ensures length { length strengths.new ≡ length strengths.old }
    ensures sums { (i : ℕ) → i < length strengths.old → slice_index_or strengths.new i 0
        ≡ slice_index_or strengths.old i 0 + couplings_at i couplings.now }
{
    for coupling in couplings.iter() {
        raise_ends(strengths, &coupling);
    }
}

/// The strength of the ties of each chain.
pub fn strengths(alloc: Global, source: &Embedded) -> Result<Vec<u128>, NoMemory>
    ensures strengths { IfOk result (λ v. v.items
        ≡ map (strength source.now) (nodes_of source.now)) }
    ensures kept { IsEmbedding source.now }
{
    let form = source.ising();
    let mut strengths = field_strengths(alloc, form.fields.as_slice())?;
    add_couplings(&mut strengths, &form.couplings);
    Ok(strengths)
}
