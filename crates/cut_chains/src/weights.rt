//! How much each qubit weighs: the sizes of its field and of the placed couplings that end at it.
ghost use Rattle.std.specs.Prelude.{◌≡◌, ◌+◌, ◌<◌, ◌^◌, ℕ, All, IfOk, length, map, unsigned_abs};
ghost use Rattle.std.specs.List.{range_with_len, slice_index_or};
ghost use Rattle.bits_model.specs.Output.{weight_total};
ghost use Rattle.quad_form.specs.Quads.{IsCoupler};
ghost use Rattle.chain_layer.specs.Image.{couplings_at, all_shares, field_at, placed};
ghost use Rattle.embedding_check.specs.Embeddings.{IsEmbedding};
ghost use Rattle.cut_chains.specs.Sides.{weight_of};

use base::NoMemory;
use chain_layer::raise_ends;
use embedding_check::Embedded;
use pair_sums::Pairs;
use std::alloc::Global;

/// The size of each field.
fn field_weights(alloc: Global, fields: &[i128]) -> Result<Vec<u128>, NoMemory>
    ensures { IfOk result (λ v. v.items ≡ map (λ h. unsigned_abs h) fields.now) }
{
    let mut weights = Vec::with_capacity(alloc, fields.len())?;
    for field in fields {
        weights.push(field.unsigned_abs())?;
    }
    Ok(weights)
}

/// Adds the size of each coupling to both of its qubits.
fn add_couplings(weights: &mut [u128], couplings: &Pairs)
    requires within { All (IsCoupler (length weights.old)) couplings.now }
    requires small { (i : ℕ)
        → slice_index_or weights.old i 0 + weight_total couplings.now < 2 ^ 127 }
    ensures length { length weights.new ≡ length weights.old }
    ensures sums { (i : ℕ) → i < length weights.old → slice_index_or weights.new i 0
        ≡ slice_index_or weights.old i 0 + couplings_at i couplings.now }
{
    for k in 0..couplings.len() {
        raise_ends(weights, &couplings.at(k));
    }
}

/// How much each qubit weighs.
pub fn weights_of(
    alloc: Global,
    source: &Embedded,
    fields: &[i128],
    couplings: &Pairs,
) -> Result<Vec<u128>, NoMemory>
    requires kept { IsEmbedding source.now }
    requires fields { fields.now
        ≡ map (field_at (all_shares source.now)) (range_with_len 0 source.now.qubits) }
    requires placed { couplings.now ≡ placed source.now.ising.couplings source.now.places }
    ensures { IfOk result (λ v. v.items
        ≡ map (weight_of source.now) (range_with_len 0 source.now.qubits)) }
{
    let mut weights = field_weights(alloc, fields)?;
    add_couplings(&mut weights, couplings);
    Ok(weights)
}
