//! The form on the qubits, with ties that are as strong as the lighter of their sides asks.
ghost use Rattle.std.specs.Prelude.{◌≡◌, ◌+◌, ◌*◌, ◌≤◌, ◌^◌, ◌++◌, IfOk, OnOk, length, map};
ghost use Rattle.std.specs.List.{range_with_len};
ghost use Rattle.embedding_check.specs.Embeddings.{IsEmbedding};
ghost use Rattle.ising_form.specs.Isings.{ising_total};
ghost use Rattle.chain_layer.specs.Image.{all_shares, field_at, placed};
ghost use Rattle.cut_chains.specs.Sides.{weight_of};
ghost use Rattle.cut_chains.specs.CutImage.{cut_cost, cut_image, cut_ties};

use crate::ties::{cost_from, tie_chains};
use crate::weights::weights_of;
use base::NoMemory;
use chain_layer::{placed, shared_fields};
use embedding_check::Embedded;
use ising_form::Ising;
use pair_sums::{Pairs, in_order};
use quad_form::NumberList;
use std::alloc::Global;

/// Appends the ties of all chains, where these are the weights of the qubits.
fn add_ties(
    alloc: Global,
    made: &mut Pairs,
    source: &Embedded,
    sums: &mut [u128],
) -> Result<(), NoMemory>
    requires kept { IsEmbedding source.now }
    requires sums { sums.old ≡ map (weight_of source.now) (range_with_len 0 source.now.qubits) }
    ensures { OnOk result (made.new ≡ made.old ++ cut_ties source.now) }
{
    let qubits = source.qubits() as usize;
    let mut up = vec![in alloc; 0; qubits]?;
    let mut seen = vec![in alloc; false; qubits]?;
    let mut order = Vec::new(alloc);
    let mut path = Vec::new(alloc);
    tie_chains(
        made, source, sums, &mut up, &mut seen, &mut order, &mut path,
    )
}

/// The placed couplings and the ties of all chains, and how many are placed.
fn couplings_of(
    alloc: Global,
    source: &Embedded,
    fields: &[i128],
) -> Result<(Pairs, usize), NoMemory>
    requires kept { IsEmbedding source.now }
    requires fields { fields.now
        ≡ map (field_at (all_shares source.now)) (range_with_len 0 source.now.qubits) }
    ensures made { IfOk result (λ made. made.0
        ≡ placed source.now.ising.couplings source.now.places ++ cut_ties source.now) }
    ensures count { IfOk result (λ made. made.1
        ≡ length (placed source.now.ising.couplings source.now.places)) }
{
    let mut made = placed(
        alloc,
        &source.ising().couplings,
        source.places().as_slice(),
        source.qubits(),
    )?;
    let count = made.len();
    let mut sums = weights_of(alloc, source, fields, &made)?;
    add_ties(alloc, &mut made, source, &mut sums)?;
    Ok((made, count))
}

/// The form on the qubits, and what its ties cost where none is broken.
pub fn image_of(alloc: Global, source: &Embedded) -> Result<(Ising, u128), NoMemory>
    requires total { (ising_total source.now.ising + 1) * 2 ^ 21 ≤ 2 ^ 124 }
    ensures image { IfOk result (λ made. made.0 ≡ cut_image source.now) }
    ensures cost { IfOk result (λ made. made.1 ≡ cut_cost source.now) }
    ensures kept { IsEmbedding source.now }
{
    let constant = source.ising().constant;
    let fields = shared_fields(alloc, source)?;
    let (gathered, count) = couplings_of(alloc, source, &fields)?;
    let cost = cost_from(&gathered, count);
    let couplings = in_order(alloc, gathered)?;
    let target = Ising {
        constant,
        fields: NumberList::new(fields),
        couplings,
    };
    Ok((target, cost))
}
