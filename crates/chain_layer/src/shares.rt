//! The fields of nodes, split over their chains.
ghost use Rattle.std.specs.Prelude.{◌≡◌, ◌≢◌, ◌+◌, ◌*◌, ◌<◌, ◌≤◌, ◌^◌, [], All, IfOk, fold, length, map, pos, unsigned_abs};
ghost use Rattle.std.specs.List.{range_with_len};
ghost use Rattle.std.specs.Int.{int_div_euclid, int_rem_euclid};
ghost use Rattle.chain_layer.specs.Image.{all_shares, equal_shares, field_at, field_entry, shares};
ghost use Rattle.chain_layer.specs.Steps.{added, sizes_of};

use base::NoMemory;
use embedding_check::Embedded;
use std::alloc::Global;

/// Adds a share to the field of a qubit.
fn add_share(fields: &mut [i128], qubit: u32, share: i128)
    requires within { qubit < length fields.old }
    requires small { sizes_of fields.old + unsigned_abs share ≤ 2 ^ 124 }
    ensures { fields.new ≡ added fields.old (field_entry qubit share) }
{
    fields[qubit as usize] += share;
}

/// Adds a share to the field of each of these qubits.
fn add_each(fields: &mut [i128], qubits: &[u32], share: i128)
    requires within { All (λ q. q < length fields.old) qubits.now }
    requires small { sizes_of fields.old + length qubits.now * unsigned_abs share ≤ 2 ^ 124 }
    ensures added { fields.new ≡ fold added fields.old (equal_shares qubits.now share) }
    ensures length { length fields.new ≡ length fields.old }
    ensures sizes { sizes_of fields.new
        ≤ sizes_of fields.old + length qubits.now * unsigned_abs share }
{
    for qubit in qubits {
        add_share(fields, *qubit, share);
    }
}

/// The share of a field on a chain of so many qubits, and how many of these get one more. A field of
/// at most 64 bits is divided as such.
fn divided(field: i128, length: usize) -> (i128, usize)
    requires { 0 < length }
    ensures share { result.0 ≡ int_div_euclid field (pos length) }
    ensures rest { result.1 ≡ unsigned_abs (int_rem_euclid field (pos length)) }
{
    if let Ok(field) = i64::try_from(field) {
        if let Ok(length) = i64::try_from(length) {
            return (
                i128::from(field.div_euclid(length)),
                field.rem_euclid(length) as usize,
            );
        }
    }
    let length = length as i128;
    (field.div_euclid(length), field.rem_euclid(length) as usize)
}

/// Splits a field over a chain: it is the share times the length, and a rest. The first qubits, as
/// many as the rest, get one more.
fn add_shares(fields: &mut [i128], chain: &[u32], field: i128)
    requires filled { chain.now ≢ [] }
    requires within { All (λ q. q < length fields.old) chain.now }
    requires small { sizes_of fields.old + unsigned_abs field ≤ 2 ^ 124 }
    ensures added { fields.new ≡ fold added fields.old (shares chain.now field) }
    ensures length { length fields.new ≡ length fields.old }
    ensures sizes { sizes_of fields.new ≤ sizes_of fields.old + unsigned_abs field }
{
    let (share, rest) = divided(field, chain.len());
    let (more, others) = chain.split_at(rest);
    add_each(fields, more, share + 1);
    add_each(fields, others, share);
}

/// The fields of all qubits.
pub fn shared_fields(alloc: Global, source: &Embedded) -> Result<Vec<i128>, NoMemory>
    ensures { IfOk result (λ v. v.items
        ≡ map (field_at (all_shares source.now)) (range_with_len 0 source.now.qubits)) }
{
    let mut fields = vec![in alloc; 0; source.qubits() as usize]?;
    for (i, field) in source.ising().fields.as_slice().iter().enumerate() {
        add_shares(&mut fields, source.chains().list(i), *field);
    }
    Ok(fields)
}
