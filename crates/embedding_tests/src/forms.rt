//! Ising forms of given weights.
ghost use Rattle.std.specs.Prelude.{◌≡◌, ◌≤◌, ◌^◌, true, All, IfOk, IfSome, length, unsigned_abs};
ghost use Rattle.embedding_tests.specs.SmallForms.{AreSmallCouplings, IsSmall};

use base::NoMemory;
use bits_model::{CouplerList, Entry};
use ising_form::Ising;
use quad_form::NumberList;
use std::alloc::Global;

/// A coupling: two nodes and a weight.
pub(crate) type Row = (u32, u32, i128);

/// No weight is greater.
const GREATEST: u128 = 1 << 20;

/// These couplings, or `None` where they are not in ascending order, or some weight is 0 or not
/// small.
fn couplings_of(alloc: Global, nodes: u32, rows: &[Row]) -> Result<Option<Vec<Entry>>, NoMemory>
    requires { length rows.now ≤ 100 }
    ensures { IfOk result (λ made. IfSome made (λ entries.
        AreSmallCouplings nodes entries.items)) }
{
    let mut entries = Vec::with_capacity(alloc, rows.len())?;
    let mut bound: u64 = 0;
    for k in 0..rows.len() {
        let (first, second, weight) = rows[k];
        let number = first as u64 * (1 << 32) + second as u64;
        if first >= second || second >= nodes || number < bound {
            return Ok(None);
        }
        if weight == 0 || weight.unsigned_abs() > GREATEST {
            return Ok(None);
        }
        entries.push(Entry {
            first,
            second,
            weight,
        })?;
        bound = number + 1;
    }
    Ok(Some(entries))
}

/// Whether these are small.
fn are_small(weights: &[i128]) -> bool
    ensures { result ≡ true → All (λ w. unsigned_abs w ≤ 2 ^ 20) weights.now }
{
    weights
        .iter()
        .all(|weight| weight.unsigned_abs() <= GREATEST)
}

/// The form of these weights, or `None` where they are not few and small, or its couplings are not
/// in ascending order.
pub(crate) fn small_form(
    alloc: Global,
    constant: i128,
    fields: &[i128],
    rows: &[Row],
) -> Result<Option<Ising>, NoMemory>
    ensures { IfOk result (λ made. IfSome made IsSmall) }
{
    if fields.len() > 100 || rows.len() > 100 {
        return Ok(None);
    }
    if constant.unsigned_abs() > GREATEST || !are_small(fields) {
        return Ok(None);
    }
    match couplings_of(alloc, fields.len() as u32, rows)? {
        Some(couplings) => Ok(Some(Ising {
            constant,
            fields: NumberList::new(fields.to_vec(alloc)?),
            couplings: CouplerList::of(alloc, &couplings)?,
        })),
        None => Ok(None),
    }
}

/// The form of up to three nodes without fields, and of these couplings.
pub(crate) fn coupled_form(
    alloc: Global,
    nodes: usize,
    rows: &[Row],
) -> Result<Option<Ising>, NoMemory> {
    small_form(alloc, 0, &[0; 3][..nodes.min(3)], rows)
}
