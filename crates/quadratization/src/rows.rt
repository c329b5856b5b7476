//! Couplers row by row.
//!
//! Pairs are sorted, and each variable has a list of the terms in which it stands. For each variable
//! its pairs, and the couplers of its places with later literals, are summed: that is the first part
//! of its row. Those with new nodes follow: they are in order, since new nodes are numbered after
//! all variables, in the order of the terms. See Gustavson, Two fast algorithms for sparse matrices:
//! multiplication and permuted transposition (1978).
ghost use Rattle.std.specs.Prelude.{◌≡◌, ◌+◌, ◌*◌, ◌≤◌, ◌<◌, ◌^◌, ◌++◌, [], All, IfOk, OnOk, length, map, drop, unsigned_abs};
ghost use Rattle.std.specs.List.{flat_map};
ghost use Rattle.bits_model.specs.Output.{weight_total};
ghost use Rattle.literal_lists.specs.declared.literal.Literal.{Literal};
ghost use Rattle.term_table.specs.Terms.{terms_total};
ghost use Rattle.pair_sums.specs.Pairs.{IsPair};
ghost use Rattle.quad_form.specs.Short.{pair_coupler};
ghost use Rattle.quadratization.specs.Gathered.{couplers_of_long};
ghost use Rattle.quadratization.specs.Long.{node_count};
ghost use Rattle.quadratization.specs.Rows.{row_of, AreRows, AreFromRow, AreAfterRow};
ghost use Rattle.quadratization.specs.RowSums.{pair_part, head_of, IsHead};
ghost use Rattle.quadratization.specs.Occurrences.{all_occurrences, places_at, IsOccurrence};

use crate::heads::{Head, head_of, push_heads};
use crate::long_table::{LongTable, PlaceRef};
use crate::occurrences::Occurrences;
use base::NoMemory;
use bits_model::{CouplerList, Entry};
use literal_lists::{Literal, Literals};
use pair_sums::{GatheredPairs, Pairs};
use quad_form::signed;
use std::alloc::Global;

/// Adds a variable's pairs to its row, the first of those from an index on, and gives the index after
/// them.
fn add_pairs(row: &mut Pairs, pairs: &Pairs, start: usize, variable: u64) -> Result<usize, NoMemory>
    requires { AreFromRow variable (drop start pairs.now) }
    ensures row { OnOk result (row.new ≡ row.old ++ row_of variable (drop start pairs.now)) }
    ensures later { IfOk result (λ end.
        AreAfterRow variable (drop start pairs.now) (drop end pairs.now)) }
{
    for i in start..pairs.len() {
        let pair = pairs.at(i);
        if u64::from(pair.first) != variable {
            return Ok(i);
        }
        row.push(pair)?;
    }
    Ok(pairs.len())
}

/// Adds the couplers of a literal with later ones.
fn add_later(
    row: &mut Pairs,
    literal: Literal,
    coefficient: i128,
    later: Literals<'_>,
) -> Result<(), NoMemory>
    requires variable { literal.variable < 2 ^ 32 }
    requires within { All (λ l. l.variable < 2 ^ 32) later }
    requires coefficient { unsigned_abs coefficient ≤ 2 ^ 124 }
    ensures { OnOk result
        (row.new ≡ row.old ++ map (pair_coupler literal coefficient) later.entry) }
{
    let first = literal.variable as u32;
    let weight = signed(literal, coefficient);
    for other in later {
        row.push(Entry {
            first,
            second: other.variable as u32,
            weight: signed(other, weight),
        })?;
    }
    Ok(())
}

/// Adds a place's couplers with later literals.
fn add_place(row: &mut Pairs, place: PlaceRef<'_>) -> Result<(), NoMemory>
    requires variable { place.literal.variable < 2 ^ 32 }
    requires within { All (λ l. l.variable < 2 ^ 32) place.later }
    requires coefficient { unsigned_abs place.coefficient ≤ 2 ^ 124 }
    ensures { OnOk result (row.new ≡ row.old ++ pair_part place.entry) }
{
    let PlaceRef {
        literal,
        later,
        coefficient,
        ..
    } = place;
    if coefficient < 0 {
        return Ok(());
    }
    add_later(row, literal, coefficient, later)
}

/// Reads the terms of a row one after another, and gives 0 or 1. A search of one of them ends with a
/// jump that cannot be foreseen, so the next one would be fetched only after it; here the processor
/// fetches many at a time.
fn fetched(long: &LongTable, indices: &[u32]) -> usize
    requires { All (λ i. i < length long.now.terms) indices.now }
    ensures { result ≤ 1 }
{
    let mut read = 0;
    for index in indices {
        let mut term = long.at(*index as usize);
        let first = term.literals.next().map_or(0, |literal| literal.variable);
        read ^= first ^ u64::from(term.first_node) ^ u64::from(term.coefficient < 0);
    }
    (read % 2) as usize
}

/// Adds places' couplers with later literals, and keeps what their couplers with new nodes need, in
/// place of what a list has.
fn add_places(
    row: &mut Pairs,
    heads: &mut Vec<Head>,
    long: &LongTable,
    variable: u64,
    indices: &[u32],
) -> Result<(), NoMemory>
    requires narrow { node_count long.now ≤ 2 ^ 32 }
    requires indices { All (IsOccurrence long.now variable) indices.now }
    ensures row { OnOk result (row.new
        ≡ row.old ++ flat_map pair_part (places_at long.now variable indices.now)) }
    ensures heads { OnOk result
        (heads.new.items ≡ map head_of (places_at long.now variable indices.now)) }
    ensures kept { OnOk result (All IsHead heads.new.items) }
{
    heads.clear();
    // what is read has to be used, or it would not be read: here it is room for one head more
    heads.reserve(fetched(long, indices))?;
    for index in indices {
        let place = long.place(variable, *index as usize);
        heads.push(head_of(&place))?;
        add_place(row, place)?;
    }
    Ok(())
}

/// Appends the rows of all variables, where these are the lists of their terms.
fn push_rows(
    alloc: Global,
    couplers: &mut CouplerList,
    pairs: &Pairs,
    long: &LongTable,
    occurrences: &Occurrences,
) -> Result<(), NoMemory>
    requires ordered { AreFromRow 0 pairs.now }
    requires pairs { All (IsPair long.now.width) pairs.now }
    requires small { weight_total pairs.now + terms_total long.now.terms * 2 ^ 24 ≤ 2 ^ 126 }
    requires occurrences { occurrences.now ≡ all_occurrences long.now }
    requires none { couplers.old ≡ [] }
    ensures { OnOk result (AreRows (node_count long.now) long.now.width
        (pairs.now ++ couplers_of_long long.now.terms long.now.width)
        couplers.new) }
{
    let mut heads = Vec::new(alloc);
    let mut row = Pairs::empty(alloc, long.width());
    let mut start = 0;
    for variable in 0..long.width() as u64 {
        start = add_pairs(&mut row, pairs, start, variable)?;
        let own = occurrences.at(variable as usize);
        add_places(&mut row, &mut heads, long, variable, own)?;
        row = row.put_into(couplers)?;
        push_heads(couplers, &heads)?;
    }
    Ok(())
}

/// The couplers of sorted pairs and of long terms, row by row.
fn rows_of(alloc: Global, pairs: &Pairs, long: &LongTable) -> Result<CouplerList, NoMemory>
    requires ordered { AreFromRow 0 pairs.now }
    requires pairs { All (IsPair long.now.width) pairs.now }
    requires small { weight_total pairs.now + terms_total long.now.terms * 2 ^ 24 ≤ 2 ^ 126 }
    ensures { IfOk result (λ couplers. AreRows (node_count long.now) long.now.width
        (pairs.now ++ couplers_of_long long.now.terms long.now.width)
        couplers) }
{
    let occurrences = Occurrences::of(alloc, long)?;
    let mut couplers = CouplerList::empty(alloc);
    push_rows(alloc, &mut couplers, pairs, long, &occurrences)?;
    Ok(couplers)
}

/// The couplers of pairs and of long terms, in order. Each pair of nodes has one, with the sum of
/// what all give it, or none where the sum is 0.
pub fn couplers_of(
    alloc: Global,
    pairs: GatheredPairs,
    long: &LongTable,
) -> Result<CouplerList, NoMemory>
    requires pairs { All (IsPair long.now.width) pairs }
    requires small { weight_total pairs + terms_total long.now.terms * 2 ^ 24 ≤ 2 ^ 126 }
    ensures { IfOk result (λ couplers. AreRows (node_count long.now) long.now.width
        (pairs ++ couplers_of_long long.now.terms long.now.width)
        couplers) }
{
    if long.node_count() as usize == long.width() {
        return pairs.summed();
    }
    let sorted = pairs.sorted()?;
    rows_of(alloc, &sorted, long)
}
