//! Pairs of literals replaced by new nodes: the pairs in both ways, and fifty small tables at all
//! states.
ghost use Rattle.std.specs.Prelude.{◌≡◌, ◌+◌, ◌<◌, ◌≤◌, ◌^◌, IfOk, OnOk, length, unsigned_abs};
ghost use Rattle.rosenberg_layer.specs.Rosenberg.{image};
ghost use Rattle.term_table.specs.Terms.{terms_size, terms_total};

use crate::all_states::draw;
use crate::given::{A, B, C, D, E, NOT_B, table_of};
use crate::layers::keeps_costs;
use base::NoMemory;
use form_steps::Layer;
use literal_lists::Literal;
use rosenberg_layer::{Rosenberg, pairs_of, wide_pairs};
use std::alloc::Global;
use std::test::Fail;
use term_table::{Table, is_set};

/// Whether the pairs of a table are the same by codes and as they are defined, and so many.
fn have_the_same_pairs(
    alloc: Global,
    table: &Table,
    variables: usize,
    bits: usize,
    count: usize,
) -> Result<bool, NoMemory>
    requires source { variables ≡ table.now.content.width }
    requires target { bits ≡ (image table.now.content).width }
{
    let turns = bits - variables;
    let pairs = pairs_of(alloc, table, variables, turns)?;
    let wide = wide_pairs(alloc, table, variables, turns)?;
    Ok(wide.len() == count && pairs.as_slice() == wide.as_slice())
}

/// The same of a table of terms.
fn are_the_same_pairs(
    alloc: Global,
    width: usize,
    terms: &[(&[Literal], i128)],
    count: usize,
) -> Result<bool, NoMemory>
    requires few { length terms.now < 100 }
    requires narrow { width ≤ 6 }
{
    let source = table_of(alloc, width, terms)?;
    let made = Rosenberg.lower(alloc, &source)?;
    have_the_same_pairs(
        alloc,
        &source,
        made.link.source_width,
        made.link.target_width,
        count,
    )
}

#[test]
fn pairs_are_found_in_both_ways(rt: HostRuntime) -> Result<(), Fail> {
    let three: [(&[Literal], i128); 1] = [(&[A, B, C], 5)];
    let shared: [(&[Literal], i128); 2] = [(&[A, NOT_B, C], 2), (&[A, NOT_B, D], -3)];
    let long: [(&[Literal], i128); 2] = [(&[A, B, C, D, E], 1), (&[B, C, E], -2)];
    assert!(rt; are_the_same_pairs(rt.alloc(), 3, &three, 1)?);
    assert!(rt; are_the_same_pairs(rt.alloc(), 4, &shared, 1)?);
    assert!(rt; are_the_same_pairs(rt.alloc(), 5, &long, 4)?);
    Ok(())
}

/// Six literals of six variables in a row, each as it is or complemented.
fn draw_literals(seed: &mut u64) -> [Literal; 6] {
    let mut literals = [A; 6];
    for i in 0..6 {
        literals[i] = Literal {
            variable: i as u64,
            negated: draw(seed, 4) == 0,
        };
    }
    literals
}

/// A number from -7 to 7.
fn draw_coefficient(seed: &mut u64) -> i128
    ensures { unsigned_abs result ≤ 7 }
{
    i128::from(draw(seed, 15)) - 7
}

/// Adds a term of three neighbouring variables or more, in one of so many degrees.
fn add_drawn(table: &mut Table, seed: &mut u64, degrees: u64) -> Result<(), NoMemory>
    requires some { 0 < degrees }
    requires few { degrees ≤ 4 }
    requires width { table.old.content.width ≡ 6 }
    requires total { terms_total table.old.content.terms ≤ 2 ^ 40 }
    ensures width { OnOk result (table.new.content.width ≡ 6) }
    ensures total { OnOk result
        (terms_total table.new.content.terms ≤ terms_total table.old.content.terms + 1000) }
    ensures size { OnOk result
        (terms_size table.new.content.terms ≤ terms_size table.old.content.terms + 36) }
{
    let literals = draw_literals(seed);
    let degree = 3 + draw(seed, degrees) as usize;
    let first = draw(seed, 7 - degree as u64) as usize;
    let coefficient = draw_coefficient(seed);
    let set = &literals[first..first + degree];
    if !is_set(set, 6) {
        return Ok(());
    }
    table.add(set, coefficient)
}

/// A table of three terms, two of which have up to six literals.
fn draw_table(alloc: Global, seed: u64) -> Result<Table, NoMemory>
    ensures width { IfOk result (λ t. t.content.width ≡ 6) }
    ensures total { IfOk result (λ t. terms_total t.content.terms ≤ 3000) }
    ensures size { IfOk result (λ t. terms_size t.content.terms ≤ 108) }
{
    let mut seed = seed;
    let mut table = Table::new(alloc, 6);
    add_drawn(&mut table, &mut seed, 4)?;
    add_drawn(&mut table, &mut seed, 4)?;
    add_drawn(&mut table, &mut seed, 1)?;
    Ok(table)
}

/// Whether substitutions keep the costs of a table.
fn is_kept(alloc: Global, source: &Table) -> Result<bool, NoMemory>
    requires width { source.now.content.width ≡ 6 }
    requires total { terms_total source.now.content.terms ≤ 3000 }
    requires size { terms_size source.now.content.terms ≤ 108 }
{
    let made = Rosenberg.lower(alloc, source)?;
    keeps_costs(alloc, &Rosenberg, source, &made)
}

fn is_drawn_kept(alloc: Global, seed: u64) -> Result<bool, NoMemory> {
    let source = draw_table(alloc, seed)?;
    is_kept(alloc, &source)
}

#[test]
fn fifty_tables_at_all_states(rt: HostRuntime) -> Result<(), Fail> {
    for seed in 0..50 {
        assert!(rt; is_drawn_kept(rt.alloc(), seed)?, "{seed}");
    }
    Ok(())
}
