//! Two thousand drawn entries of a table, against a plain ordered map.
ghost use Rattle.std.specs.Prelude.{◌≡◌, ◌+◌, ◌<◌, ◌≤◌, ◌^◌, OnOk};
ghost use Rattle.term_table.specs.Terms.{terms_total};

use crate::given::add_term;
use base::NoMemory;
use literal_lists::Literal;
use std::alloc::Global;
use std::collections::BTreeMap;
use term_table::Table;

/// One draw of the generator of Park and Miller.
fn draw(state: u64) -> u64
    requires { state < 2147483647 }
    ensures { result < 2147483647 }
{
    16807 * state % 2147483647
}

fn variable(number: u64) -> Literal {
    Literal {
        variable: number,
        negated: false,
    }
}

/// Adds to the coefficient of the set of one or two variables.
fn add_pair(table: &mut Table, first: u64, second: u64, coefficient: i128) -> Result<(), NoMemory>
    requires width { table.old.content.width ≡ 20 }
    requires total { terms_total table.old.content.terms ≤ 2 ^ 40 }
    ensures width { OnOk result (table.new.content.width ≡ 20) }
    ensures total { OnOk result
        (terms_total table.new.content.terms ≤ terms_total table.old.content.terms + 1000) }
{
    if first == second {
        add_term(table, 20, &[variable(first)], coefficient)
    } else {
        let (low, high) = (first.min(second), first.max(second));
        add_term(table, 20, &[variable(low), variable(high)], coefficient)
    }
}

/// The least variable of a pair, and one more than the other one, or 0 where they are equal: the
/// sets are in this order.
fn key_of(first: u64, second: u64) -> (u64, u64)
    requires first { first < 20 }
    requires second { second < 20 }
{
    if first == second {
        (first, 0)
    } else {
        (first.min(second), first.max(second) + 1)
    }
}

type Sums = BTreeMap<(u64, u64), i128>;

fn add_to_map(sums: &mut Sums, key: (u64, u64), coefficient: i128) -> Result<(), NoMemory> {
    let before = match sums.get(&key) {
        Some(sum) => *sum,
        None => 0,
    };
    match sums.insert(key, before.wrapping_add(coefficient)) {
        Ok(_) => Ok(()),
        Err(_) => Err(NoMemory),
    }
}

/// Whether the literals are those of the key.
fn are_of_key(literals: &[Literal], key: &(u64, u64)) -> bool {
    match literals {
        [only] => *only == variable(key.0) && key.1 == 0,
        [first, second] => {
            *first == variable(key.0)
                && !second.negated
                && second.variable < 20
                && second.variable + 1 == key.1
        }
        _ => false,
    }
}

/// Whether the table has the sums that are not 0, in order.
fn has_sums(table: &Table, sums: &Sums) -> bool {
    let mut terms = table.terms();
    for (key, sum) in sums.iter() {
        if *sum != 0 {
            match terms.next() {
                Some((literals, coefficient)) if coefficient == *sum && are_of_key(literals, key) =>
                    {}
                _ => return false,
            }
        }
    }
    terms.next().is_none()
}

/// Whether each run is at least twice as long as the next, and none is empty.
fn are_halving(table: &Table) -> bool {
    let mut after = 0;
    for k in (0..table.run_count()).rev() {
        let length = table.run(k).len();
        if length == 0 || length / 2 < after {
            return false;
        }
        after = length;
    }
    true
}

/// Adds 2,000 entries to both, and compares after each hundredth.
fn stay_alike(table: &mut Table, sums: &mut Sums) -> Result<bool, NoMemory>
    requires width { table.old.content.width ≡ 20 }
    requires total { terms_total table.old.content.terms ≡ 0 }
{
    let mut state = 1;
    for number in 0..2000u64 {
        let first = draw(state);
        let second = draw(first);
        let third = draw(second);
        state = third;
        let coefficient = i128::from(third % 7) - 3;
        add_pair(table, first % 20, second % 20, coefficient)?;
        add_to_map(sums, key_of(first % 20, second % 20), coefficient)?;
        if number % 100 == 99 && !(has_sums(table, sums) && are_halving(table)) {
            return Ok(false);
        }
    }
    Ok(true)
}

fn agrees_with_map(alloc: Global) -> Result<bool, NoMemory> {
    let mut table = Table::new(alloc, 20);
    let mut sums = BTreeMap::new(alloc);
    stay_alike(&mut table, &mut sums)
}

#[test]
fn two_thousand_entries_are_those_of_a_map(rt: HostRuntime) {
    assert!(rt; agrees_with_map(rt.alloc()) == Ok(true));
}
