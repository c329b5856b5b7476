//! One substitution: a node takes the place of a pair of literals in all terms that begin with it.
ghost use Rattle.std.specs.Prelude.{◌≡◌, ◌+◌, ◌*◌, ◌<◌, ◌≤◌, ◌^◌, ◌++◌, ◌∷◌, [], IfOk, OnOk, Some, length, set};
ghost use Rattle.std.specs.List.{filter, AllByRecursion};
ghost use Rattle.term_table.specs.Terms.{terms_total, IsTermSet};
ghost use Rattle.rosenberg_layer.specs.Rosenberg.{is_long, node};
ghost use Rattle.rosenberg_layer.specs.Steps.{front_term, is_short, IsStepOf};
ghost use Rattle.rosenberg_layer.specs.Rings.{code_at, term_at};
ghost use Rattle.rosenberg_layer.specs.Buckets.{listed_count, IsApart};
ghost use Rattle.rosenberg_layer.specs.Waiting.{first_pair, keys_left, lists_with, Wait};

use crate::buckets::Buckets;
use crate::long_terms::LongTerms;
use crate::waiting::{TERMS, Waiting};
use base::NoMemory;
use literal_lists::Literal;

/// Replaces the first two literals of a term that is in no list, and puts it where it belongs.
fn replace(
    long: &mut LongTerms,
    buckets: &mut Buckets,
    low: &mut Vec<([Literal; 2], i128)>,
    term: usize,
    number: u32,
) -> Result<(), NoMemory>
    requires within { term < length long.old }
    requires degree { 3 ≤ length (term_at long.old term).0 }
    requires narrow { number < 2 ^ 31 }
    requires lists { code_at (front_term (node number) (term_at long.old term)) 0
        < length buckets.old.lists }
    requires room { term < buckets.old.room }
    requires term { term < 2 ^ 32 }
    requires apart { IsApart buckets.old.lists term }
    requires few { listed_count buckets.old.lists + 1 < 2 ^ 32 }
    ensures terms { OnOk result
        (long.new ≡ set long.old term (front_term (node number) (term_at long.old term))) }
    ensures low { OnOk result (low.new.items ≡ low.old.items
        ++ filter is_short (front_term (node number) (term_at long.old term) ∷ [])) }
    ensures lists { OnOk result (buckets.new.lists ≡ lists_with buckets.old.lists term
        (front_term (node number) (term_at long.old term))) }
    ensures room { OnOk result (buckets.new.room ≡ buckets.old.room) }
{
    long.replace(term, number);
    if long.degree(term) == 2 {
        let (first, second) = long.pair(term);
        low.push(([first, second], long.coefficient(term)))?;
        return Ok(());
    }
    buckets.put(long.first(term) as usize, term as u32);
    Ok(())
}

/// Replaces the first pair that waits by the node of a number, and gives the weight of the terms that
/// tie it.
pub(crate) fn substitute(
    long: &mut LongTerms,
    waiting: &mut Waiting,
    low: &mut Vec<([Literal; 2], i128)>,
    number: usize,
) -> Result<u128, NoMemory>
    requires wait { Wait long.old waiting.old }
    requires some { waiting.old.at < length waiting.old.keys.items }
    requires lists { length waiting.old.buckets.lists ≡ 2 * number }
    requires narrow { number < 2 ^ 31 }
    requires few { length long.old < 2 ^ 32 }
    requires sets { AllByRecursion (λ t. IsTermSet number t.0) (filter is_long long.old) }
    requires small { terms_total (filter is_long long.old) ≤ 2 ^ 124 }
    ensures wait { OnOk result (Wait long.new waiting.new) }
    ensures lists { OnOk result (length waiting.new.buckets.lists ≡ 2 * (number + 1)) }
    ensures count { OnOk result (length long.new ≡ length long.old) }
    ensures step { IfOk result (IsStepOf (first_pair long.old (keys_left waiting.old)) number
        (filter is_long long.old) low.old.items (filter is_long long.new) low.new.items) }
{
    let node = number as u32;
    waiting.buckets.add()?;
    waiting.buckets.add()?;
    let second = waiting.keys[waiting.at] / TERMS;
    let mut weight = 0;
    while let Some(term) = waiting.pop(second) {
        weight += long.coefficient(term).unsigned_abs();
        replace(long, &mut waiting.buckets, low, term, node)?;
    }
    Ok(weight)
}
