//! The run of substitutions, on the terms of degree 3 or more alone.
//!
//! The first of them gives the pair, and those that have it are those that begin with it, so they
//! lie together and no term is looked for. What is of lower degree is gathered, to be summed in the
//! end, and of the terms that tie a node only the weight.
ghost use Rattle.std.specs.Prelude.{
  ◌≡◌,
  ◌+◌,
  ◌*◌,
  ◌≤◌,
  ◌<◌,
  ◌^◌,
  ◌++◌,
  ◌∷◌,
  [],
  All,
  IfOk,
  OnOk,
  length,
  true,
};
ghost use Rattle.std.specs.List.{filter, AllByRecursion};
ghost use Rattle.term_table.specs.Terms.{terms_size, terms_total, IsTermSet};
ghost use Rattle.term_table.specs.Tables.{IsTable, TableContent, table_size};
ghost use Rattle.rosenberg_layer.specs.Rosenberg.{excess, is_long, pairs_of, run};
ghost use Rattle.rosenberg_layer.specs.Waiting.{Wait};
ghost use Rattle.rosenberg_layer.specs.Added.{IsRunAfter, TurnsRun};

use crate::long_terms::LongTerms;
use crate::pair_list::PairList;
use crate::replacing::substitute;
use crate::waiting::Waiting;
use base::NoMemory;
use literal_lists::Literal;
use std::alloc::Global;
use term_table::Table;

/// The touched terms of lower degree, the pairs that the new nodes stand for, and the weights of
/// the terms that tie each node to its pair.
#[derive(Drop)]
pub struct Substitutions {
    pub low: Vec<([Literal; 2], i128)>,
    pub pairs: PairList,
    pub weights: Vec<u128>,
}

/// The sum of d - 2 over the terms of a degree d of 3 or more.
pub(crate) fn excess(table: &Table) -> usize
    requires { terms_size table.now.content.terms ≤ 2 ^ 32 }
    ensures { result ≡ excess table.now.content.terms }
{
    let mut sum = 0;
    for (literals, _) in table.terms() {
        sum += literals.len().saturating_sub(2);
    }
    sum
}

/// Replaces the pair that comes first, if there is one, and gives it.
fn turn(
    long: &mut LongTerms,
    waiting: &mut Waiting,
    made: &mut Substitutions,
    width: usize,
) -> Result<Option<(Literal, Literal)>, NoMemory>
    requires wait { Wait long.old waiting.old }
    requires lists { length waiting.old.buckets.lists ≡ 2 * (width + length made.old.pairs) }
    requires narrow { width + length made.old.pairs < 2 ^ 31 }
    requires few { length long.old < 2 ^ 32 }
    requires sets { AllByRecursion (λ t. IsTermSet (width + length made.old.pairs) t.0)
        (filter is_long long.old) }
    requires small { terms_total (filter is_long long.old) ≤ 2 ^ 124 }
    ensures wait { OnOk result (Wait long.new waiting.new) }
    ensures lists { OnOk result
        (length waiting.new.buckets.lists ≡ 2 * (width + length made.new.pairs)) }
    ensures few { OnOk result (length long.new ≡ length long.old) }
    ensures turn { IfOk result (λ pair. TurnsRun pair width
        (filter is_long long.old) made.old (filter is_long long.new) made.new) }
{
    match waiting.next_pair(long)? {
        None => Ok(None),
        Some(pair) => {
            let number = width + made.pairs.len();
            let weight = substitute(long, waiting, &mut made.low, number)?;
            made.pairs.push(pair)?;
            made.weights.push(weight)?;
            Ok(Some(pair))
        }
    }
}

/// Makes so many turns.
fn turns_of(
    alloc: Global,
    long: &mut LongTerms,
    width: usize,
    turns: usize,
) -> Result<Substitutions, NoMemory>
    requires table { IsTable (record { width = width; terms = long.old }) }
    requires long { All (λ t. is_long t ≡ true) long.old }
    requires few { length long.old < 2 ^ 32 }
    requires narrow { width + turns ≤ 2 ^ 31 }
    ensures parts { (t : TableContent) → IsTable t → t.width ≡ width
        → filter is_long t.terms ≡ long.old
        → IfOk result (IsRunAfter t width turns) }
    ensures pairs { (t : TableContent) → IsTable t → t.width ≡ width
        → filter is_long t.terms ≡ long.old
        → IfOk result (λ made. made.pairs ≡ pairs_of turns t) }
    ensures each { IfOk result (λ made. length made.weights.items ≡ length made.pairs) }
    ensures few { IfOk result (λ made. length made.low.items ≤ length long.old) }
{
    let mut waiting = Waiting::new(alloc, long, 2 * width)?;
    let mut made = Substitutions {
        low: Vec::new(alloc),
        pairs: PairList::empty(alloc),
        weights: Vec::new(alloc),
    };
    for _done in 0..turns {
        turn(long, &mut waiting, &mut made, width)?;
    }
    Ok(made)
}

/// What so many substitutions leave of lower degree, and their pairs, from the terms of degree 3 or
/// more alone.
pub fn run_of_long(
    alloc: Global,
    long: LongTerms,
    width: usize,
    turns: usize,
) -> Result<Substitutions, NoMemory>
    requires table { IsTable (record { width = width; terms = long }) }
    requires long { All (λ t. is_long t ≡ true) long }
    requires few { length long < 2 ^ 32 }
    requires narrow { width + turns ≤ 2 ^ 31 }
    ensures parts { (t : TableContent) → IsTable t → t.width ≡ width
        → filter is_long t.terms ≡ long
        → IfOk result (IsRunAfter t width turns) }
    ensures pairs { (t : TableContent) → IsTable t → t.width ≡ width
        → filter is_long t.terms ≡ long
        → IfOk result (λ made. made.pairs ≡ pairs_of turns t) }
    ensures each { IfOk result (λ made. length made.weights.items ≡ length made.pairs) }
    ensures few { IfOk result (λ made. length made.low.items ≤ length long) }
{
    let mut terms = long;
    turns_of(alloc, &mut terms, width, turns)
}

/// Appends a term of degree 3 or more, and no other.
fn add_long(long: &mut LongTerms, literals: &[Literal], coefficient: i128) -> Result<(), NoMemory>
    requires short { length literals.now < 2 ^ 16 }
    requires narrow { All (λ l. l.variable < 2 ^ 31) literals.now }
    ensures { OnOk result
        (long.new ≡ long.old ++ filter is_long ((literals.now, coefficient) ∷ [])) }
{
    if literals.len() >= 3 {
        long.push(literals, coefficient)?;
    }
    Ok(())
}

/// The terms of degree 3 or more of a table.
pub(crate) fn long_terms(alloc: Global, table: &Table) -> Result<LongTerms, NoMemory>
    requires { table.now.content.width ≤ 2 ^ 31 }
    ensures long { IfOk result (λ long. long ≡ filter is_long table.now.content.terms) }
    ensures kept { IsTable table.now.content }
{
    let mut long = LongTerms::empty(alloc);
    for (literals, coefficient) in table.terms() {
        add_long(&mut long, literals, coefficient)?;
    }
    Ok(long)
}

/// What so many substitutions leave of lower degree, and their pairs.
pub(crate) fn run_of(
    alloc: Global,
    table: &Table,
    width: usize,
    turns: usize,
) -> Result<Substitutions, NoMemory>
    requires width { width ≡ table.now.content.width }
    requires turns { turns ≤ excess table.now.content.terms }
    requires size { table_size table.now.content * 2 ^ 2 ≤ 2 ^ 32 }
    ensures parts { IfOk result (IsRunAfter table.now.content width turns) }
    ensures pairs { IfOk result (λ made. made.pairs ≡ pairs_of turns table.now.content) }
    ensures each { IfOk result (λ made. length made.weights.items ≡ length made.pairs) }
    ensures few { IfOk result (λ made. length made.low.items ≤ length table.now.content.terms) }
    ensures kept { IsTable table.now.content }
{
    let long = long_terms(alloc, table)?;
    run_of_long(alloc, long, width, turns)
}
