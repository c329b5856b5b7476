//! Additions to runs: a run is put after the others, and runs at the end are merged until each is
//! at least twice as long as the next.
//!
//! So there are at most 64 runs, and a term is copied once for each doubling of its run.
//!
//! No run of the program comes here: its tables are made at once, of all that was gathered.
ghost use Rattle.std.specs.Prelude.{◌≡◌, ◌+◌, ◌≤◌, ◌^◌, ℕ, ◌++◌, ◌∷◌, [], length, take, unsigned_abs, IfOk, OnOk, OnErr};
ghost use Rattle.term_table.specs.Terms.{terms_total};
ghost use Rattle.term_table.specs.Runs.{merged_terms, one_run, settled, with_entry, AreRuns};
ghost use Rattle.term_table.specs.Newest.{AreSettling};

use crate::merge_runs::merge;
use crate::run::Run;
use base::NoMemory;
use literal_lists::Literal;
use smallvec::SmallVec;
use std::alloc::Global;

/// How many of the oldest runs stay, and the run that comes after them.
#[derive(Drop)]
struct Settled {
    kept: usize,
    last: Run,
}

/// Settles runs and one more after them. Nothing is changed: what is merged is copied.
fn settle(alloc: Global, runs: &[Run], entry: Run) -> Result<Settled, NoMemory>
    requires { AreSettling runs.now entry }
    ensures kept { IfOk result (λ s. s.kept ≤ length runs.now) }
    ensures settled { IfOk result
        (λ s. settled (runs.now ++ entry ∷ []) ≡ take s.kept runs.now ++ one_run s.last) }
{
    let mut last = entry;
    let mut kept = runs.len();
    while kept > 0 && runs[kept - 1].len() / 2 < last.len() {
        last = merge(alloc, runs[kept - 1].as_slice(), last.as_slice())?;
        kept -= 1;
    }
    Ok(Settled { kept, last })
}

/// Keeps the oldest runs, and puts another one after them, unless it is empty.
fn replace_end(runs: &mut SmallVec<Run, 1>, kept: usize, last: Run) -> Result<(), NoMemory>
    requires { kept ≤ length runs.old.items }
    ensures replaced { OnOk result (runs.new.items ≡ take kept runs.old.items ++ one_run last) }
    ensures unchanged { OnErr result (runs.new.items ≡ runs.old.items) }
{
    if last.len() == 0 {
        runs.truncate(kept);
        return Ok(());
    }
    match runs.reserve(1) {
        Ok(()) => {
            runs.truncate(kept);
            runs.push_reserved(last);
            Ok(())
        }
        Err(_) => Err(NoMemory),
    }
}

/// Puts a run after others, and settles all. What is new is made before the runs are touched.
pub fn append_run(alloc: Global, runs: &mut SmallVec<Run, 1>, entry: Run) -> Result<(), NoMemory>
    requires { AreSettling runs.old.items entry }
    ensures settled { OnOk result (runs.new.items ≡ settled (runs.old.items ++ entry ∷ [])) }
    ensures unchanged { OnErr result (runs.new.items ≡ runs.old.items) }
{
    let Settled { kept, last } = settle(alloc, runs.as_slice(), entry)?;
    replace_end(runs, kept, last)
}

/// Adds to the coefficient of a set. All that is new is made before the runs are touched.
pub fn add_to(
    alloc: Global,
    runs: &mut SmallVec<Run, 1>,
    literals: &[Literal],
    coefficient: i128,
) -> Result<(), NoMemory>
    requires runs { (width : ℕ) × AreRuns width runs.old.items }
    requires small { terms_total (merged_terms runs.old.items) + unsigned_abs coefficient
        ≤ 2 ^ 124 }
    ensures added { OnOk result
        (runs.new.items ≡ with_entry runs.old.items literals.now coefficient) }
    ensures unchanged { OnErr result (runs.new.items ≡ runs.old.items) }
{
    if coefficient == 0 {
        return Ok(());
    }
    let entry = Run::of_one(alloc, literals, coefficient)?;
    append_run(alloc, runs, entry)
}
