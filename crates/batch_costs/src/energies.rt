//! The sums of a model's entries, one for each state.
ghost use Rattle.std.specs.Prelude.{ℕ, ◌≡◌, ◌<◌, ◌≤◌, ◌^◌, length, pos, replicate};
ghost use Rattle.std.specs.List.{slice_index_or};
ghost use Rattle.base.specs.Sums.{total_by};
ghost use Rattle.bits_model.specs.Output.{bits_energy, weight_total};
ghost use Rattle.batch_costs.specs.Assigned.{assignment};

use crate::assignments::Assignments;
use crate::marks::word_of;
use crate::sums::add_marked;
use bits_model::EntryList;

/// Adds the weight of each entry to the sums of the states that both its nodes have bit 1 in.
fn add_entries(sums: &mut [i128], entries: &EntryList, words: &[u64])
    requires zero { sums.old ≡ replicate 64 (pos 0) }
    requires small { weight_total entries.now ≤ 2 ^ 124 }
    ensures { (k : ℕ) → k < 64 → slice_index_or sums.new k (pos 0)
        ≡ total_by (bits_energy (assignment words.now k)) entries.now }
{
    for entry in entries.iter() {
        let marks = word_of(words, entry.first as u64) & word_of(words, entry.second as u64);
        add_marked(sums, marks, entry.weight);
    }
}

impl Assignments {
    /// The energies of the first states of bits, which entries of a QUBO add up to.
    pub fn energies(&self, entries: &EntryList, energies: &mut [i128])
        requires few { length energies.old ≤ 64 }
        requires small { weight_total entries.now ≤ 2 ^ 124 }
        ensures { (k : ℕ) → k < length energies.old → slice_index_or energies.new k (pos 0)
            ≡ total_by (bits_energy (assignment self.now k)) entries.now }
    {
        let mut sums = [0; 64];
        add_entries(&mut sums, entries, &self.words);
        for k in 0..energies.len() {
            energies[k] = sums[k];
        }
    }
}
