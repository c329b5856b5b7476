//! Which node's chain each qubit is in.
ghost use Rattle.std.specs.Prelude.{◌≡◌, ◌≤◌, ◌<◌, ◌⊎◌, ◌^◌, ℕ, true, length, All, IfOk};
ghost use Rattle.bits_model.specs.Walks.{is_in};
ghost use Rattle.chain_map.specs.Chains.{chain_of, occurrences};
ghost use Rattle.embedding_check.specs.Faults.{number_at};
ghost use Rattle.embedding_check.specs.Owners.{owner_of, nobody, AreOwners, AreRuns, IsRun};

use base::NoMemory;
use bits_model::ChainList;
use std::alloc::Global;
use std::marker::Model;

/// The owner of each qubit, and where its run ends: the qubits from it on that have the same owner.
/// Contracts see the list of the owners.
#[derive(Drop)]
pub(crate) struct Owned {
    owners: Vec<u32>,
    runs: Vec<u32>,
}

impl Model for Owned {
    ghost use Rattle.std.specs.Prelude.{ℕ, List};
    ghost use Rattle.embedding_check.specs.Owners.{AreRuns};

    ghost Value = { List ℕ };

    ghost view = { λ o. o.owners.items };

    ghost invariant = { λ o. AreRuns o.owners.items o.runs.items };
}

impl Owned {
    /// How many qubits there are.
    pub(crate) fn len(&self) -> usize
        ensures { result ≡ length self.now }
    {
        self.owners.len()
    }

    /// The owner of a qubit.
    pub(crate) fn owner(&self, qubit: u32) -> u32
        requires { qubit < length self.now }
        ensures { result ≡ owner_of self.now qubit }
    {
        self.owners[qubit as usize]
    }

    /// Where the run of a qubit ends.
    pub(crate) fn run_end(&self, qubit: u32) -> u32
        requires { qubit < length self.now }
        ensures { IsRun self.now qubit result }
    {
        self.runs[qubit as usize]
    }
}

/// Marks where the run of each qubit ends, from the last qubit on.
fn mark_runs(owners: &[u32], runs: &mut [u32])
    requires few { length owners.now < 2 ^ 32 }
    requires same { length runs.old ≡ length owners.now }
    ensures { AreRuns owners.now runs.new }
{
    let count = owners.len();
    let mut end = count;
    for done in 0..count {
        let at = count - 1 - done;
        if at + 1 < count && owners[at + 1] != owners[at] {
            end = at + 1;
        }
        runs[at] = end as u32;
    }
}

/// Gives the qubits of a chain to their owner.
fn own(owners: &mut [u32], chain: &[u32], owner: u32)
    requires { All (λ q. q < length owners.old) chain.now }
    ensures len { length owners.new ≡ length owners.old }
    ensures inside { (b : ℕ) → is_in chain.now b ≡ true → owner_of owners.new b ≡ owner }
    ensures outside { (b : ℕ) →
        (is_in chain.now b ≡ true) ⊎ (owner_of owners.new b ≡ owner_of owners.old b) }
{
    for k in 0..chain.len() {
        owners[chain[k] as usize] = owner;
    }
}

/// Gives each qubit of the chains to its owner.
fn own_all(owners: &mut [u32], chains: &ChainList)
    requires within { (u : ℕ) → u < length chains.now → (j : ℕ) → j < length (chain_of chains.now u)
        → number_at chains.now u j < length owners.old }
    requires once { (q : ℕ) → occurrences q chains.now ≤ 1 }
    requires few { length chains.now ≤ nobody }
    requires none { (b : ℕ) → b < length owners.old → owner_of owners.old b ≡ nobody }
    ensures len { length owners.new ≡ length owners.old }
    ensures owners { AreOwners chains.now owners.new }
{
    for node in 0..chains.len() {
        own(owners, chains.list(node), node as u32);
    }
}

/// The owner of each qubit.
pub(crate) fn owners_of(alloc: Global, chains: &ChainList, qubits: u32) -> Result<Owned, NoMemory>
    requires within { (u : ℕ) → u < length chains.now → (j : ℕ) → j < length (chain_of chains.now u)
        → number_at chains.now u j < qubits }
    requires once { (q : ℕ) → occurrences q chains.now ≤ 1 }
    requires few { length chains.now ≤ nobody }
    ensures len { IfOk result (λ owners. length owners ≡ qubits) }
    ensures owners { IfOk result (λ owners. AreOwners chains.now owners) }
{
    let mut owners = vec![in alloc; u32::MAX; qubits as usize]?;
    own_all(&mut owners, chains);
    let mut runs = vec![in alloc; 0; qubits as usize]?;
    mark_runs(&owners, &mut runs);
    Ok(Owned { owners, runs })
}
