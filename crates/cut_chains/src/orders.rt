//! The order in which the qubits of a chain are reached from its first one.
//!
//! A parent may stand anywhere in its chain. So each qubit climbs to the nearest one that is
//! listed, and the way is listed from its end on. Each qubit is climbed over once, by a loop: a way
//! may be as long as there are qubits.
ghost use Rattle.std.specs.Prelude.{◌≡◌, ◌≢◌, ◌+◌, ◌<◌, ◌++◌, ℕ, [], true, false, All, OnOk, drop, length, reverse};
ghost use Rattle.std.specs.List.{slice_index_or};
ghost use Rattle.bits_model.specs.Walks.{is_in, first_of};
ghost use Rattle.embedding_check.specs.Embeddings.{parent_in};
ghost use Rattle.chain_layer.specs.laws.OnceChains.{Once};
ghost use Rattle.cut_chains.specs.Orders.{IsClimbed, IsOrder};
ghost use Rattle.cut_chains.specs.Steps.{Climbable};

use base::NoMemory;

/// Notes the parents of a chain's qubits after the first.
pub fn note_parents(up: &mut [u32], chain: &[u32], parents: &[u32])
    requires matched { length chain.now ≡ length parents.now + 1 }
    requires inside { All (λ q. q < length up.old) chain.now }
    requires different { Once (drop 1 chain.now) }
    ensures sized { length up.new ≡ length up.old }
    ensures parents { (q : ℕ) → is_in (drop 1 chain.now) q ≡ true
        → slice_index_or up.new q 0 ≡ parent_in (drop 1 chain.now) parents.now q }
    ensures within { (n : ℕ) → All (λ q. q < n) up.old → All (λ q. q < n) parents.now
        → All (λ q. q < n) up.new }
{
    for i in 0..parents.len() {
        up[chain[i + 1] as usize] = parents[i];
    }
}

/// Marks the qubits on the way from one to the nearest that is marked, and appends them to a path.
fn climb(path: &mut Vec<u32>, seen: &mut [bool], up: &[u32], from: u32) -> Result<(), NoMemory>
    requires empty { path.old.items ≡ [] }
    requires from { from < length seen.old }
    requires sized { length up.now ≡ length seen.old }
    requires within { All (λ q. q < length seen.old) up.now }
    ensures climbed { OnOk result
        (IsClimbed (λ q. slice_index_or up.now q 0) seen.old seen.new from path.new.items) }
{
    let mut q = from;
    while !seen[q as usize] {
        seen[q as usize] = true;
        path.push(q)?;
        q = up[q as usize];
    }
    Ok(())
}

/// Appends the qubits of a path to an order, from the last one on.
fn list_path(order: &mut Vec<u32>, path: &mut Vec<u32>) -> Result<(), NoMemory>
    ensures listed { OnOk result (order.new.items ≡ order.old.items ++ reverse path.old.items) }
    ensures empty { OnOk result (path.new.items ≡ []) }
{
    while let Some(qubit) = path.pop() {
        order.push(qubit)?;
    }
    Ok(())
}

/// Makes an order that of a chain: the qubits after the first, each once and after its parent.
pub fn reach(
    order: &mut Vec<u32>,
    path: &mut Vec<u32>,
    seen: &mut [bool],
    up: &[u32],
    chain: &[u32],
) -> Result<(), NoMemory>
    requires empty { path.old.items ≡ [] }
    requires filled { chain.now ≢ [] }
    requires sized { length up.now ≡ length seen.old }
    requires within { All (λ q. q < length seen.old) up.now }
    requires tree { Climbable up.now seen.old (first_of chain.now) (drop 1 chain.now) }
    ensures ordered { OnOk result
        ((t : Climbable up.now seen.old (first_of chain.now) (drop 1 chain.now))
        → IsOrder (first_of chain.now) (drop 1 chain.now) t.ps order.new.items) }
    ensures empty { OnOk result (path.new.items ≡ []) }
    ensures sized { OnOk result (length seen.new ≡ length seen.old) }
    ensures others { OnOk result ((q : ℕ) → q < length seen.old → is_in chain.now q ≡ false
        → slice_index_or seen.new q true ≡ slice_index_or seen.old q true) }
{
    order.clear();
    seen[chain[0] as usize] = true;
    for qubit in &chain[1..] {
        climb(path, seen, up, *qubit)?;
        list_path(order, path)?;
    }
    Ok(())
}
