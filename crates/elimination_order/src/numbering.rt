//! New numbers of nodes: the node that is eliminated last gets 0, and the one before it gets 1.
ghost use Rattle.std.specs.Prelude.{◌≡◌, ◌<◌, ◌≤◌, ◌^◌, ℕ, IfOk, length, reverse};
ghost use Rattle.std.specs.List.{slice_index_or};
ghost use Rattle.elimination_order.specs.Orders.{AreNodes};
ghost use Rattle.elimination_order.specs.Renumbered.{AreNumbers, bits_by};

use base::NoMemory;
use bits_model::bit_at;
use std::alloc::Global;

/// The nodes by their new numbers, and the new number of each node.
#[derive(Drop)]
pub struct Numbering {
    pub names: Vec<u32>,
    pub numbers: Vec<u32>,
}

/// Nodes in 4 bytes each.
fn narrowed(alloc: Global, order: &[u64]) -> Result<Vec<u32>, NoMemory>
    requires { (j : ℕ) → j < length order.now → slice_index_or order.now j 0 < 2 ^ 32 }
    ensures { IfOk result (λ narrow. narrow.items ≡ order.now) }
{
    let mut narrow = Vec::with_capacity(alloc, order.len())?;
    for k in 0..order.len() {
        narrow.push(order[k] as u32)?;
    }
    Ok(narrow)
}

/// The new numbers of nodes, which are named in the order of these.
fn numbers_of(alloc: Global, names: &[u32]) -> Result<Vec<u32>, NoMemory>
    requires nodes { AreNodes (length names.now) names.now }
    requires few { length names.now ≤ 2 ^ 32 }
    ensures { IfOk result (λ numbers. AreNumbers (length names.now) names.now numbers.items) }
{
    let mut numbers = vec![in alloc; 0; names.len()]?;
    for k in 0..names.len() {
        numbers[names[k] as usize] = k as u32;
    }
    Ok(numbers)
}

/// The bits that a state has at these nodes, one after another. By the new numbers of all nodes it
/// takes a state back, and by the nodes of all new numbers it carries one.
pub fn taken_back(alloc: Global, numbers: &[u32], x: &[bool]) -> Result<Vec<bool>, NoMemory>
    ensures { IfOk result (λ y. y.items ≡ bits_by numbers.now x.now) }
{
    let y = numbers
        .iter()
        .map(|number| bit_at(x, *number as usize))
        .collect(alloc)?;
    Ok(y)
}

impl Numbering {
    /// The new numbers that an order gives to its nodes.
    pub fn of(alloc: Global, order: &[u64]) -> Result<Numbering, NoMemory>
        requires nodes { AreNodes (length order.now) order.now }
        requires few { length order.now ≤ 2 ^ 32 }
        ensures names { IfOk result (λ made. made.names.items ≡ reverse order.now) }
        ensures numbers { IfOk result (λ made.
            AreNumbers (length order.now) made.names.items made.numbers.items) }
    {
        let mut names = narrowed(alloc, order)?;
        names.reverse();
        let numbers = numbers_of(alloc, &names)?;
        Ok(Numbering { names, numbers })
    }
}
