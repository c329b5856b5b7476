//! Numbers and maps that look random.
use base::NoMemory;
use chain_map::ChainMap;
use std::alloc::Global;

/// Numbers that look random.
#[derive(Drop)]
pub(crate) struct Dice {
    pub state: u64,
}

impl Dice {
    /// A number below this one, which is not 0.
    pub(crate) fn roll(&mut self, below: u64) -> u64 {
        self.state = self
            .state
            .wrapping_mul(6364136223846793005)
            .wrapping_add(1442695040888963407);
        if below == 0 {
            0
        } else {
            (self.state >> 33) % below
        }
    }
}

/// A chain of up to four numbers, nearly all of them qubits, in place of what the list had.
fn fill_chain(dice: &mut Dice, qubits: u64, chain: &mut Vec<u64>) -> Result<(), NoMemory> {
    chain.clear();
    let kind = dice.roll(40);
    let len = if kind == 0 {
        0
    } else {
        dice.roll(4).saturating_add(1)
    };
    for _ in 0..len {
        chain.push(dice.roll(qubits))?;
    }
    if kind == 1 {
        chain.push(qubits.saturating_add(dice.roll(2)))?;
    }
    Ok(())
}

fn push_chains(
    dice: &mut Dice,
    qubits: u64,
    map: &mut ChainMap,
    chain: &mut Vec<u64>,
    nodes: usize,
) -> Result<(), NoMemory> {
    for _ in 0..nodes {
        fill_chain(dice, qubits, chain)?;
        map.push(chain)?;
    }
    Ok(())
}

/// A map of so many chains.
pub(crate) fn random_map(
    alloc: Global,
    dice: &mut Dice,
    nodes: usize,
    qubits: u64,
) -> Result<ChainMap, NoMemory> {
    let mut map = ChainMap::new(alloc);
    let mut chain = Vec::new(alloc);
    push_chains(dice, qubits, &mut map, &mut chain, nodes)?;
    Ok(map)
}
