//! Small forms that look random, and maps whose chains grow along joins.
ghost use Rattle.std.specs.Prelude.{IfOk, IfSome};
ghost use Rattle.embedding_tests.specs.SmallForms.{IsSmall};

use crate::forms::{Row, small_form};
use crate::plain::meets;
use crate::random::Dice;
use base::NoMemory;
use chain_map::ChainMap;
use hardware::Hardware;
use ising_form::Ising;
use std::alloc::Global;

/// The pairs of up to four nodes, in order.
const PAIRS: [(u32, u32); 6] = [(0, 1), (0, 2), (0, 3), (1, 2), (1, 3), (2, 3)];

/// A weight from -4 to 4.
fn draw_weight(dice: &mut Dice) -> i128 {
    dice.roll(9) as i128 - 4
}

fn draw_fields(dice: &mut Dice) -> [i128; 4] {
    [
        draw_weight(dice),
        draw_weight(dice),
        draw_weight(dice),
        draw_weight(dice),
    ]
}

/// Draws couplings of some pairs of nodes.
fn draw_couplings(dice: &mut Dice, nodes: u32, rows: &mut Vec<Row>) -> Result<(), NoMemory> {
    for (first, second) in PAIRS {
        let weight = draw_weight(dice);
        if second < nodes && weight != 0 && dice.roll(3) != 0 {
            rows.push((first, second, weight))?;
        }
    }
    Ok(())
}

/// A form of up to four nodes.
pub(crate) fn draw_form(
    alloc: Global,
    dice: &mut Dice,
    nodes: u32,
) -> Result<Option<Ising>, NoMemory>
    ensures { IfOk result (λ made. IfSome made IsSmall) }
{
    let constant = draw_weight(dice);
    let fields = draw_fields(dice);
    let mut rows = Vec::new(alloc);
    draw_couplings(dice, nodes, &mut rows)?;
    small_form(alloc, constant, &fields[..nodes.min(4) as usize], &rows)
}

/// A chain in place of what the list had: qubits that were free, each joined to one before it.
fn grow_chain<H: Hardware>(
    hardware: &H,
    dice: &mut Dice,
    taken: &mut u64,
    chain: &mut Vec<u64>,
) -> Result<(), NoMemory> {
    chain.clear();
    let most = dice.roll(4) as usize;
    for _ in 0..30 {
        let qubit = dice.roll(hardware.qubits() as u64);
        let is_next = chain.is_empty() || meets(hardware, chain, u64::MAX, qubit);
        if is_next && chain.len() <= most && qubit < 64 && (*taken >> qubit) % 2 == 0 {
            *taken |= 1 << qubit;
            chain.push(qubit)?;
        }
    }
    if dice.roll(2) == 1 {
        chain.reverse();
    }
    Ok(())
}

fn grow_chains<H: Hardware>(
    hardware: &H,
    dice: &mut Dice,
    map: &mut ChainMap,
    chain: &mut Vec<u64>,
    nodes: u32,
) -> Result<(), NoMemory> {
    let mut taken: u64 = 0;
    for _ in 0..nodes {
        grow_chain(hardware, dice, &mut taken, chain)?;
        map.push(chain)?;
    }
    Ok(())
}

/// Chains that no two nodes share.
pub(crate) fn grow_map<H: Hardware>(
    alloc: Global,
    hardware: &H,
    dice: &mut Dice,
    nodes: u32,
) -> Result<ChainMap, NoMemory> {
    let mut map = ChainMap::new(alloc);
    let mut chain = Vec::new(alloc);
    grow_chains(hardware, dice, &mut map, &mut chain, nodes)?;
    Ok(map)
}
