//! Elimination of nodes, one after another.
ghost use Rattle.std.specs.Prelude.{◌≡◌, ◌≤◌, ◌^◌, ◌*◌, ◌+◌, ◌+ℤ◌, ℕ, List, Bool, true, false, [], IfOk, OnOk, length, map, pos, replicate, unsigned_abs};
ghost use Rattle.std.specs.List.{sum_by};
ghost use Rattle.base.specs.Sums.{total_by, if_so};
ghost use Rattle.base.specs.Costs.{energy};
ghost use Rattle.bits_model.specs.Output.{bit_at, form_of, weight_total};
ghost use Rattle.bits_model.specs.Walks.{is_in};
ghost use Rattle.basic_solve.specs.Bits.{all_bits};
ghost use Rattle.basic_solve.specs.Tables.{sum_where, step_at, AreChoices, AreEntriesOf, IsReady, IsSettled, IsTableOfBit, LeadTo};
ghost use Rattle.basic_solve.specs.Widths.{AreNeighbourhoods};

use crate::buckets::Buckets;
use crate::columns::{Columns, ColumnsLeft};
use crate::energies::{base, step_of};
use crate::numbers::Number;
use crate::passed::{Places, Table, add_table, pass_table, taken_values};
use crate::steps::add_for;
use crate::tables::{take_lesser, write_choices, write_doubled};
use base::Lists;
use bits_model::{ChainList, Entry, Kind, NoMemory};
use std::alloc::Global;
use std::mem;

/// Makes so many steps of 0.
fn begin_steps(into: &mut Vec<i128>, count: usize) -> Result<(), NoMemory>
    ensures { OnOk result (into.new.items ≡ replicate count (pos 0)) }
{
    into.clear();
    into.resize(count, 0)?;
    Ok(())
}

/// What each neighbour adds where its bit is 1, and the node has this bit.
fn steps(
    into: &mut Vec<i128>,
    kind: Kind,
    bit: bool,
    nodes: &[u32],
    entries: &[Entry],
) -> Result<(), NoMemory>
    requires members { LeadTo nodes.now entries.now }
    requires small { weight_total entries.now ≤ 2 ^ 124 }
    ensures count { OnOk result (length into.new.items ≡ length nodes.now) }
    ensures sums { OnOk result ((y : List Bool)
        → sum_where y nodes.now into.new.items ≡ total_by (step_at kind bit y) entries.now) }
    ensures size { OnOk result
        (sum_by unsigned_abs into.new.items ≤ 2 * weight_total entries.now) }
{
    begin_steps(into, nodes.len())?;
    for entry in entries {
        if entry.first != entry.second {
            add_for(nodes, into, entry.first, &step_of(kind, bit, entry));
        }
    }
    Ok(())
}

/// Makes a table have so many numbers.
fn resize<T: Number>(values: &mut Vec<T>, count: usize) -> Result<(), NoMemory>
    ensures { OnOk result (length values.new.items ≡ count) }
{
    values.resize(count, T::of(&0))?;
    Ok(())
}

/// Memory that is used again for each node.
#[derive(Drop)]
struct Room {
    steps: Vec<i128>,
    places: Places,
}

/// Writes the table of a node over the bits of its neighbours, where its own bit is this one.
fn write_table<T: Number>(
    room: &mut Room,
    values: &mut Vec<T>,
    kind: Kind,
    node: usize,
    bit: bool,
    nodes: &[u32],
    entries: &[Entry],
    tables: &[Table<'_, T>],
) -> Result<(), NoMemory>
    requires { IsReady node nodes.now entries.now tables.now T.room }
    ensures { OnOk result (IsTableOfBit kind node bit nodes.now entries.now tables.now
        (map T.value values.new.items)) }
{
    steps(&mut room.steps, kind, bit, nodes, entries)?;
    resize(values, 1 << nodes.len())?;
    write_doubled(values, &base(kind, bit, entries), &room.steps);
    for table in tables {
        add_table(&mut room.places, values, nodes, bit, table)?;
    }
    Ok(())
}

/// Writes the lesser numbers of a node, over the bits of its neighbours, and the bits with which it
/// adds them.
fn settle<T: Number>(
    room: &mut Room,
    values: &mut Vec<T>,
    ones: &mut Vec<T>,
    bytes: &mut Vec<u8>,
    kind: Kind,
    node: usize,
    nodes: &[u32],
    entries: &[Entry],
    tables: &[Table<'_, T>],
) -> Result<(), NoMemory>
    requires { IsReady node nodes.now entries.now tables.now T.room }
    ensures { OnOk result (IsSettled kind node nodes.now entries.now tables.now
        (map T.value values.new.items) (all_bits bytes.new.items)) }
{
    write_table(room, values, kind, node, false, nodes, entries, tables)?;
    write_table(room, ones, kind, node, true, nodes, entries, tables)?;
    write_choices(bytes, values, ones)?;
    take_lesser(values, ones);
    Ok(())
}

/// What is taken up for one node at a time: its entries and the tables that were passed to it, its
/// own tables and bytes, and memory that is used again.
struct Scratch<'a, T: Number> {
    room: Room,
    entries: Vec<Entry>,
    tables: Vec<Table<'a, T>>,
    values: Vec<T>,
    ones: Vec<T>,
    bytes: Vec<u8>,
}

impl<'a, T: Number> Drop for Scratch<'a, T> {
    fn drop(self) {
        let Scratch {
            room: _room,
            entries: _entries,
            tables: _tables,
            values: _values,
            ones: _ones,
            bytes: _bytes,
        } = self;
    }
}

impl<'a, T: Number> Scratch<'a, T> {
    /// Takes no memory.
    fn empty(alloc: Global) -> Scratch<'a, T> {
        Scratch {
            room: Room {
                steps: Vec::new(alloc),
                places: Places::empty(alloc),
            },
            entries: Vec::new(alloc),
            tables: Vec::new(alloc),
            values: Vec::new(alloc),
            ones: Vec::new(alloc),
            bytes: Vec::new(alloc),
        }
    }
}

/// Appends the bits that each node chooses, from the last node to node 0, which gives its table to
/// the highest of its neighbours.
fn choose_all<'a, T: Number>(
    alloc: Global,
    scratch: &mut Scratch<'a, T>,
    model: &Columns,
    sets: &'a ChainList,
    held: &mut ColumnsLeft<'_>,
    waiting: &mut Buckets<Table<'a, T>>,
    choices: &mut Lists<u8>,
) -> Result<(), NoMemory>
    requires sets { AreNeighbourhoods 16 model.now sets.now }
    requires small { 3 * weight_total model.now.entries ≤ T.room }
    requires held { AreEntriesOf model.now.nodes model.now.entries held.old }
    requires waiting { waiting.old ≡ replicate model.now.nodes [] }
    requires none { choices.old ≡ [] }
    ensures { OnOk result (AreChoices model.now.nodes (energy (form_of model.now))
        sets.now (map all_bits choices.new)) }
{
    let nodes = model.nodes as usize;
    for step in 0..nodes {
        let set = sets.list(step);
        let node = nodes - 1 - step;
        held.take_last(&mut scratch.entries)?;
        scratch.tables = waiting.take_last();
        settle(
            &mut scratch.room,
            &mut scratch.values,
            &mut scratch.ones,
            &mut scratch.bytes,
            model.kind,
            node,
            set,
            &scratch.entries,
            &scratch.tables,
        )?;
        choices.push(&scratch.bytes)?;
        let spare = taken_values(alloc, &mut scratch.tables);
        let values = mem::replace(&mut scratch.values, spare);
        pass_table(alloc, waiting, set, values)?;
    }
    Ok(())
}

/// The bits that each node chooses, from the last node to node 0.
pub(crate) fn all_choices<T: Number>(
    alloc: Global,
    model: &Columns,
    sets: &ChainList,
) -> Result<Lists<u8>, NoMemory>
    requires sets { AreNeighbourhoods 16 model.now sets.now }
    requires small { 3 * weight_total model.now.entries ≤ T.room }
    ensures { IfOk result (λ choices. AreChoices model.now.nodes (energy (form_of model.now))
        sets.now (map all_bits choices)) }
{
    let nodes = model.nodes as usize;
    let mut waiting: Buckets<Table<'_, T>> = Buckets::empty(alloc, nodes)?;
    let mut held = model.left();
    let mut scratch = Scratch::empty(alloc);
    let mut choices = Lists::empty(alloc);
    choose_all(
        alloc,
        &mut scratch,
        model,
        sets,
        &mut held,
        &mut waiting,
        &mut choices,
    )?;
    Ok(choices)
}
