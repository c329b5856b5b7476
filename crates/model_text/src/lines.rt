//! The rows of a text, each put to a sink through a buffer by a function of its own. None takes
//! memory, and after a fault nothing is pending.
ghost use Rattle.std.specs.Prelude.{◌≡◌, ◌+◌, ◌<◌, ◌≤◌, ◌++◌, [], ◌∷◌, pos, length, map, drop};
ghost use Rattle.std.specs.List.{join_with_byte, slice_index_or};
ghost use Rattle.std.specs.Fmt.{decimal, signed_decimal};
ghost use Rattle.edge_io.specs.Sinks.{joined_bytes};
ghost use Rattle.model_text.specs.Rows.{row_text, rows_text, figure_rows, graph_row, chain_row, chain_rows, graph_rows, kind_words, header_row, entry_row, FitsFigures, HasNumbers, FitsGraph};
ghost use Rattle.model_text.specs.Lines.{spaced_numbers, IsPutBy, EndsIn};

use base::Figures;
use bits_model::{ChainList, CouplerList, Entry, EntryList, Graph, Kind, NodeWeights, Row};
use edge_io::{LineBuffer, Sink, WriteFault};
use itoa::{Buffer, write_digits};
use std::marker::Model;

/// Room for a row: two numbers of 10 digits and one of 19, a sign, two spaces and a line feed are 43
/// bytes.
const LINE: usize = 48;

/// Room for a row, and for as many bytes behind it, which are copied with it.
const WIDE: usize = 96;

/// Room for the front of a row: a number of 10 digits and a space.
const FRONT: usize = 11;

/// Where rows are built, each from its end. A weight's text and a line feed stand before `LINE`, and
/// stay there for the rows after it that have the same weight.
#[derive(Drop)]
struct Line {
    bytes: [u8; WIDE],
    weight: i64,
    at: usize,
}

impl Model for Line {
    ghost use Rattle.std.specs.Prelude.{ℤ};
    ghost use Rattle.model_text.specs.Lines.{EndsIn};

    ghost Value = { ℤ };

    ghost view = { λ line. line.weight };

    ghost invariant = { λ line. EndsIn line.bytes line.at line.weight };
}

/// Puts the pieces one after the other.
#[inline(always)]
pub fn put_pieces<S: Sink>(
    buffer: &mut LineBuffer,
    sink: &mut S,
    pieces: &[&[u8]],
) -> Result<(), WriteFault>
    ensures { IsPutBy (S.taken sink.old) (S.taken sink.new) (S.faults sink.old) (S.faults sink.new)
        buffer.old buffer.new (joined_bytes pieces.now) result }
{
    for piece in pieces {
        buffer.put(sink, piece)?;
    }
    Ok(())
}

/// The figures, the unit and the number of variables.
pub fn put_figures<S: Sink>(
    buffer: &mut LineBuffer,
    sink: &mut S,
    figures: Figures,
    unit: i128,
    variables: u32,
) -> Result<(), WriteFault>
    ensures put { IsPutBy (S.taken sink.old) (S.taken sink.new) (S.faults sink.old) (S.faults sink.new)
        buffer.old buffer.new (rows_text (figure_rows figures unit variables)) result }
    ensures fits { FitsFigures figures }
{
    let mut scale = Buffer::new();
    let mut offset = Buffer::new();
    let mut threshold = Buffer::new();
    let mut counted = Buffer::new();
    let mut number = Buffer::new();
    let scale = scale.format(figures.scale).as_bytes();
    let offset = offset.format(figures.offset).as_bytes();
    let threshold = threshold.format(figures.threshold).as_bytes();
    let counted = counted.format(unit).as_bytes();
    let number = number.format(variables).as_bytes();
    put_pieces(
        buffer,
        sink,
        &[
            b"c scale ",
            scale,
            b"\nc offset ",
            offset,
            b"\nc threshold ",
            threshold,
            b"\nc unit ",
            counted,
            b"\nc variables ",
            number,
            b"\n",
        ],
    )
}

/// The qubits, each after a space.
fn put_qubits<S: Sink>(
    buffer: &mut LineBuffer,
    sink: &mut S,
    qubits: &[u32],
) -> Result<(), WriteFault>
    ensures { IsPutBy (S.taken sink.old) (S.taken sink.new) (S.faults sink.old) (S.faults sink.new)
        buffer.old buffer.new (spaced_numbers qubits.now) result }
{
    for qubit in qubits {
        let mut digits = Buffer::new();
        let number = digits.format(*qubit).as_bytes();
        put_pieces(buffer, sink, &[b" ", number])?;
    }
    Ok(())
}

/// The qubits of a node's chain.
fn put_chain<S: Sink>(
    buffer: &mut LineBuffer,
    sink: &mut S,
    node: usize,
    qubits: &[u32],
) -> Result<(), WriteFault>
    ensures { IsPutBy (S.taken sink.old) (S.taken sink.new) (S.faults sink.old) (S.faults sink.new)
        buffer.old buffer.new (row_text (chain_row node qubits.now)) result }
{
    let mut digits = Buffer::new();
    let number = digits.format(node).as_bytes();
    put_pieces(buffer, sink, &[b"c chain ", number])?;
    put_qubits(buffer, sink, qubits)?;
    buffer.put(sink, b"\n")
}

/// Each chain, in order.
fn put_chains<S: Sink>(
    buffer: &mut LineBuffer,
    sink: &mut S,
    chains: &ChainList,
) -> Result<(), WriteFault>
    ensures { IsPutBy (S.taken sink.old) (S.taken sink.new) (S.faults sink.old) (S.faults sink.new)
        buffer.old buffer.new (rows_text (chain_rows 0 chains.now)) result }
{
    for node in 0..chains.len() {
        put_chain(buffer, sink, node, chains.list(node))?;
    }
    Ok(())
}

/// The numbers of a Chimera graph.
fn put_chimera<S: Sink>(
    buffer: &mut LineBuffer,
    sink: &mut S,
    rows: u32,
    cols: u32,
    shore: u32,
) -> Result<(), WriteFault>
    ensures { IsPutBy (S.taken sink.old) (S.taken sink.new) (S.faults sink.old) (S.faults sink.new)
        buffer.old buffer.new (row_text (graph_row (Graph.Chimera rows cols shore))) result }
{
    let mut first = Buffer::new();
    let mut second = Buffer::new();
    let mut third = Buffer::new();
    let first = first.format(rows).as_bytes();
    let second = second.format(cols).as_bytes();
    let third = third.format(shore).as_bytes();
    put_pieces(
        buffer,
        sink,
        &[b"c chimera ", first, b" ", second, b" ", third, b"\n"],
    )
}

/// The number of qubits of a graph that is given as a list.
fn put_listed<S: Sink>(buffer: &mut LineBuffer, sink: &mut S, qubits: u32) -> Result<(), WriteFault>
    ensures { IsPutBy (S.taken sink.old) (S.taken sink.new) (S.faults sink.old) (S.faults sink.new)
        buffer.old buffer.new (row_text (graph_row (Graph.Listed qubits))) result }
{
    let mut digits = Buffer::new();
    let number = digits.format(qubits).as_bytes();
    put_pieces(buffer, sink, &[b"c graph ", number, b"\n"])
}

/// What a graph is, in numbers.
fn put_graph_row<S: Sink>(
    buffer: &mut LineBuffer,
    sink: &mut S,
    graph: Graph,
) -> Result<(), WriteFault>
    ensures put { IsPutBy (S.taken sink.old) (S.taken sink.new) (S.faults sink.old) (S.faults sink.new)
        buffer.old buffer.new (row_text (graph_row graph)) result }
    ensures fits { HasNumbers graph }
{
    match graph {
        Graph::Chimera { rows, cols, shore } => put_chimera(buffer, sink, rows, cols, shore),
        Graph::Listed { qubits } => put_listed(buffer, sink, qubits),
    }
}

/// The graph and the chains, where there are any.
pub fn put_graph<S: Sink>(
    buffer: &mut LineBuffer,
    sink: &mut S,
    kind: Kind,
    chains: &ChainList,
) -> Result<(), WriteFault>
    ensures put { IsPutBy (S.taken sink.old) (S.taken sink.new) (S.faults sink.old) (S.faults sink.new)
        buffer.old buffer.new (rows_text (graph_rows kind chains.now)) result }
    ensures fits { FitsGraph kind }
{
    if let Kind::Qubits(graph) = kind {
        put_graph_row(buffer, sink, graph)?;
        put_chains(buffer, sink, chains)?;
    }
    Ok(())
}

/// The words that name the kind.
fn words_of(kind: Kind) -> &'static [u8]
    ensures { result.now ≡ join_with_byte 32 (kind_words kind) }
{
    match kind {
        Kind::Qubo => b"p qubo 0",
        Kind::Ising | Kind::Qubits(_) => b"p ising",
    }
}

/// The kind, how many nodes there are, and how many entries of nodes and of couplers.
pub fn put_header<S: Sink>(
    buffer: &mut LineBuffer,
    sink: &mut S,
    kind: Kind,
    nodes: u32,
    entries: &EntryList,
) -> Result<(), WriteFault>
    ensures { IsPutBy (S.taken sink.old) (S.taken sink.new) (S.faults sink.old) (S.faults sink.new)
        buffer.old buffer.new (row_text (header_row kind nodes entries.now)) result }
{
    let counts = entries.counts();
    let mut first = Buffer::new();
    let mut second = Buffer::new();
    let mut third = Buffer::new();
    let first = first.format(nodes).as_bytes();
    let second = second.format(counts.nodes).as_bytes();
    let third = third.format(counts.couplers).as_bytes();
    put_pieces(
        buffer,
        sink,
        &[
            words_of(kind),
            b" ",
            first,
            b" ",
            second,
            b" ",
            third,
            b"\n",
        ],
    )
}

/// Writes a byte before `end`, and says where it is.
#[inline(always)]
fn write_byte(byte: u8, line: &mut [u8; WIDE], end: usize) -> usize
    requires { (1 ≤ end) × (end ≤ 48) }
    ensures start { result + 1 ≡ end }
    ensures written { drop result line.new ≡ byte ∷ drop end line.old }
{
    line[end - 1] = byte;
    end - 1
}

/// Writes a number and a space so that they end at `end`, and says where they begin.
#[inline(always)]
fn write_node(node: u32, line: &mut [u8; WIDE], end: usize) -> usize
    requires { (11 ≤ end) × (end ≤ 48) }
    ensures start { (result < end) × (end ≤ result + 11) }
    ensures written { drop result line.new ≡ decimal node ++ 32 ∷ drop end line.old }
    ensures after { drop end line.new ≡ drop end line.old }
{
    let end = write_byte(b' ', line, end);
    write_digits(u64::from(node), line, end)
}

/// Writes a weight and a line feed before `LINE`, and says where they begin.
#[inline(always)]
fn write_weight(weight: i64, line: &mut [u8; WIDE]) -> usize
    ensures { EndsIn line.new result weight }
{
    let end = write_byte(b'\n', line, LINE);
    let at = write_digits(weight.unsigned_abs(), line, end);
    if weight >= 0 {
        at
    } else {
        write_byte(b'-', line, at)
    }
}

impl Line {
    /// A line for rows of weight 0.
    fn new() -> Line
        ensures { result ≡ pos 0 }
    {
        let mut bytes = [0u8; WIDE];
        let at = write_weight(0, &mut bytes);
        Line {
            bytes,
            weight: 0,
            at,
        }
    }

    /// Makes it a line for rows of this weight.
    #[inline(always)]
    fn weigh(&mut self, weight: i64)
        ensures { self.new ≡ weight }
    {
        if weight != self.weight {
            self.at = write_weight(weight, &mut self.bytes);
            self.weight = weight;
        }
    }
}

/// Writes a space at the end of a row's front.
#[inline(always)]
fn write_space(front: &mut [u8; FRONT])
    ensures { drop 10 front.new ≡ 32 ∷ drop 11 front.old }
{
    front[FRONT - 1] = b' ';
}

/// Writes a node's number and a space at the end of a row's front, and says where they begin.
#[inline(always)]
fn write_front(node: u32, front: &mut [u8; FRONT]) -> usize
    ensures within { result ≤ 11 }
    ensures written { drop result front.new ≡ decimal node ++ 32 ∷ [] }
{
    write_space(front);
    write_digits(u64::from(node), front, FRONT - 1)
}

/// Writes a front, whose text begins at `start`, so that it ends at `end`, and says where it begins.
#[inline(always)]
fn copy_front(front: &[u8; FRONT], start: usize, line: &mut [u8; WIDE], end: usize) -> usize
    requires { (start ≤ 11) × (11 ≤ end) × (end ≤ 48) }
    ensures start { result + 11 ≡ end + start }
    ensures written { drop result line.new ≡ drop start front.now ++ drop end line.old }
    ensures after { drop end line.new ≡ drop end line.old }
{
    line[end - FRONT..end].copy_from_slice(front);
    end - FRONT + start
}

/// A weight of any size, after the numbers of its nodes.
#[inline(never)]
fn put_wide<S: Sink>(buffer: &mut LineBuffer, sink: &mut S, entry: &Entry) -> Result<(), WriteFault>
    ensures { IsPutBy (S.taken sink.old) (S.taken sink.new) (S.faults sink.old) (S.faults sink.new)
        buffer.old buffer.new (row_text (entry_row entry.now)) result }
{
    let mut first = Buffer::new();
    let mut second = Buffer::new();
    let mut weight = Buffer::new();
    let first = first.format(entry.first).as_bytes();
    let second = second.format(entry.second).as_bytes();
    let weight = weight.format(entry.weight).as_bytes();
    put_pieces(buffer, sink, &[first, b" ", second, b" ", weight, b"\n"])
}

/// A weight of a node or a coupler, behind the front of its first node.
#[inline(always)]
fn put_entry<S: Sink>(
    line: &mut Line,
    front: &[u8; FRONT],
    start: usize,
    buffer: &mut LineBuffer,
    sink: &mut S,
    entry: &Entry,
) -> Result<(), WriteFault>
    requires within { start ≤ 11 }
    requires front { drop start front.now ≡ decimal entry.now.first ++ 32 ∷ [] }
    ensures { IsPutBy (S.taken sink.old) (S.taken sink.new) (S.faults sink.old) (S.faults sink.new)
        buffer.old buffer.new (row_text (entry_row entry.now)) result }
{
    match i64::try_from(entry.weight) {
        Ok(weight) => {
            line.weigh(weight);
            let at = write_node(entry.second, &mut line.bytes, line.at);
            let at = copy_front(front, start, &mut line.bytes, at);
            buffer.put_front(sink, &line.bytes[at..at + LINE], LINE - at)
        }
        Err(_) => put_wide(buffer, sink, entry),
    }
}

/// The weight of a node.
#[inline(always)]
fn put_node<S: Sink>(
    line: &mut Line,
    buffer: &mut LineBuffer,
    sink: &mut S,
    entry: &Entry,
) -> Result<(), WriteFault>
    ensures { IsPutBy (S.taken sink.old) (S.taken sink.new) (S.faults sink.old) (S.faults sink.new)
        buffer.old buffer.new (row_text (entry_row entry.now)) result }
{
    let mut front = [0u8; FRONT];
    let start = write_front(entry.first, &mut front);
    put_entry(line, &front, start, buffer, sink, entry)
}

/// Each weight of a node, in order.
fn put_nodes<S: Sink>(
    line: &mut Line,
    buffer: &mut LineBuffer,
    sink: &mut S,
    weights: &NodeWeights,
) -> Result<(), WriteFault>
    ensures { IsPutBy (S.taken sink.old) (S.taken sink.new) (S.faults sink.old) (S.faults sink.new)
        buffer.old buffer.new (rows_text (map entry_row weights.now)) result }
{
    for entry in weights.iter() {
        put_node(line, buffer, sink, &entry)?;
    }
    Ok(())
}

/// The entry of a row at an index.
#[inline(always)]
fn entry_at(row: &Row<'_>, index: usize) -> Entry
    requires { index < length row.now }
    ensures { slice_index_or row.now index result ≡ result }
{
    Entry {
        first: row.first(),
        second: row.second(index),
        weight: row.weight(index),
    }
}

/// Each weight of a row of couplers, in order.
fn put_row<S: Sink>(
    line: &mut Line,
    buffer: &mut LineBuffer,
    sink: &mut S,
    row: &Row<'_>,
) -> Result<(), WriteFault>
    ensures { IsPutBy (S.taken sink.old) (S.taken sink.new) (S.faults sink.old) (S.faults sink.new)
        buffer.old buffer.new (rows_text (map entry_row row.now)) result }
{
    let mut front = [0u8; FRONT];
    let start = write_front(row.first(), &mut front);
    for index in 0..row.len() {
        let entry = entry_at(row, index);
        put_entry(line, &front, start, buffer, sink, &entry)?;
    }
    Ok(())
}

/// Each weight of a coupler, in order.
fn put_couplers<S: Sink>(
    line: &mut Line,
    buffer: &mut LineBuffer,
    sink: &mut S,
    couplers: &CouplerList,
) -> Result<(), WriteFault>
    ensures { IsPutBy (S.taken sink.old) (S.taken sink.new) (S.faults sink.old) (S.faults sink.new)
        buffer.old buffer.new (rows_text (map entry_row couplers.now)) result }
{
    for index in 0..couplers.row_count() {
        let row = couplers.row(index);
        put_row(line, buffer, sink, &row)?;
    }
    Ok(())
}

/// Each weight, in order.
pub fn put_entries<S: Sink>(
    buffer: &mut LineBuffer,
    sink: &mut S,
    entries: &EntryList,
) -> Result<(), WriteFault>
    ensures { IsPutBy (S.taken sink.old) (S.taken sink.new) (S.faults sink.old) (S.faults sink.new)
        buffer.old buffer.new (rows_text (map entry_row entries.now)) result }
{
    let mut line = Line::new();
    put_nodes(&mut line, buffer, sink, &entries.nodes)?;
    put_couplers(&mut line, buffer, sink, &entries.couplers)
}
