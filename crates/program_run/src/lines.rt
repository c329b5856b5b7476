//! The line for a status, of pieces that take no memory, in one write.
ghost use Rattle.std.specs.Prelude.{◌≡◌, [], ◌∷◌, codes};
ghost use Rattle.program_run.specs.Lines.{error_line, fault_pieces, kind_end, limit_words, proof_pieces, IsSaid, AreSaid, with_number, with_numbers, wide_pieces};

use crate::one_write::write_line;
use chain_map::EmbedFault;
use edge_io::Sink;
use itoa::Buffer;
use posiform_check::ProofFault;
use problem_form::LimitKind;
use run_steps::Status;
use whole_text::TextKind;

fn kind_end(kind: TextKind) -> &'static [u8]
    ensures { result.now ≡ kind_end kind }
{
    match kind {
        TextKind::Word => b": word\n",
        TextKind::Number => b": number\n",
        TextKind::Range => b": range\n",
        TextKind::End => b": end\n",
        TextKind::Extra => b": extra\n",
    }
}

fn limit_words(kind: LimitKind) -> &'static [u8]
    ensures { result.now ≡ limit_words kind }
{
    match kind {
        LimitKind::Bytes => b": limit bytes ",
        LimitKind::Variables => b": limit variables ",
        LimitKind::Degree => b": limit degree ",
        LimitKind::Negations => b": limit negations ",
        LimitKind::Pairs => b": limit pairs ",
        LimitKind::Weight => b": limit weight ",
    }
}

/// Writes four pieces, or a front of them where the sink fails.
fn put<E: Sink>(err: &mut E, first: &[u8], second: &[u8], third: &[u8], last: &[u8])
    ensures { AreSaid (E.taken err.old) (E.taken err.new) (E.faults err.old) (E.faults err.new)
        (first.now ∷ second.now ∷ third.now ∷ last.now ∷ []) }
{
    let _ = write_line(err, &[first, second, third, last]);
}

/// Writes six pieces, or a front of them where the sink fails.
fn put_six<E: Sink>(
    err: &mut E,
    first: &[u8],
    second: &[u8],
    third: &[u8],
    fourth: &[u8],
    fifth: &[u8],
    last: &[u8],
)
    ensures { AreSaid (E.taken err.old) (E.taken err.new) (E.faults err.old) (E.faults err.new)
        (first.now ∷ second.now ∷ third.now ∷ fourth.now ∷ fifth.now ∷ last.now ∷ []) }
{
    let _ = write_line(err, &[first, second, third, fourth, fifth, last]);
}

/// Writes what is wrong with an embedding in words round a number, or a front of them where the
/// sink fails.
fn put_number<E: Sink>(err: &mut E, before: &[u8], number: u64, after: &[u8])
    ensures { AreSaid (E.taken err.old) (E.taken err.new) (E.faults err.old) (E.faults err.new)
        (with_number before.now number after.now) }
{
    let mut digits = Buffer::new();
    let number = digits.format(number).as_bytes();
    put(err, b"not embedded: ", before, number, after);
}

/// The same, in words round two numbers.
fn put_numbers<E: Sink>(
    err: &mut E,
    before: &[u8],
    first: u64,
    between: &[u8],
    second: u64,
    after: &[u8],
)
    ensures { AreSaid (E.taken err.old) (E.taken err.new) (E.faults err.old) (E.faults err.new)
        (with_numbers before.now first between.now second after.now) }
{
    let mut digits = Buffer::new();
    let mut others = Buffer::new();
    let first = digits.format(first).as_bytes();
    let second = others.format(second).as_bytes();
    let opening = b"not embedded: ";
    put_six(err, opening, before, first, between, second, after);
}

/// Writes the line for an embedding that is not valid, or a front of it where the sink fails.
fn say_fault<E: Sink>(fault: EmbedFault, err: &mut E)
    ensures { AreSaid (E.taken err.old) (E.taken err.new) (E.faults err.old) (E.faults err.new)
        (codes "not embedded: " ∷ fault_pieces fault) }
{
    match fault {
        EmbedFault::ChainCount(count) => put_number(err, b"", count as u64, b" chains\n"),
        EmbedFault::EmptyChain(node) => put_number(err, b"chain ", node as u64, b" is empty\n"),
        EmbedFault::NoSuchQubit(node, qubit) => {
            put_numbers(err, b"chain ", node as u64, b" names qubit ", qubit, b"\n");
        }
        EmbedFault::Repeated(qubit) => put_number(err, b"qubit ", qubit, b" is repeated\n"),
        EmbedFault::Disconnected(node, qubit) => {
            let node = node as u64;
            put_numbers(
                err,
                b"chain ",
                node,
                b" does not reach qubit ",
                qubit,
                b"\n",
            );
        }
        EmbedFault::NoCoupler(a, b) => {
            let a = a as u64;
            put_numbers(err, b"no coupler between ", a, b" and ", b as u64, b"\n");
        }
        EmbedFault::TooManyNodes(nodes, places) => {
            let nodes = nodes as u64;
            put_numbers(err, b"", nodes, b" nodes for ", places as u64, b" places\n");
        }
    }
}

/// Writes the line for a model that is too wide, or a front of it where the sink fails.
fn say_wide<E: Sink>(node: u32, width: u32, err: &mut E)
    ensures { AreSaid (E.taken err.old) (E.taken err.new) (E.faults err.old) (E.faults err.new)
        (wide_pieces node width) }
{
    let mut digits = Buffer::new();
    let mut others = Buffer::new();
    let node = digits.format(node).as_bytes();
    let width = others.format(width).as_bytes();
    put_six(
        err,
        b"too wide: ",
        b"node ",
        node,
        b" has ",
        width,
        b" neighbours\n",
    );
}

/// Writes two coefficients that differ, or a front of their line where the sink fails.
fn say_difference<E: Sink>(ours: i128, theirs: i128, err: &mut E)
    ensures { AreSaid (E.taken err.old) (E.taken err.new) (E.faults err.old) (E.faults err.new)
        (codes "not proved: " ∷ proof_pieces (ProofFault.Differs ours theirs)) }
{
    let mut digits = Buffer::new();
    let mut others = Buffer::new();
    let ours = digits.format(ours).as_bytes();
    let theirs = others.format(theirs).as_bytes();
    let opening = b"not proved: ";
    put_six(
        err,
        opening,
        b"coefficients ",
        ours,
        b" and ",
        theirs,
        b"\n",
    );
}

/// Writes the line for a state that is not proved, or a front of it where the sink fails.
fn say_unproved<E: Sink>(fault: ProofFault, err: &mut E)
    ensures { AreSaid (E.taken err.old) (E.taken err.new) (E.faults err.old) (E.faults err.new)
        (codes "not proved: " ∷ proof_pieces fault) }
{
    let mut digits = Buffer::new();
    match fault {
        ProofFault::Negative(line) => {
            let line = digits.format(line).as_bytes();
            put(err, b"not proved: ", b"line ", line, b" is negative\n");
        }
        ProofFault::Differs(ours, theirs) => say_difference(ours, theirs, err),
        ProofFault::NotZero(above) => {
            let above = digits.format(above).as_bytes();
            put(err, b"not proved: ", above, b" above the bound\n", b"");
        }
    }
}

/// Writes the line for a status, of the file's name, or a front of it where the sink fails.
pub fn say<E: Sink>(status: Status, name: &str, err: &mut E)
    ensures said { IsSaid (E.taken err.old) (E.taken err.new) (E.faults err.old) (E.faults err.new)
        (error_line status name.now) }
    ensures silent { status ≡ Status.Done → err.new ≡ err.old }
{
    let mut digits = Buffer::new();
    let name = name.as_bytes();
    match status {
        Status::Done => {}
        Status::Usage(position) => {
            let position = digits.format(position).as_bytes();
            put(err, b"usage: word ", position, b"\n", b"");
        }
        Status::ReadFault(_) => put(err, b"cannot read ", name, b"\n", b""),
        Status::WriteFault => put(err, b"cannot write\n", b"", b"", b""),
        Status::BadText(_, kind, line) => {
            let line = digits.format(line).as_bytes();
            put(err, name, b":", line, kind_end(kind));
        }
        Status::Limit(_, kind, number) => {
            let number = digits.format(number).as_bytes();
            put(err, name, limit_words(kind), number, b"\n");
        }
        Status::NotEmbedded(fault) => say_fault(fault, err),
        Status::NoState(length) => {
            let length = digits.format(length).as_bytes();
            put(err, name, b": no state of ", length, b" characters\n");
        }
        Status::TooWide(node, width) => say_wide(node, width, err),
        Status::NotProved(fault) => say_unproved(fault, err),
        Status::NoMemory => put(err, b"out of memory\n", b"", b"", b""),
    }
}
