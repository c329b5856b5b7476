//! Every state decoded, every assignment extended and the model solved, through whole runs, for sixty
//! small sources, without a bound and with some: what is written is compared with plain arithmetic on
//! the text of the model.
use crate::models::{INFINITE, Model, Target, bit, bounded, model_in, numbers, numbers_of, parted};
use crate::runs::{Named, Ran, SOUND, owned, push_file, push_words, run_over};
use crate::small_sources::{FORMATS, NAMES};
use std::alloc::{AllocError, Global};
use std::test::Fail;

/// A source, and its place among those of its format, which chooses what is asked of it.
#[derive(Clone, Copy)]
struct Asked<'a> {
    format: &'static str,
    text: &'a str,
    index: usize,

    /// The most that an assignment may cost: no bound where it is `INFINITE`.
    most: i64,

    /// How many nodes its Ising model has, and so how many qubits are on each side of the cell.
    nodes: u32,
}

impl Asked<'_> {
    fn target(&self) -> Target {
        match self.index % 3 {
            0 => Target::Qubo,
            1 => Target::Ising,
            _ => Target::Cell,
        }
    }

    /// The key that says where the chains of a cell come from.
    fn chains(&self) -> &'static str {
        match self.index % 2 {
            1 => "map=m",
            _ => "embed=clique",
        }
    }

    /// The keys that every target has.
    fn choices(&self) -> [&'static str; 3] {
        [
            match self.index % 4 {
                1 => "normal=multilinear",
                _ => "normal=literal",
            },
            match self.index % 5 {
                2 => "high=rosenberg",
                _ => "high=monomial",
            },
            match self.index % 2 {
                1 => "unit=reduce",
                _ => "unit=one",
            },
        ]
    }
}

/// Appends the keys of a cell, with the chains of a clique or those of a map.
fn push_cell(alloc: Global, words: &mut Vec<String>, asked: &Asked) -> Result<(), AllocError> {
    push_words(alloc, words, &["rows=1", "cols=1"])?;
    words.push(format!(in alloc; "shore={}", asked.nodes)?)?;
    words.push(String::from_str(alloc, asked.chains())?)?;
    Ok(())
}

/// Appends the words behind the verb, the format, the target and the source.
fn push_keys(
    alloc: Global,
    words: &mut Vec<String>,
    verb: &'static str,
    target: Target,
    asked: &Asked,
) -> Result<(), AllocError> {
    if matches!(verb, "decode" | "extend") {
        push_words(alloc, words, &["s"])?;
    }
    if asked.most != INFINITE {
        words.push(format!(in alloc; "bound={}", asked.most)?)?;
    }
    if target == Target::Cell {
        push_cell(alloc, words, asked)?;
    }
    push_words(alloc, words, &asked.choices())
}

/// The words of a run of this verb.
fn words_of(
    alloc: Global,
    verb: &'static str,
    target: Target,
    asked: &Asked,
) -> Result<Vec<String>, AllocError> {
    let mut words = owned(alloc, &[verb, asked.format, target.word(), "a"])?;
    push_keys(alloc, &mut words, verb, target, asked)?;
    Ok(words)
}

fn push_chains(map: &mut String, nodes: u32) -> Result<(), Fail> {
    for node in 0..nodes {
        writeln!(map, "{node} {} {node}", node.saturating_add(nodes))?;
    }
    Ok(())
}

/// A map whose chains begin on the other side of the cell than those of a clique.
fn map_text(alloc: Global, nodes: u32) -> Result<String, Fail> {
    let mut map = String::new(alloc);
    push_chains(&mut map, nodes)?;
    Ok(map)
}

fn push_files(alloc: Global, files: &mut Named, asked: &Asked, bits: &str) -> Result<(), Fail> {
    push_file(alloc, files, "a", String::from_str(alloc, asked.text)?)?;
    push_file(alloc, files, "m", map_text(alloc, asked.nodes)?)?;
    push_file(alloc, files, "s", String::from_str(alloc, bits)?)?;
    Ok(())
}

/// The source, the map, and the state or the assignment.
fn files_of(alloc: Global, asked: &Asked, bits: &str) -> Result<Named, Fail> {
    let mut files = Vec::new(alloc);
    push_files(alloc, &mut files, asked, bits)?;
    Ok(files)
}

/// What a run of this verb gives.
fn run_of(
    alloc: Global,
    verb: &'static str,
    target: Target,
    asked: &Asked,
    bits: &str,
) -> Result<Ran, Fail> {
    let words = words_of(alloc, verb, target, asked)?;
    run_over(alloc, &words, files_of(alloc, asked, bits)?, SOUND)
}

/// The numbers of the source's model for a target; none where there is no model.
fn compiled_for(alloc: Global, target: Target, asked: &Asked) -> Result<Vec<i64>, Fail> {
    let ran = run_of(alloc, "compile", target, asked, "")?;
    Ok(numbers_of(alloc, &ran)?)
}

/// Appends bits as digits, the first one first.
fn push_digits(text: &mut String, bits: u64, count: u32) -> Result<(), AllocError> {
    for place in 0..count {
        text.push_str(match bit(bits, i64::from(place)) {
            true => "1",
            false => "0",
        })?;
    }
    Ok(())
}

fn digits(alloc: Global, bits: u64, count: u32) -> Result<String, AllocError> {
    let mut text = String::new(alloc);
    push_digits(&mut text, bits, count)?;
    Ok(text)
}

/// The number of the state on the first line of a text.
fn state_in(text: &[u8]) -> u64 {
    let text = std::str::from_utf8(text).unwrap_or("");
    let line = text
        .lines()
        .next()
        .and_then(|line| line.strip_prefix("state "));
    let mut state: u64 = 0;
    for digit in line.unwrap_or("").bytes().rev() {
        state = state.wrapping_shl(1) | u64::from(digit == b'1');
    }
    state
}

/// Appends a row for each name of a variable.
fn push_names(text: &mut String, assignment: u64) -> Result<(), Fail> {
    for (name, place) in NAMES {
        let bit = i32::from(bit(assignment, place));
        writeln!(text, "name {name} {bit}")?;
    }
    Ok(())
}

/// Appends the rows of a cost and an energy.
fn push_last(text: &mut String, cost: i64, energy: i64) -> Result<(), Fail> {
    if cost == INFINITE {
        text.push_str("cost infinite\n")?;
    } else {
        writeln!(text, "cost {cost}")?;
    }
    writeln!(text, "energy {energy}")?;
    Ok(())
}

fn cost_of(costs: &[i64], assignment: u64) -> i64 {
    costs.get(assignment as usize).copied().unwrap_or(INFINITE)
}

/// Appends the rows of an assignment.
fn push_assignment(
    text: &mut String,
    asked: &Asked,
    model: Model,
    assignment: u64,
) -> Result<(), Fail> {
    text.push_str("assignment ")?;
    push_digits(text, assignment, model.variables)?;
    text.push_str("\n")?;
    if asked.format == "poly" {
        push_names(text, assignment)?;
    }
    Ok(())
}

/// Appends what is to be written for a state that is decoded.
fn push_decoding(
    text: &mut String,
    asked: &Asked,
    costs: &[i64],
    model: Model,
    state: u64,
) -> Result<(), Fail> {
    let assignment = model.decoded(state);
    push_assignment(text, asked, model, assignment)?;
    push_last(text, cost_of(costs, assignment), model.energy(state))
}

/// Whether a run decodes a state as plain arithmetic does.
fn is_decoded(
    alloc: Global,
    asked: &Asked,
    costs: &[i64],
    model: Model,
    state: u64,
    ran: &Ran,
) -> Result<bool, Fail> {
    let mut wanted = String::new(alloc);
    push_decoding(&mut wanted, asked, costs, model, state)?;
    Ok(ran.wrote(wanted.as_bytes()))
}

/// Whether a state of these bits is decoded as plain arithmetic does.
fn decodes_bits(
    alloc: Global,
    asked: &Asked,
    costs: &[i64],
    model: Model,
    state: u64,
    bits: &str,
) -> Result<bool, Fail> {
    let ran = run_of(alloc, "decode", asked.target(), asked, bits)?;
    is_decoded(alloc, asked, costs, model, state, &ran)
}

fn decodes(
    alloc: Global,
    asked: &Asked,
    costs: &[i64],
    model: Model,
    state: u64,
) -> Result<bool, Fail> {
    let bits = digits(alloc, state, model.nodes)?;
    decodes_bits(alloc, asked, costs, model, state, &bits)
}

/// Appends what is to be written for an assignment of this cost that is extended to a state.
fn push_extension(text: &mut String, cost: i64, model: Model, state: u64) -> Result<(), Fail> {
    text.push_str("state ")?;
    push_digits(text, state, model.nodes)?;
    text.push_str("\n")?;
    push_last(text, cost, model.energy(state))
}

/// Whether a run extends an assignment to a state that decodes to it, with the least energy of those
/// that do, which stands for its cost. With soft constraints the energy may be greater where the cost
/// is infinite.
fn is_extended(
    alloc: Global,
    asked: &Asked,
    costs: &[i64],
    model: Model,
    assignment: u64,
    ran: &Ran,
) -> Result<bool, Fail> {
    let state = state_in(ran.out.bytes());
    let (least, cost) = (model.least(assignment), cost_of(costs, assignment));
    let counted = bounded(cost, asked.most);
    let is_free = asked.format == "wbo" && counted == INFINITE;
    let mut wanted = String::new(alloc);
    push_extension(&mut wanted, cost, model, state)?;
    Ok(
        ran.wrote(wanted.as_bytes())
            && model.decoded(state) == assignment
            && (is_free || model.energy(state) == least)
            && model.stands_for(least, counted),
    )
}

/// The same of an assignment of these bits.
fn extends_bits(
    alloc: Global,
    asked: &Asked,
    costs: &[i64],
    model: Model,
    assignment: u64,
    bits: &str,
) -> Result<bool, Fail> {
    let ran = run_of(alloc, "extend", asked.target(), asked, bits)?;
    is_extended(alloc, asked, costs, model, assignment, &ran)
}

fn extends(
    alloc: Global,
    asked: &Asked,
    costs: &[i64],
    model: Model,
    assignment: u64,
) -> Result<bool, Fail> {
    let bits = digits(alloc, assignment, model.variables)?;
    extends_bits(alloc, asked, costs, model, assignment, &bits)
}

fn all_decode(alloc: Global, asked: &Asked, costs: &[i64], model: Model) -> Result<bool, Fail> {
    for state in 0..1_u64.wrapping_shl(model.nodes) {
        if !decodes(alloc, asked, costs, model, state)? {
            return Ok(false);
        }
    }
    Ok(true)
}

fn all_extend(alloc: Global, asked: &Asked, costs: &[i64], model: Model) -> Result<bool, Fail> {
    for assignment in 0..costs.len() {
        if !extends(alloc, asked, costs, model, assignment as u64)? {
            return Ok(false);
        }
    }
    Ok(true)
}

/// Appends what is to be written for a least state: the optimum, or that there is none.
fn push_solution(
    text: &mut String,
    asked: &Asked,
    costs: &[i64],
    model: Model,
    state: u64,
) -> Result<(), Fail> {
    let assignment = model.decoded(state);
    let cost = bounded(cost_of(costs, assignment), asked.most);
    text.push_str("state ")?;
    push_digits(text, state, model.nodes)?;
    writeln!(text, "\nenergy {}", model.energy(state))?;
    if cost == INFINITE {
        text.push_str("infeasible\n")?;
        return Ok(());
    }
    push_assignment(text, asked, model, assignment)?;
    writeln!(text, "optimum {cost}")?;
    Ok(())
}

/// The least of the costs under a bound.
fn least_cost(costs: &[i64], most: i64) -> i64 {
    let mut least = INFINITE;
    for cost in costs {
        least = least.min(bounded(*cost, most));
    }
    least
}

/// Whether a run finds a state of the least energy, which decodes to an assignment of the least cost.
fn is_solved(
    alloc: Global,
    asked: &Asked,
    costs: &[i64],
    model: Model,
    ran: &Ran,
) -> Result<bool, Fail> {
    let state = state_in(ran.out.bytes());
    let found = bounded(cost_of(costs, model.decoded(state)), asked.most);
    let mut wanted = String::new(alloc);
    push_solution(&mut wanted, asked, costs, model, state)?;
    Ok(
        ran.wrote(wanted.as_bytes())
            && model.energy(state) == model.least_of_all()
            && found == least_cost(costs, asked.most),
    )
}

fn solves(alloc: Global, asked: &Asked, costs: &[i64], model: Model) -> Result<bool, Fail> {
    let ran = run_of(alloc, "solve", asked.target(), asked, "")?;
    is_solved(alloc, asked, costs, model, &ran)
}

/// Whether all states of a model are decoded, all assignments of its source extended, and its optimum
/// found, as plain arithmetic does. Under a bound a model of many nodes is not decoded again.
fn is_model_both_ways(
    alloc: Global,
    asked: &Asked,
    costs: &[i64],
    model: Model,
) -> Result<bool, Fail> {
    let is_known = asked.most != INFINITE && model.nodes > 8;
    Ok(
        model.keeps(costs, asked.most)
            && (is_known || all_decode(alloc, asked, costs, model)?)
            && all_extend(alloc, asked, costs, model)?
            && solves(alloc, asked, costs, model)?,
    )
}

/// The same of a source.
fn goes_both_ways(alloc: Global, asked: &Asked, costs: &[i64]) -> Result<bool, Fail> {
    let numbers = compiled_for(alloc, asked.target(), asked)?;
    match model_in(asked.target(), &numbers) {
        Some(model) => is_model_both_ways(alloc, asked, costs, model),
        None => Ok(false),
    }
}

/// How many nodes the Ising model of a source has.
fn nodes_of(alloc: Global, asked: &Asked) -> Result<u32, Fail> {
    let numbers = compiled_for(alloc, Target::Ising, asked)?;
    Ok(model_in(Target::Ising, &numbers).map_or(0, |model| model.nodes))
}

/// What is asked of a source with a place among those of its format.
fn asked_of<'a>(
    alloc: Global,
    format: &'static str,
    text: &'a str,
    index: usize,
    most: i64,
) -> Result<Asked<'a>, Fail> {
    let mut asked = Asked {
        format,
        text,
        index,
        most,
        nodes: 0,
    };
    asked.nodes = nodes_of(alloc, &asked)?;
    Ok(asked)
}

/// Whether this holds for a source with its costs.
fn source_goes_both_ways(
    alloc: Global,
    format: &'static str,
    source: &[u8],
    index: usize,
    most: i64,
) -> Result<bool, Fail> {
    let Some((text, costs)) = parted(source) else {
        return Ok(false);
    };
    let asked = asked_of(alloc, format, text, index, most)?;
    let costs = numbers(alloc, costs)?;
    goes_both_ways(alloc, &asked, &costs)
}

/// The number of the first source of a format for which it does not.
fn first_other(
    alloc: Global,
    format: &'static str,
    sources: &str,
    most: i64,
) -> Result<Option<usize>, Fail> {
    let sources = sources.as_bytes().split(|byte| *byte == b'@');
    for (index, source) in sources.enumerate() {
        if !source_goes_both_ways(alloc, format, source, index, most)? {
            return Ok(Some(index));
        }
    }
    Ok(None)
}

/// No bound, and bounds below, between and above what the sources cost.
const MOSTS: [i64; 5] = [INFINITE, -9, -1, 1, 3];

#[test]
fn each_state_is_decoded_and_each_assignment_extended(rt: HostRuntime) -> Result<(), Fail> {
    for (format, sources) in FORMATS {
        for most in MOSTS {
            let other = first_other(rt.alloc(), format, sources, most)?;
            assert!(rt; other.is_none(), "{format} {most} {other:?}");
        }
    }
    Ok(())
}
