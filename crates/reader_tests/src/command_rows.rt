//! Words, what they ask for, and the file that they name.
use base::UnitChoice;
use chimera_graph::Chimera;
use command_words::{
    Ask, Board, ChainStrength, Command, Format, Ground, Make, Name, NodeModel, Notice, OfState,
    Origin, Request, Slack, Target, Which, name_of, notice_text, request,
};
use form_steps::PenaltyScope;
use problem_form::{Choices, High, Normal};
use std::alloc::{AllocError, Global};

/// Appends words that are owned.
fn push_owned(alloc: Global, owned: &mut Vec<String>, words: &[&str]) -> Result<(), AllocError> {
    for word in words {
        owned.push(String::from_str(alloc, word)?)?;
    }
    Ok(())
}

pub(crate) fn owned(alloc: Global, words: &[&str]) -> Result<Vec<String>, AllocError> {
    let mut owned = Vec::new(alloc);
    push_owned(alloc, &mut owned, words)?;
    Ok(owned)
}

/// What a row says that is asked, with the texts of the names.
#[derive(Clone, Copy)]
enum AskRow {
    Make(Make),
    Solve(Option<&'static str>),
    Decode(&'static str),
    Evaluate(&'static str),
    Extend(&'static str),
    Prove(&'static str, &'static str),
}

/// The name that is this text, where there is one.
pub(crate) fn named<'a>(text: Option<&'a str>) -> Option<Name<'a>> {
    match text {
        Some(text) => Some(Name::new(text)),
        None => None,
    }
}

/// What a row says.
fn ask_of(row: AskRow) -> Ask<'static> {
    match row {
        AskRow::Make(make) => Ask::Make(make),
        AskRow::Solve(order) => Ask::Solve(named(order)),
        AskRow::Decode(state) => Ask::State(Name::new(state), OfState::Decode),
        AskRow::Evaluate(states) => Ask::Evaluate(Name::new(states)),
        AskRow::Extend(assignment) => Ask::State(Name::new(assignment), OfState::Extend),
        AskRow::Prove(state, proof) => {
            Ask::State(Name::new(state), OfState::Prove(Name::new(proof)))
        }
    }
}

/// The source in a format that the fourth word names.
fn source<'a>(format: Format, words: &[&'a str]) -> Origin<'a> {
    match words.get(3) {
        Some(word) => Origin::File(format, Name::new(word)),
        None => Origin::File(format, Name::new("")),
    }
}

/// What is asked of the file that the fourth word names, with the usual keys.
fn plain<'a>(words: &[&'a str], ask: Ask<'a>) -> Command<'a> {
    Command {
        origin: source(Format::Wcnf, words),
        target: Target::Nodes(NodeModel::Qubo),
        choices: Choices {
            normal: Normal::Literal,
            high: High::Monomial,
        },
        unit: UnitChoice::One,
        bound: None,
        slack: Slack::Bits,
        penalty: PenaltyScope::Global,
        ask,
    }
}

/// The command `compile` in a normal form, on the file that the fourth word names.
fn compile_in<'a>(
    words: &[&'a str],
    format: Format,
    target: Target<'a>,
    normal: Normal,
    unit: UnitChoice,
) -> Command<'a> {
    Command {
        origin: source(format, words),
        target,
        choices: Choices {
            normal,
            high: High::Monomial,
        },
        unit,
        bound: None,
        slack: Slack::Bits,
        penalty: PenaltyScope::Global,
        ask: Ask::Make(Make::Model),
    }
}

const POSITIONS: &[(&[&str], Result<AskRow, usize>)] = &[
    (
        &["compile", "wcnf", "qubo", "FILE"],
        Ok(AskRow::Make(Make::Model)),
    ),
    (
        &["compile", "wcnf", "qubo", "compile"],
        Ok(AskRow::Make(Make::Model)),
    ),
    (&["solve", "wcnf", "qubo", "FILE"], Ok(AskRow::Solve(None))),
    (&["solve", "wcnf", "qubo", "FILE", "STATE"], Err(5)),
    (
        &["size", "wcnf", "qubo", "FILE"],
        Ok(AskRow::Make(Make::Size)),
    ),
    (&["size", "wcnf", "qubo", "FILE", "STATE"], Err(5)),
    (
        &["decode", "wcnf", "qubo", "FILE", "STATE"],
        Ok(AskRow::Decode("STATE")),
    ),
    (
        &["evaluate", "wcnf", "qubo", "FILE", "STATES", "unit=one"],
        Ok(AskRow::Evaluate("STATES")),
    ),
    (
        &["extend", "wcnf", "qubo", "FILE", "high=", "unit=one"],
        Ok(AskRow::Extend("high=")),
    ),
    (
        &[
            "prove", "wcnf", "qubo", "FILE", "STATE", "PROOF", "unit=one",
        ],
        Ok(AskRow::Prove("STATE", "PROOF")),
    ),
    // a missing word
    (&["prove", "wcnf", "qubo", "FILE", "STATE"], Err(6)),
    (&["decode", "wcnf", "qubo", "FILE"], Err(5)),
    (&["evaluate", "wcnf", "qubo", "FILE"], Err(5)),
    (&["size", "wcnf", "qubo"], Err(4)),
    (&["extend", "wcnf", "chimera", "FILE", "STATE"], Err(6)),
    (
        &["extend", "wcnf", "qubo", "FILE", "STATE", "STATE"],
        Err(6),
    ),
    (&[], Err(1)),
    (&["compile"], Err(2)),
    (&["compile", "wcnf"], Err(3)),
    (&["compile", "wcnf", "qubo"], Err(4)),
    // a wrong word
    (&["solved", "wcnf", "qubo", "FILE"], Err(1)),
    (&["Compile", "wcnf", "qubo", "FILE"], Err(1)),
    (&["compile", "cnf", "qubo", "FILE"], Err(2)),
    (&["compile", "wcnf", "qub", "FILE"], Err(3)),
    // the first of several, and before what is missing
    (&["", "", ""], Err(1)),
    (&["compile", "opb", "wcnf"], Err(3)),
    (&["compile", "wbo", "wcnf"], Err(3)),
    (&["compile", "pbo", "wcnf"], Err(2)),
    (&["compile", "wcnf", "wcnf"], Err(3)),
    // a key, and a further word that is none
    (
        &["compile", "wcnf", "qubo", "FILE", "high=monomial"],
        Ok(AskRow::Make(Make::Model)),
    ),
    (&["compile", "wcnf", "qubo", "FILE", "FILE"], Err(5)),
    (
        &["compile", "wcnf", "qubo", "normal=literal", "a", "b"],
        Err(5),
    ),
];

/// Whether the words ask for this, or have this position.
fn are_asked(
    alloc: Global,
    words: &[&str],
    wanted: &Result<AskRow, usize>,
) -> Result<bool, AllocError> {
    let given = owned(alloc, words)?;
    Ok(match *wanted {
        Ok(row) => request(&given) == Ok(Request::Command(plain(words, ask_of(row)))),
        Err(position) => request(&given) == Err(position),
    })
}

#[test]
fn each_wrong_or_missing_word_has_its_position(rt: HostRuntime) {
    for (words, wanted) in POSITIONS {
        assert!(rt;
            are_asked(rt.alloc(), words, wanted) == Ok(true),
            "{words:?}"
        );
    }
}

/// Whether the words ask to compile a format for a target, in a normal form and a unit.
fn are_compiled(
    alloc: Global,
    words: &[&str],
    format: Format,
    target: Target<'_>,
    normal: Normal,
    unit: UnitChoice,
) -> Result<bool, AllocError> {
    let given = owned(alloc, words)?;
    let wanted = compile_in(words, format, target, normal, unit);
    Ok(request(&given) == Ok(Request::Command(wanted)))
}

const FORMATS: &[(&[&str], Format, NodeModel, UnitChoice)] = &[
    (
        &["compile", "wcnf", "ising", "FILE"],
        Format::Wcnf,
        NodeModel::Ising,
        UnitChoice::One,
    ),
    (
        &["compile", "opb", "qubo", "FILE"],
        Format::Opb,
        NodeModel::Qubo,
        UnitChoice::One,
    ),
    (
        &["compile", "ising", "qubo", "FILE", "unit=one"],
        Format::Ising,
        NodeModel::Qubo,
        UnitChoice::One,
    ),
    (
        &["compile", "ising", "ising", "FILE", "unit=reduce"],
        Format::Ising,
        NodeModel::Ising,
        UnitChoice::Reduce,
    ),
    (
        &["compile", "qubo", "qubo", "FILE", "unit=reduce"],
        Format::Qubo,
        NodeModel::Qubo,
        UnitChoice::Reduce,
    ),
    (
        &["compile", "qubo", "ising", "unit=reduce"],
        Format::Qubo,
        NodeModel::Ising,
        UnitChoice::One,
    ),
];

const GRAPHS: &[(
    &[&str],
    Format,
    Option<&str>,
    Option<&str>,
    ChainStrength,
    UnitChoice,
)] = &[
    (
        &[
            "compile", "poly", "chimera", "FILE", "rows=2", "map=a=b", "cols=3", "shore=4",
        ],
        Format::Poly,
        None,
        Some("a=b"),
        ChainStrength::Choi,
        UnitChoice::One,
    ),
    (
        &[
            "compile",
            "wbo",
            "chimera",
            "FILE",
            "dead=",
            "rows=2",
            "cols=3",
            "chain=cut",
            "shore=4",
            "map=",
        ],
        Format::Wbo,
        Some(""),
        Some(""),
        ChainStrength::Cut,
        UnitChoice::One,
    ),
    (
        &[
            "compile",
            "opb",
            "chimera",
            "FILE",
            "shore=4",
            "embed=clique",
            "cols=3",
            "unit=reduce",
            "rows=02",
            "chain=choi",
        ],
        Format::Opb,
        None,
        None,
        ChainStrength::Choi,
        UnitChoice::Reduce,
    ),
];

/// Whether the words ask to compile a format on the graph of 2, 3 and 4, in a unit.
fn are_compiled_on(
    alloc: Global,
    words: &[&str],
    format: Format,
    dead: Option<&str>,
    map: Option<&str>,
    ties: ChainStrength,
    unit: UnitChoice,
) -> Result<bool, AllocError> {
    let Some(graph) = Chimera::new(2, 3, 4) else {
        return Ok(false);
    };
    let ground = Ground::Chimera {
        graph,
        dead: named(dead),
        map: named(map),
    };
    let target = Target::Qubits(Board { ground, ties });
    are_compiled(alloc, words, format, target, Normal::Literal, unit)
}

#[test]
fn each_way_to_get_chains_on_a_graph(rt: HostRuntime) {
    for (words, format, dead, map, ties, unit) in GRAPHS {
        let found = are_compiled_on(rt.alloc(), words, *format, *dead, *map, *ties, *unit);
        assert!(rt; found == Ok(true), "{words:?}");
    }
}

#[test]
fn each_format_and_target_in_each_unit(rt: HostRuntime) {
    for (words, format, model, unit) in FORMATS {
        let target = Target::Nodes(*model);
        let found = are_compiled(rt.alloc(), words, *format, target, Normal::Literal, *unit);
        assert!(rt; found == Ok(true), "{words:?}");
    }
}

const NORMALS: &[(&[&str], Normal, UnitChoice)] = &[
    (
        &["compile", "poly", "qubo", "FILE", "normal=literal"],
        Normal::Literal,
        UnitChoice::One,
    ),
    (
        &["compile", "poly", "qubo", "FILE", "normal=multilinear"],
        Normal::Multilinear,
        UnitChoice::One,
    ),
    (
        &[
            "compile",
            "poly",
            "qubo",
            "FILE",
            "normal=multilinear",
            "unit=reduce",
        ],
        Normal::Multilinear,
        UnitChoice::Reduce,
    ),
    (
        &[
            "compile",
            "poly",
            "qubo",
            "FILE",
            "unit=reduce",
            "normal=multilinear",
        ],
        Normal::Multilinear,
        UnitChoice::Reduce,
    ),
];

#[test]
fn normal_forms_and_units_in_any_order(rt: HostRuntime) {
    for (words, normal, unit) in NORMALS {
        let found = are_compiled(
            rt.alloc(),
            words,
            Format::Poly,
            Target::Nodes(NodeModel::Qubo),
            *normal,
            *unit,
        );
        assert!(rt; found == Ok(true), "{words:?}");
    }
}

/// Whether `compile wcnf qubo FILE` and these words have a wrong word at this position.
fn are_wrong_at(alloc: Global, keys: &[&str], position: usize) -> Result<bool, AllocError> {
    let mut words = owned(alloc, &["compile", "wcnf", "qubo", "FILE"])?;
    push_owned(alloc, &mut words, keys)?;
    Ok(request(&words) == Err(position))
}

const KEYS: &[(&[&str], usize)] = &[
    (&["high=quadratic"], 5),
    (&["high=monomial", "high=rosenberg"], 6),
    (&["high=rosenberg", "unit=one", "high=rosenberg"], 7),
    (&["normal"], 5),
    (&["normal=linear"], 5),
    (&["normal=literal", "unit=one", "normal=literal"], 7),
    (&["unit"], 5),
    (&["unit="], 5),
    (&["unit=two"], 5),
    (&["unit=one="], 5),
    (&["Unit=one"], 5),
    (&["unit=one", "unit=one"], 6),
    (&["unit=reduce", "unit=one"], 6),
    (&["unit=reduce", "FILE"], 6),
    (&["bound="], 5),
    (&["bound=-"], 5),
    (&["bound=+3"], 5),
    (&["bound=--3"], 5),
    (&["bound=18446744073709551616"], 5),
    (&["bound=-18446744073709551615", "bound=3"], 6),
    (&["slack"], 5),
    (&["slack=none"], 5),
    (&["slack=pairs", "unit=one", "slack=bits"], 7),
    (&["slack=clause"], 5),
    (&["penalty=part"], 5),
    (&["penalty=local", "penalty=local"], 6),
    (&["order=NAME"], 5),
    (&["unit=one", "order="], 6),
    (&["dead=list"], 5),
    (&["chain=cut"], 5),
    (&["graph=NAME"], 5),
];

#[test]
fn a_word_that_is_no_key_or_a_key_that_stands_twice(rt: HostRuntime) {
    for (keys, position) in KEYS {
        assert!(rt;
            are_wrong_at(rt.alloc(), keys, *position) == Ok(true),
            "{keys:?}"
        );
    }
}

/// Whether `compile wcnf qubo FILE` and these words choose these steps.
fn are_chosen(
    alloc: Global,
    keys: &[&str],
    normal: Normal,
    high: High,
) -> Result<bool, AllocError> {
    let mut words = owned(alloc, &["compile", "wcnf", "qubo", "FILE"])?;
    push_owned(alloc, &mut words, keys)?;
    match request(&words) {
        Ok(Request::Command(command)) => Ok(command.choices == Choices { normal, high }),
        _ => Ok(false),
    }
}

const WAYS: &[(&[&str], Normal, High)] = &[
    (&["high=rosenberg"], Normal::Literal, High::Rosenberg),
    (&["high=monomial"], Normal::Literal, High::Monomial),
    (
        &["unit=reduce", "high=rosenberg", "normal=multilinear"],
        Normal::Multilinear,
        High::Rosenberg,
    ),
    (
        &["normal=multilinear", "high=monomial"],
        Normal::Multilinear,
        High::Monomial,
    ),
];

#[test]
fn ways_to_replace_long_terms(rt: HostRuntime) {
    for (keys, normal, high) in WAYS {
        assert!(rt;
            are_chosen(rt.alloc(), keys, *normal, *high) == Ok(true),
            "{keys:?}"
        );
    }
}

/// Whether the words ask for this notice, or have this position.
fn are_noticed(
    alloc: Global,
    words: &[&str],
    wanted: Result<Notice, usize>,
) -> Result<bool, AllocError> {
    let given = owned(alloc, words)?;
    Ok(match wanted {
        Ok(notice) => request(&given) == Ok(Request::Notice(notice)),
        Err(position) => request(&given) == Err(position),
    })
}

const NOTICES: &[(&[&str], Result<Notice, usize>)] = &[
    (&["--help"], Ok(Notice::Help)),
    (&["-h"], Ok(Notice::Help)),
    (&["--version"], Ok(Notice::Version)),
    (&["-V"], Ok(Notice::Version)),
    (&["--help", "compile"], Err(2)),
    (&["-V", ""], Err(2)),
    (&["-h", "-h", "-h"], Err(2)),
    // words that are near to them
    (&["help"], Err(1)),
    (&["-H"], Err(1)),
    (&["-v"], Err(1)),
    (&["--version="], Err(1)),
    (&["compile", "--help"], Err(2)),
];

#[test]
fn help_and_version_stand_alone(rt: HostRuntime) {
    for (words, wanted) in NOTICES {
        assert!(rt;
            are_noticed(rt.alloc(), words, *wanted) == Ok(true),
            "{words:?}"
        );
    }
}

/// How many lines a text has, and how many bytes the longest of them.
fn lines_and_columns(text: &str) -> (usize, usize) {
    let longest = text.lines().map(|line| line.len()).max();
    (text.lines().count(), longest.unwrap_or(0))
}

#[test]
fn the_help_fits_a_screen_and_the_version_a_line(rt: HostRuntime) {
    let (lines, longest) = lines_and_columns(notice_text(Notice::Help));
    assert!(rt;
        0 < lines && lines <= 60 && longest <= 100,
        "{lines} {longest}"
    );
    assert!(rt; lines_and_columns(notice_text(Notice::Version)).0 == 1);
}

/// Whether the words ask for this, and this is the name of a file of the command.
fn is_named(
    alloc: Global,
    words: &[&str],
    row: AskRow,
    which: Which,
    name: &str,
) -> Result<bool, AllocError> {
    let given = owned(alloc, words)?;
    let wanted = plain(words, ask_of(row));
    Ok(match request(&given) {
        Ok(Request::Command(command)) => command == wanted && name_of(&command, which) == name,
        _ => false,
    })
}

const NAMES: &[(&[&str], AskRow, Which, &str)] = &[
    (
        &["compile", "wcnf", "qubo", "FILE"],
        AskRow::Make(Make::Model),
        Which::Source,
        "FILE",
    ),
    (
        &["compile", "wcnf", "qubo", "a=b"],
        AskRow::Make(Make::Model),
        Which::Source,
        "a=b",
    ),
    (
        &["compile", "wcnf", "qubo", ""],
        AskRow::Make(Make::Model),
        Which::Source,
        "",
    ),
    (
        &["compile", "wcnf", "qubo", "FILE"],
        AskRow::Make(Make::Model),
        Which::Map,
        "",
    ),
    (
        &["compile", "wcnf", "qubo", "FILE"],
        AskRow::Make(Make::Model),
        Which::State,
        "",
    ),
    (
        &["compile", "wcnf", "qubo", "FILE"],
        AskRow::Make(Make::Model),
        Which::Graph,
        "",
    ),
    (
        &["compile", "wcnf", "qubo", "FILE"],
        AskRow::Make(Make::Model),
        Which::Dead,
        "",
    ),
    (
        &["compile", "wcnf", "qubo", "FILE"],
        AskRow::Make(Make::Model),
        Which::Graph,
        "",
    ),
    (
        &["compile", "wcnf", "qubo", "FILE"],
        AskRow::Make(Make::Model),
        Which::Certificate,
        "",
    ),
    (
        &["compile", "wcnf", "qubo", "FILE"],
        AskRow::Make(Make::Model),
        Which::Order,
        "",
    ),
    (
        &["size", "wcnf", "qubo", "FILE"],
        AskRow::Make(Make::Size),
        Which::State,
        "",
    ),
    (
        &["evaluate", "wcnf", "qubo", "FILE", "STATES"],
        AskRow::Evaluate("STATES"),
        Which::State,
        "STATES",
    ),
    (
        &["solve", "wcnf", "qubo", "FILE", "order=a=b"],
        AskRow::Solve(Some("a=b")),
        Which::Order,
        "a=b",
    ),
    (
        &["solve", "wcnf", "qubo", "FILE", "order="],
        AskRow::Solve(Some("")),
        Which::Order,
        "",
    ),
    (
        &["solve", "wcnf", "qubo", "FILE", "order=a"],
        AskRow::Solve(Some("a")),
        Which::State,
        "",
    ),
];

#[test]
fn the_names_of_the_files(rt: HostRuntime) {
    for (words, row, which, name) in NAMES {
        assert!(rt;
            is_named(rt.alloc(), words, *row, *which, name) == Ok(true),
            "{words:?} {which:?}"
        );
    }
}
