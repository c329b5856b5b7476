//! Keys, and what they choose.
use crate::command_rows::{named, owned};
use command_words::{Ask, Board, ChainStrength, Ground, Name, Request, Slack, Target, request};
use form_steps::PenaltyScope;
use std::alloc::{AllocError, Global};

/// Whether the words ask for a model on a graph in a file by this map and with these ties, or have
/// this position.
fn are_listed(
    alloc: Global,
    words: &[&str],
    wanted: Result<(&str, &str, ChainStrength), usize>,
) -> Result<bool, AllocError> {
    let given = owned(alloc, words)?;
    Ok(match (request(&given), wanted) {
        (Ok(Request::Command(command)), Ok((graph, map, ties))) => {
            let ground = Ground::Listed {
                graph: Name::new(graph),
                map: Name::new(map),
            };
            command.target == Target::Qubits(Board { ground, ties })
        }
        (Err(position), Err(wanted)) => position == wanted,
        _ => false,
    })
}

const LISTED: &[(&[&str], Result<(&str, &str, ChainStrength), usize>)] = &[
    (
        &["compile", "opb", "graph", "FILE", "graph=a=b", "map="],
        Ok(("a=b", "", ChainStrength::Choi)),
    ),
    (
        &["sample", "1", "2", "graph", "chain=cut", "map=m", "graph=g"],
        Ok(("g", "m", ChainStrength::Cut)),
    ),
    // a key that is missing, or that the target does not take, or that stands twice
    (&["compile", "opb", "graph", "FILE", "graph=g"], Err(6)),
    (
        &["solve", "opb", "graph", "FILE", "map=m", "order=o"],
        Err(7),
    ),
    (&["prove", "opb", "graph", "FILE", "S", "P"], Err(7)),
    (
        &["compile", "opb", "graph", "FILE", "dead=d", "graph=g"],
        Err(5),
    ),
    (
        &["compile", "opb", "graph", "FILE", "map=m", "rows=1"],
        Err(6),
    ),
    (&["compile", "opb", "graph", "FILE", "embed=clique"], Err(5)),
    (
        &["compile", "opb", "graph", "FILE", "graph=g", "graph=g"],
        Err(6),
    ),
    (
        &["compile", "opb", "chimera", "FILE", "rows=1", "graph=g"],
        Err(6),
    ),
];

#[test]
fn a_graph_in_a_file_needs_a_map(rt: HostRuntime) {
    for (words, wanted) in LISTED {
        assert!(rt;
            are_listed(rt.alloc(), words, *wanted) == Ok(true),
            "{words:?}"
        );
    }
}

/// Whether the words have these conditions, or this position.
fn are_slack(
    alloc: Global,
    words: &[&str],
    wanted: Result<Slack, usize>,
) -> Result<bool, AllocError> {
    let given = owned(alloc, words)?;
    Ok(match (request(&given), wanted) {
        (Ok(Request::Command(command)), Ok(slack)) => command.slack == slack,
        (Err(position), Err(wanted)) => position == wanted,
        _ => false,
    })
}

const SLACKS: &[(&[&str], Result<Slack, usize>)] = &[
    (&["compile", "opb", "qubo", "FILE"], Ok(Slack::Bits)),
    (
        &["compile", "opb", "qubo", "FILE", "slack=bits"],
        Ok(Slack::Bits),
    ),
    (
        &["solve", "wbo", "ising", "FILE", "unit=one", "slack=pairs"],
        Ok(Slack::Pairs),
    ),
    (
        &["sample", "1", "2", "qubo", "slack=pairs"],
        Ok(Slack::Pairs),
    ),
    (&["sample", "1", "2", "qubo"], Ok(Slack::Bits)),
    (
        &[
            "prove",
            "opb",
            "chimera",
            "FILE",
            "STATE",
            "PROOF",
            "rows=1",
            "slack=pairs",
            "cols=1",
            "shore=4",
            "embed=clique",
        ],
        Ok(Slack::Pairs),
    ),
    (
        &["size", "wbo", "qubo", "FILE", "slack=clauses"],
        Ok(Slack::Clauses),
    ),
    (&["compile", "opb", "qubo", "FILE", "slack=pair"], Err(5)),
    (&["compile", "opb", "qubo", "FILE", "slack="], Err(5)),
    (&["sample", "1", "2", "qubo", "slack=Bits"], Err(5)),
    (
        &["size", "opb", "qubo", "FILE", "slack=bits", "slack=pairs"],
        Err(6),
    ),
];

#[test]
fn slack_bits_pairs_and_clauses(rt: HostRuntime) {
    for (words, wanted) in SLACKS {
        assert!(rt;
            are_slack(rt.alloc(), words, *wanted) == Ok(true),
            "{words:?}"
        );
    }
}

/// Whether the words choose penalties of this scope.
fn are_penalized(alloc: Global, words: &[&str], wanted: PenaltyScope) -> Result<bool, AllocError> {
    let given = owned(alloc, words)?;
    Ok(match request(&given) {
        Ok(Request::Command(command)) => command.penalty == wanted,
        _ => false,
    })
}

const PENALTIES: &[(&[&str], PenaltyScope)] = &[
    (
        &["compile", "opb", "qubo", "FILE", "penalty=global"],
        PenaltyScope::Global,
    ),
    (
        &["decode", "wbo", "ising", "FILE", "STATE", "penalty=local"],
        PenaltyScope::Local,
    ),
    (
        &["sample", "1", "2", "qubo", "unit=one", "penalty=local"],
        PenaltyScope::Local,
    ),
];

#[test]
fn penalties_for_all_or_for_each_part(rt: HostRuntime) {
    for (words, wanted) in PENALTIES {
        assert!(rt;
            are_penalized(rt.alloc(), words, *wanted) == Ok(true),
            "{words:?}"
        );
    }
}

/// Whether the words ask for a solution by this order, or have this position.
fn are_ordered(
    alloc: Global,
    words: &[&str],
    wanted: Result<Option<&str>, usize>,
) -> Result<bool, AllocError> {
    let given = owned(alloc, words)?;
    Ok(match (request(&given), wanted) {
        (Ok(Request::Command(command)), Ok(order)) => command.ask == Ask::Solve(named(order)),
        (Err(position), Err(wanted)) => position == wanted,
        _ => false,
    })
}

const ORDERS: &[(&[&str], Result<Option<&str>, usize>)] = &[
    (&["solve", "poly", "qubo", "FILE"], Ok(None)),
    (
        &["solve", "poly", "qubo", "FILE", "order=NAME"],
        Ok(Some("NAME")),
    ),
    (
        &["solve", "poly", "ising", "FILE", "high=monomial", "order="],
        Ok(Some("")),
    ),
    (
        &[
            "solve",
            "wcnf",
            "chimera",
            "FILE",
            "rows=1",
            "cols=1",
            "order=a=b",
            "shore=4",
            "embed=clique",
        ],
        Ok(Some("a=b")),
    ),
    (&["solve", "poly", "qubo", "FILE", "order"], Err(5)),
    (
        &["solve", "poly", "qubo", "FILE", "order=a", "order=a"],
        Err(6),
    ),
    // with other verbs
    (&["compile", "poly", "qubo", "FILE", "order=a"], Err(5)),
    (&["size", "poly", "qubo", "FILE", "order=a"], Err(5)),
    (
        &["decode", "poly", "qubo", "FILE", "STATE", "order=a"],
        Err(6),
    ),
    (
        &["evaluate", "poly", "qubo", "FILE", "S", "order=a"],
        Err(6),
    ),
    (&["extend", "poly", "qubo", "FILE", "S", "order=a"], Err(6)),
    (
        &["prove", "poly", "qubo", "FILE", "S", "P", "order=a"],
        Err(7),
    ),
    (&["sample", "1", "2", "qubo", "unit=one", "order=a"], Err(6)),
];

#[test]
fn an_order_stands_with_solve_alone(rt: HostRuntime) {
    for (words, wanted) in ORDERS {
        assert!(rt;
            are_ordered(rt.alloc(), words, *wanted) == Ok(true),
            "{words:?}"
        );
    }
}
