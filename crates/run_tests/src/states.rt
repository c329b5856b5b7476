//! Every state of small models, through whole runs: the least energy of each assignment stands for
//! its cost, so the least states are those of the least assignments.
use crate::models::{INFINITE, Target, compiled, model_in, numbers, parted};
use crate::polynomials::POLYNOMIALS;
use crate::soft_sources::SOFT;
use std::alloc::Global;
use std::test::Fail;

/// Clauses of up to five literals, hard and soft.
const CLAUSES: &str = "\
    p wcnf 2 3 10\n10 1 2 0\n3 -1 0\n4 -2 0\n|\
    999 3 4 7@\
    p wcnf 2 4\n2 1 -2 0\n3 -1 2 0\n1 -1 -2 0\n5 2 0\n|\
    5 8 2 1@\
    p wcnf 2 3 9\n9 1 0\n9 -1 2 0\n9 -2 0\n|\
    999 999 999 999@\
    p wcnf 2 5 7\n8 -1 -2 0\n2 1 0\n2 1 0\n3 0\n1 2 -1 2 0\n|\
    7 4 7 999@\
    p wcnf 3 2 9\n9 1 2 3 0\n4 -1 -2 -3 0\n|\
    999 0 0 0 0 0 0 4@\
    p wcnf 4 3 20\n20 1 -2 3 -4 0\n7 -1 2 -3 0\n5 2 3 4 0\n|\
    5 5 0 0 0 7 0 0 0 0 999 0 0 7 0 0@\
    p wcnf 4 4\n1 1 2 3 4 0\n2 -1 -2 -3 -4 0\n3 1 -2 3 -4 0\n4 2 0\n|\
    5 4 0 0 4 4 0 0 4 4 3 0 4 4 0 2@\
    p wcnf 5 3 30\n30 -1 -2 -3 -4 -5 0\n11 1 2 3 4 5 0\n2 -5 0\n|\
    11 0 0 0 0 0 0 0 0 0 0 0 0 0 0 0 2 2 2 2 2 2 2 2 2 2 2 2 2 2 2 999@\
    p wcnf 5 5 99\n99 1 2 -3 0\n99 -1 4 5 0\n3 -4 -5 2 1 0\n2 3 -2 -1 5 0\n6 -3 -2 0\n|\
    0 999 0 999 999 999 6 999 0 0 0 2 999 0 6 6 0 0 0 0 999 0 6 6 3 0 0 0 999 0 6 6@\
    p wcnf 3 8 1\n1 1 2 3 0\n1 1 2 -3 0\n1 1 -2 3 0\n1 1 -2 -3 0\n1 -1 2 3 0\n\
    1 -1 2 -3 0\n1 -1 -2 3 0\n1 -1 -2 -3 0\n|\
    999 999 999 999 999 999 999 999";

/// What is kept of costs: each, or the least ones.
#[derive(Clone, Copy)]
enum Kept {
    Each,
    Least,
}

/// Whether the model of a text keeps the costs of its assignments.
fn keeps(
    alloc: Global,
    kept: Kept,
    words: &[&str],
    text: &str,
    costs: &[i64],
) -> Result<bool, Fail> {
    let numbers = compiled(alloc, words, text)?;
    let model = model_in(Target::Qubo, &numbers);
    Ok(match kept {
        Kept::Each => model.is_some_and(|model| model.keeps(costs, INFINITE)),
        Kept::Least => model.is_some_and(|model| model.keeps_least(costs)),
    })
}

/// The same of the text and the costs of a source.
fn keeps_source(alloc: Global, kept: Kept, words: &[&str], source: &[u8]) -> Result<bool, Fail> {
    let Some((text, costs)) = parted(source) else {
        return Ok(false);
    };
    let costs = numbers(alloc, costs)?;
    keeps(alloc, kept, words, text, &costs)
}

/// The number of the first source whose model does not.
fn first_other(
    alloc: Global,
    kept: Kept,
    words: &[&str],
    sources: &str,
) -> Result<Option<usize>, Fail> {
    let sources = sources.as_bytes().split(|byte| *byte == b'@');
    for (index, source) in sources.enumerate() {
        if !keeps_source(alloc, kept, words, source)? {
            return Ok(Some(index));
        }
    }
    Ok(None)
}

#[test]
fn each_least_energy_of_clauses_stands_for_its_cost(rt: HostRuntime) -> Result<(), Fail> {
    let words = ["compile", "wcnf", "qubo", "a"];
    let other = first_other(rt.alloc(), Kept::Each, &words, CLAUSES)?;
    assert!(rt; other.is_none(), "{other:?}");
    Ok(())
}

#[test]
fn each_least_energy_of_products_stands_for_its_cost(rt: HostRuntime) -> Result<(), Fail> {
    for normal in ["normal=literal", "normal=multilinear"] {
        for high in ["high=monomial", "high=rosenberg"] {
            let words = ["compile", "poly", "qubo", "a", normal, high];
            let other = first_other(rt.alloc(), Kept::Each, &words, POLYNOMIALS)?;
            assert!(rt; other.is_none(), "{normal} {high} {other:?}");
        }
    }
    Ok(())
}

#[test]
fn each_least_energy_of_soft_constraints_stands_for_its_cost(rt: HostRuntime) -> Result<(), Fail> {
    for unit in ["unit=one", "unit=reduce"] {
        let words = ["compile", "wbo", "qubo", "a", unit];
        let other = first_other(rt.alloc(), Kept::Each, &words, SOFT)?;
        assert!(rt; other.is_none(), "{unit} {other:?}");
    }
    Ok(())
}

#[test]
fn each_least_energy_stands_for_its_cost_where_clauses_replace_constraints(
    rt: HostRuntime,
) -> Result<(), Fail> {
    for slack in ["slack=pairs", "slack=clauses"] {
        let words = ["compile", "wbo", "qubo", "a", slack];
        let other = first_other(rt.alloc(), Kept::Each, &words, SOFT)?;
        assert!(rt; other.is_none(), "{slack} {other:?}");
    }
    Ok(())
}

#[test]
fn least_states_stand_for_least_costs_where_parts_have_penalties(
    rt: HostRuntime,
) -> Result<(), Fail> {
    let words = ["compile", "wcnf", "qubo", "a", "penalty=local"];
    let other = first_other(rt.alloc(), Kept::Least, &words, CLAUSES)?;
    assert!(rt; other.is_none(), "wcnf {other:?}");
    for slack in ["slack=bits", "slack=pairs", "slack=clauses"] {
        let words = ["compile", "wbo", "qubo", "a", "penalty=local", slack];
        let other = first_other(rt.alloc(), Kept::Least, &words, SOFT)?;
        assert!(rt; other.is_none(), "{slack} {other:?}");
    }
    Ok(())
}
