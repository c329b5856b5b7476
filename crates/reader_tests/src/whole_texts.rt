//! The readers of whole texts, each called once. The program reads words; what it says of texts and
//! of their faults is shown by cases.
ghost use Rattle.std.specs.Prelude.{◌≤◌, ◌^◌, length};

use base::{Cost, Costed};
use command_words::Format;
use ising_file::read_ising;
use opb_reader::read_opb;
use poly_reader::read_poly;
use problem_form::Problem;
use qubo_file::read_qubo;
use std::alloc::Global;
use wbo_reader::{Wbo, read_wbo};
use wcnf_reader::read_wcnf;
use whole_text::TextAnswer;

/// A text of a format by its reader; a polynomial without its names.
fn read(alloc: Global, format: Format, text: &[u8]) -> Result<Problem, TextAnswer>
    requires { length text.now ≤ 2 ^ 24 }
{
    match format {
        Format::Opb => read_opb(alloc, text),
        Format::Qubo => read_qubo(alloc, text),
        Format::Ising => read_ising(alloc, text),
        _ => read_wcnf(alloc, text),
    }
}

/// Whether a problem of two variables costs this where the last of them alone is 1.
fn costs(problem: &Problem, wanted: i128) -> bool {
    problem.variables == 2 && problem.cost(&[false, true]) == Cost::Whole(wanted)
}

/// Whether the text of a format costs this.
fn is_read(alloc: Global, format: Format, text: &[u8], wanted: i128) -> bool
    requires { length text.now ≤ 2 ^ 24 }
{
    match &read(alloc, format, text) {
        Ok(problem) => costs(problem, wanted),
        Err(_) => false,
    }
}

const TEXTS: &[(Format, &[u8], i128)] = &[
    (Format::Wcnf, b"p wcnf 2 2 9\n9 1 2 0\n3 -2 0\n", 3),
    (Format::Opb, b"min: 1 x1 4 x2 ;\n1 x1 1 x2 = 1 ;\n", 4),
    (Format::Qubo, b"p qubo 0 2 1 1\n1 1 5\n0 1 7\n", 5),
    (Format::Ising, b"p ising 2 1 1\n1 1 6\n0 1 -2\n", 8),
];

#[test]
fn each_reader_of_whole_texts(rt: HostRuntime) {
    for (format, text, wanted) in TEXTS {
        let read = text.len() <= 1 << 24 && is_read(rt.alloc(), *format, text, *wanted);
        assert!(rt; read, "{text:?}");
    }
}

/// Whether a polynomial over two names costs 2 where the one that comes last is 1.
fn is_polynomial(alloc: Global) -> bool {
    match &read_poly(alloc, b"7 y\n-2 x\n4 ~y x\n") {
        Ok(polynomial) => polynomial.names.len() == 2 && costs(&polynomial.problem, 2),
        Err(_) => false,
    }
}

#[test]
fn the_reader_of_polynomials(rt: HostRuntime) {
    assert!(rt; is_polynomial(rt.alloc()));
}

/// Assignments, and what they cost: none fails, one does, and both reach the top.
const COSTS: &[(&[bool], Cost)] = &[
    (&[true, true], Cost::Whole(0)),
    (&[false, true], Cost::Whole(2)),
    (&[true, false], Cost::Whole(3)),
    (&[false, false], Cost::Infinite),
];

/// Whether each assignment of a source costs what is wanted.
fn are_costs(wbo: &Wbo, rows: &[(&[bool], Cost)]) -> bool {
    wbo.variables == 2
        && rows
            .iter()
            .all(|(x, wanted)| x.len() == 2 && wbo.cost(x) == *wanted)
}

/// Whether the source of a text has the costs that the constraints say.
fn has_costs(alloc: Global) -> bool {
    match &read_wbo(alloc, b"soft: 5 ;\n[2] 1 x1 >= 1 ;\n[3] 1 x2 >= 1 ;\n") {
        Ok(wbo) => are_costs(wbo, COSTS),
        Err(_) => false,
    }
}

#[test]
fn what_a_source_of_soft_constraints_costs(rt: HostRuntime) {
    assert!(rt; has_costs(rt.alloc()));
}
