//! The compiler as a library: a problem is built in code, a model is made of it and solved, and the
//! least state decodes to a least assignment.
//!
//! Seven rooms stand in a ring. As many as can be are let, and no two that are next to each other.
#![tactic(auto)]

ghost use Rattle.std.specs.Prelude.{◌<◌};

use base::{NoMemory, UnitChoice};
use basic_solve::solve;
use command_words::{NodeModel, Slack};
use form_steps::PenaltyScope;
use literal_lists::Literal;
use model_pipeline::{ModelTarget, Options, compile};
use problem_form::{Choices, High, Normal, Problem};
use source_texts::{Preparation, prepare};
use std::alloc::Global;
use std::io;

const ROOMS: u64 = 7;

/// Whether a room is let, or stays empty.
fn room(number: u64, negated: bool) -> Literal
    ensures { result.variable < 7 }
{
    Literal {
        variable: number % ROOMS,
        negated,
    }
}

/// The problem of the rooms: each that is let costs -1, and of each two neighbours one stays empty.
fn rooms(alloc: Global) -> Result<Problem, NoMemory> {
    let mut problem = Problem::new(alloc);
    problem.widen(ROOMS);
    for number in 0..ROOMS {
        problem.add_weighed(room(number, false), -1)?;
        problem.add_pair(room(number, true), room(number + 1, true))?;
    }
    Ok(problem)
}

/// A least assignment of a problem. `None` where a limit is passed, a node of the model
/// has too many neighbours to be solved, or memory is wanting.
fn optimum(alloc: Global, problem: Problem) -> Option<Vec<bool>> {
    let choices = Choices {
        normal: Normal::Literal,
        high: High::Monomial,
    };
    let wanted = Preparation {
        slack: Slack::Clauses,
        bound: None,
        choices,
        penalty: PenaltyScope::Local,
    };
    let options = Options {
        choices,
        unit: UnitChoice::One,
        target: ModelTarget::Nodes(NodeModel::Qubo),
        keep_steps: false,
    };
    let problem = prepare(alloc, problem, &wanted).ok()?;
    let made = compile(alloc, &problem, problem.variables, &options).ok()?;
    let state = solve(alloc, &made.model).ok()?;
    let mut x = Vec::new(alloc);
    x.resize(made.model.variables as usize, false).ok()?;
    made.model.read_off(&state, &mut x);
    Some(x)
}

fn main(rt: HostRuntime) -> io::Result<()> {
    let alloc = rt.alloc();
    let found = rooms(alloc)
        .ok()
        .and_then(|problem| optimum(alloc, problem));
    match found {
        Some(let_rooms) => println!(rt; "{let_rooms:?}"),
        None => println!(rt; "no optimum"),
    }
}
