//! The files that a command names.
ghost use Rattle.std.specs.Prelude.{◌≡◌};
ghost use Rattle.command_words.specs.Names.{ask_file, ground_file, name_of, named, source_file, target_file};

use crate::commands::{Ask, Command, Ground, OfState, Origin, Target};
use crate::name::{Name, again};

/// A file that a command names: the source, the graph, the list of dead qubits and couplers, the map
/// of chains, the states or the assignment, the certificate, or the order of elimination.
#[derive(Clone, Copy, Debug, PartialEq, Eq)]
pub enum Which {
    Source,
    Graph,
    Dead,
    Map,
    State,
    Certificate,
    Order,
}

/// The name of the source. One that is drawn has no file.
fn source_file<'a>(origin: &Origin<'a>) -> Option<Name<'a>>
    ensures { result ≡ source_file origin.now }
{
    match origin {
        Origin::File(_, name) => Some(name.again()),
        Origin::Drawn(..) => None,
    }
}

/// The name of a file that says which qubits there are or which chains they form.
fn ground_file<'a>(ground: &Ground<'a>, which: Which) -> Option<Name<'a>>
    ensures { result ≡ ground_file ground.now which }
{
    match ground {
        Ground::Chimera { dead, map, .. } => match which {
            Which::Dead => again(dead),
            Which::Map => again(map),
            _ => None,
        },
        Ground::Listed { graph, map } => match which {
            Which::Graph => Some(graph.again()),
            Which::Map => Some(map.again()),
            _ => None,
        },
    }
}

/// The name of such a file of a target. A model on nodes has none.
fn target_file<'a>(target: &Target<'a>, which: Which) -> Option<Name<'a>>
    ensures { result ≡ target_file target.now which }
{
    match target {
        Target::Nodes(_) => None,
        Target::Qubits(board) => ground_file(&board.ground, which),
    }
}

/// The name of a file that is taken once the model stands.
fn ask_file<'a>(ask: &Ask<'a>, which: Which) -> Option<Name<'a>>
    ensures { result ≡ ask_file ask.now which }
{
    match (ask, which) {
        (Ask::Solve(order), Which::Order) => again(order),
        (Ask::Evaluate(name) | Ask::State(name, _), Which::State) => Some(name.again()),
        (Ask::State(_, OfState::Prove(name)), Which::Certificate) => Some(name.again()),
        _ => None,
    }
}

/// The name of a file, where a command has such a file.
pub fn named<'a>(command: &Command<'a>, which: Which) -> Option<Name<'a>>
    ensures { result ≡ named command.now which }
{
    match which {
        Which::Source => source_file(&command.origin),
        Which::Graph | Which::Dead | Which::Map => target_file(&command.target, which),
        Which::State | Which::Certificate | Which::Order => ask_file(&command.ask, which),
    }
}

/// The name of a file of a command, empty where the command has no such file.
pub fn name_of<'a>(command: &Command<'a>, which: Which) -> &'a str
    ensures { result.now ≡ name_of command.now which }
{
    match named(command, which) {
        Some(name) => name.text(),
        None => "",
    }
}
