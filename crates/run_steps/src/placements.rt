//! What a model stands on: the nodes of a form, or the qubits of a graph.
ghost use Rattle.std.specs.Prelude.{◌≡◌, ℕ, List};
ghost use Rattle.working_graph.specs.Working.{WorkingGraph};
ghost use Rattle.part_lists.specs.declared.parts.Part.{Part};
ghost use Rattle.command_words.specs.declared.names.Which.{Which};
ghost use Rattle.command_words.specs.Names.{if_named, named};
ghost use Rattle.run_steps.specs.Steps.{
  mapping,
  chains_step,
  listing,
  placing,
  siting,
  surveying,
  working,
  working_step,
};
ghost use Rattle.run_steps.specs.Causes.{board_files, qubit_files};
ghost use Rattle.run_steps.specs.Takes.{HasTaken};

use crate::from_file::{FromFile, take_named};
use crate::status::Status;
use crate::steps::{read_into, take_bytes};
use chain_map::{ChainMap, read_map};
use chimera_graph::Chimera;
use command_words::{Board, Command, Ground, Name, NodeModel, Target, Which, named};
use edge_io::Files;
use listed_graph::{Listed, read_graph};
use model_pipeline::{ChainSource, GivenGraph, ModelTarget, Qubits, Site};
use std::alloc::Global;
use working_graph::{Working, read_dead};

/// The chains of a map.
impl FromFile for ChainMap {
    type Context = ();

    ghost which = { Which.Map };

    ghost Content = { List (List ℕ) };

    ghost view = { λ map. map };

    ghost steps = { λ context held name. mapping held name };

    ghost fits = { λ context map. Unit {0} };

    #[tactic(auto, unfolding(crate::specs::Steps::mapping), using(crate::proofs::Taking::judged_meets))]
    fn take<F: Files>(
        alloc: Global,
        name: &str,
        _context: (),
        files: &mut F,
    ) -> Result<ChainMap, Status> {
        let text = take_bytes(alloc, name, Which::Map, files)?;
        let read = read_map(alloc, &text);
        drop(text);
        read_into(read, Which::Map)
    }
}

/// What a dead list leaves of a graph.
impl FromFile for Working {
    type Context = Chimera;

    ghost which = { Which.Dead };

    ghost Content = { WorkingGraph };

    ghost view = { λ w. w };

    ghost steps = { λ graph held name. working held name graph };

    ghost fits = { λ graph w. Unit {0} };

    #[tactic(auto, unfolding(crate::specs::Steps::working), using(crate::proofs::Taking::judged_meets))]
    fn take<F: Files>(
        alloc: Global,
        name: &str,
        graph: Chimera,
        files: &mut F,
    ) -> Result<Working, Status> {
        let text = take_bytes(alloc, name, Which::Dead, files)?;
        let read = read_dead(alloc, &text, graph);
        drop(text);
        read_into(read, Which::Dead)
    }
}

/// The graph that a text lists.
impl FromFile for Listed {
    type Context = ();

    ghost which = { Which.Graph };

    ghost Content = { List Part };

    ghost view = { λ listed. listed.parts.items };

    ghost steps = { λ context held name. listing held name };

    ghost fits = { λ context parts. Unit {0} };

    #[tactic(auto, unfolding(crate::specs::Steps::listing), using(crate::proofs::Taking::judged_meets))]
    fn take<F: Files>(
        alloc: Global,
        name: &str,
        _context: (),
        files: &mut F,
    ) -> Result<Listed, Status> {
        let text = take_bytes(alloc, name, Which::Graph, files)?;
        let read = read_graph(alloc, &text);
        drop(text);
        read_into(read, Which::Graph)
    }
}

/// The qubits of a Chimera graph that chains may stand on. The dead list that the command names is
/// taken and read.
fn take_working<F: Files>(
    alloc: Global,
    command: &Command<'_>,
    graph: Chimera,
    dead: &Option<Name<'_>>,
    files: &mut F,
) -> Result<Qubits, Status>
    requires { named command.now Which.Dead ≡ dead.now }
    ensures { HasTaken F.held F.counts files.old files.new command.now
        (if_named command.now Which.Dead) (λ qubits. qubits) result
        (λ held. working_step held graph dead.now) }
{
    match dead {
        None => Ok(Qubits::All(graph)),
        Some(name) => {
            let working = take_named::<Working, F>(alloc, command, name, graph, files)?;
            Ok(Qubits::Working(working))
        }
    }
}

/// The qubits that chains may stand on. The graph or the dead list that the command names is taken
/// and read.
fn take_qubits<F: Files>(
    alloc: Global,
    command: &Command<'_>,
    board: &Board<'_>,
    files: &mut F,
) -> Result<Qubits, Status>
    requires { command.now.target ≡ Target.Qubits board.now }
    ensures { HasTaken F.held F.counts files.old files.new command.now
        (qubit_files command.now) (λ qubits. qubits) result
        (λ held. surveying held board.now.ground) }
{
    match &board.ground {
        Ground::Chimera { graph, dead, .. } => take_working(alloc, command, *graph, dead, files),
        Ground::Listed { graph, .. } => {
            let listed = take_named::<Listed, F>(alloc, command, graph, (), files)?;
            Ok(Qubits::Listed(GivenGraph::of(listed)))
        }
    }
}

/// Where chains come from. The map that the command names is taken and read.
fn take_chain_source<F: Files>(
    alloc: Global,
    command: &Command<'_>,
    files: &mut F,
) -> Result<ChainSource, Status>
    ensures { HasTaken F.held F.counts files.old files.new command.now
        (if_named command.now Which.Map) (λ chain_source. chain_source) result
        (λ held. chains_step held (named command.now Which.Map)) }
{
    match named(command, Which::Map) {
        None => Ok(ChainSource::Clique),
        Some(name) => {
            let map = take_named::<ChainMap, F>(alloc, command, &name, (), files)?;
            Ok(ChainSource::Map(map))
        }
    }
}

/// Where the chains of a command stand: the files of its board are taken and read.
fn take_site<F: Files>(
    alloc: Global,
    command: &Command<'_>,
    board: &Board<'_>,
    files: &mut F,
) -> Result<Site, Status>
    requires { command.now.target ≡ Target.Qubits board.now }
    ensures { HasTaken F.held F.counts files.old files.new command.now
        (board_files command.now) (λ site. site) result (λ held. siting held board.now) }
{
    let qubits = take_qubits(alloc, command, board, files)?;
    let chain_source = take_chain_source(alloc, command, files)?;
    Ok(Site {
        qubits,
        chain_source,
        ties: board.ties,
    })
}

/// What the model of a command stands on. The files that its board names are taken and read.
pub fn take_placement<F: Files>(
    alloc: Global,
    command: &Command<'_>,
    files: &mut F,
) -> Result<ModelTarget, Status>
    ensures { HasTaken F.held F.counts files.old files.new command.now
        (board_files command.now) (λ base. base) result
        (λ held. placing held command.now.target) }
{
    match &command.target {
        Target::Nodes(model) => Ok(ModelTarget::Nodes(*model)),
        Target::Qubits(board) => {
            let site = take_site(alloc, command, board, files)?;
            Ok(ModelTarget::Qubits(site))
        }
    }
}
