//! The keys of a command, in any order, each at most once: words of the form `NAME=VALUE`.
ghost use Rattle.std.specs.Prelude.{◌≡◌, ◌+◌, ◌<◌, ◌^◌, ◌&&◌, length, map, string_bytes, Some, None, MatchOption, is_none, if◌then◌else◌};
ghost use Rattle.command_words.specs.Keys.{bound_of, cut, embed_of, graph_of, ground_by, high_of, keys_from, map_of, no_keys, normal_of, penalty_of, side_of, slack_of, takes, target_by, ties_of, unit_of, with_pair, with_word};

use crate::commands::{
    Board, Bound, ChainStrength, Chaining, Ground, Slack, Target, TargetWord, Verb,
};
use crate::name::{Name, again};
use base::UnitChoice;
use chimera_graph::Chimera;
use form_steps::PenaltyScope;
use problem_form::{High, Normal};
use whole_text::digits;

/// The greatest number of rows, columns or qubits on a side.
const MOST_SIDE: u64 = 1 << 20;

/// The keys that were given, each with its value.
#[derive(Drop)]
pub struct Keys<'a> {
    pub normal: Option<Normal>,
    pub high: Option<High>,
    pub unit: Option<UnitChoice>,
    pub bound: Option<Bound>,
    pub slack: Option<Slack>,
    pub penalty: Option<PenaltyScope>,
    pub order: Option<Name<'a>>,
    pub rows: Option<u32>,
    pub cols: Option<u32>,
    pub shore: Option<u32>,
    pub dead: Option<Name<'a>>,
    pub chains: Option<Chaining<'a>>,
    pub ties: Option<ChainStrength>,
    pub graph: Option<Name<'a>>,
}

/// The commands that take a key: all, those with a verb, or those with a target.
#[derive(Clone, Copy)]
pub enum Takers {
    All,
    Solver,
    OnChimera,
    OnQubits,
    OnGraph,
}

/// Whether a verb and a target are among those that take a key.
fn takes(takers: Takers, verb: Verb, target: TargetWord) -> bool
    ensures { result ≡ takes takers verb target }
{
    match takers {
        Takers::All => true,
        Takers::Solver => matches!(verb, Verb::Solve),
        Takers::OnChimera => matches!(target, TargetWord::Chimera),
        Takers::OnQubits => matches!(target, TargetWord::Chimera | TargetWord::Graph),
        Takers::OnGraph => matches!(target, TargetWord::Graph),
    }
}

/// No key is given.
pub(crate) fn no_keys<'a>() -> Keys<'a>
    ensures { result ≡ no_keys }
{
    Keys {
        normal: None,
        high: None,
        unit: None,
        bound: None,
        slack: None,
        penalty: None,
        order: None,
        rows: None,
        cols: None,
        shore: None,
        dead: None,
        chains: None,
        ties: None,
        graph: None,
    }
}

/// The graph that the keys choose, or none where a number is missing or it were too large.
fn graph_of(keys: &Keys<'_>) -> Option<Chimera>
    ensures { result ≡ graph_of keys.now }
{
    let rows = keys.rows?;
    let cols = keys.cols?;
    let shore = keys.shore?;
    Chimera::new(rows, cols, shore)
}

/// The name of the map of chains, unless they are those of a clique.
fn map_of<'a>(chains: &Chaining<'a>) -> Option<Name<'a>>
    ensures { result ≡ map_of chains.now }
{
    match chains {
        Chaining::Clique => None,
        Chaining::Map(name) => Some(name.again()),
    }
}

/// The ground that a word and the keys choose, or none where a key is missing that it needs, or the
/// graph were too large.
fn ground_by<'a>(target: TargetWord, keys: &Keys<'a>) -> Option<Ground<'a>>
    ensures { result ≡ ground_by target keys.now }
{
    match target {
        TargetWord::Nodes(_) => None,
        TargetWord::Chimera => {
            let graph = graph_of(keys)?;
            let chains = keys.chains.as_ref()?;
            Some(Ground::Chimera {
                graph,
                dead: again(&keys.dead),
                map: map_of(chains),
            })
        }
        TargetWord::Graph => {
            let graph = again(&keys.graph)?;
            let map = map_of(keys.chains.as_ref()?)?;
            Some(Ground::Listed { graph, map })
        }
    }
}

/// The target that a word and the keys choose, or none where its ground is.
pub(crate) fn target_by<'a>(target: TargetWord, keys: &Keys<'a>) -> Option<Target<'a>>
    ensures { result ≡ target_by target keys.now }
{
    match target {
        TargetWord::Nodes(model) => Some(Target::Nodes(model)),
        TargetWord::Chimera | TargetWord::Graph => {
            let ground = ground_by(target, keys)?;
            Some(Target::Qubits(Board {
                ground,
                ties: keys.ties.unwrap_or(ChainStrength::Choi),
            }))
        }
    }
}

/// What stands before the first `=` of a word and what after it, or none where there is no `=`.
pub(crate) fn cut(word: &str) -> Option<(&str, &str)>
    ensures { MatchOption result
        (cut word.now ≡ None)
        (λ parts. cut word.now ≡ Some (parts.0.now, parts.1.now)) }
{
    word.split_once('=')
}

fn normal_of(value: &str) -> Option<Normal>
    ensures { result ≡ normal_of value.now }
{
    match value {
        "literal" => Some(Normal::Literal),
        "multilinear" => Some(Normal::Multilinear),
        _ => None,
    }
}

fn high_of(value: &str) -> Option<High>
    ensures { result ≡ high_of value.now }
{
    match value {
        "monomial" => Some(High::Monomial),
        "rosenberg" => Some(High::Rosenberg),
        _ => None,
    }
}

fn unit_of(value: &str) -> Option<UnitChoice>
    ensures { result ≡ unit_of value.now }
{
    match value {
        "one" => Some(UnitChoice::One),
        "reduce" => Some(UnitChoice::Reduce),
        _ => None,
    }
}

fn slack_of(value: &str) -> Option<Slack>
    ensures { result ≡ slack_of value.now }
{
    match value {
        "bits" => Some(Slack::Bits),
        "pairs" => Some(Slack::Pairs),
        "clauses" => Some(Slack::Clauses),
        _ => None,
    }
}

fn penalty_of(value: &str) -> Option<PenaltyScope>
    ensures { result ≡ penalty_of value.now }
{
    match value {
        "global" => Some(PenaltyScope::Global),
        "local" => Some(PenaltyScope::Local),
        _ => None,
    }
}

/// A bound of the cost: an optional `-`, and digits.
fn bound_of(value: &str) -> Option<Bound>
    ensures { result ≡ bound_of value.now }
{
    let bytes = value.as_bytes();
    match bytes {
        [b'-', rest @ ..] => {
            let size = digits(rest)?;
            Some(Bound {
                negative: true,
                size,
            })
        }
        [] => None,
        [_, ..] => {
            let size = digits(bytes)?;
            Some(Bound {
                negative: false,
                size,
            })
        }
    }
}

/// A number of rows, columns or qubits on a side, in digits: from 1 to 2^20.
fn side_of(value: &str) -> Option<u32>
    ensures { result ≡ side_of value.now }
{
    let side = digits(value.as_bytes())?;
    if 0 < side && side <= MOST_SIDE {
        Some(side as u32)
    } else {
        None
    }
}

fn embed_of(value: &str) -> Option<Chaining<'_>>
    ensures { result ≡ embed_of value.now }
{
    match value {
        "clique" => Some(Chaining::Clique),
        _ => None,
    }
}

fn ties_of(value: &str) -> Option<ChainStrength>
    ensures { result ≡ ties_of value.now }
{
    match value {
        "choi" => Some(ChainStrength::Choi),
        "cut" => Some(ChainStrength::Cut),
        _ => None,
    }
}

/// The value of a key: none where it is not taken, or there is one already.
fn once<T: Drop>(taken: bool, given: &Option<T>, value: Option<T>) -> Option<T>
    ensures { result ≡ (if taken && is_none given.now then value else None) }
{
    match given {
        None if taken => value,
        _ => None,
    }
}

/// The table of keys: the keys with one more, or none where it cannot stand.
fn with_pair<'a>(
    verb: Verb,
    target: TargetWord,
    mut keys: Keys<'a>,
    name: &str,
    value: &'a str,
) -> Option<Keys<'a>>
    ensures { result ≡ with_pair verb target keys.entry name.now value.now }
{
    let solve = takes(Takers::Solver, verb, target);
    let chimera = takes(Takers::OnChimera, verb, target);
    let qubits = takes(Takers::OnQubits, verb, target);
    let graph = takes(Takers::OnGraph, verb, target);
    let file = Name::new(value);
    match name {
        "normal" => keys.normal = Some(once(true, &keys.normal, normal_of(value))?),
        "high" => keys.high = Some(once(true, &keys.high, high_of(value))?),
        "unit" => keys.unit = Some(once(true, &keys.unit, unit_of(value))?),
        "bound" => keys.bound = Some(once(true, &keys.bound, bound_of(value))?),
        "slack" => keys.slack = Some(once(true, &keys.slack, slack_of(value))?),
        "penalty" => keys.penalty = Some(once(true, &keys.penalty, penalty_of(value))?),
        "order" => keys.order = Some(once(solve, &keys.order, Some(file))?),
        "rows" => keys.rows = Some(once(chimera, &keys.rows, side_of(value))?),
        "cols" => keys.cols = Some(once(chimera, &keys.cols, side_of(value))?),
        "shore" => keys.shore = Some(once(chimera, &keys.shore, side_of(value))?),
        "dead" => keys.dead = Some(once(chimera, &keys.dead, Some(file))?),
        "embed" => keys.chains = Some(once(chimera, &keys.chains, embed_of(value))?),
        "map" => keys.chains = Some(once(qubits, &keys.chains, Some(Chaining::Map(file)))?),
        "chain" => keys.ties = Some(once(qubits, &keys.ties, ties_of(value))?),
        "graph" => keys.graph = Some(once(graph, &keys.graph, Some(file))?),
        _ => return None,
    }
    Some(keys)
}

/// The keys with that of one word more, or none where the word cannot stand.
fn with_word<'a>(verb: Verb, target: TargetWord, keys: Keys<'a>, word: &'a str) -> Option<Keys<'a>>
    ensures { result ≡ with_word verb target keys.entry word.now }
{
    let (name, value) = cut(word)?;
    with_pair(verb, target, keys, name, value)
}

/// The keys with those of words from the index `at` on, or the position of the first word that cannot
/// stand, counted from 1. At most one word a key goes on.
pub(crate) fn keys_from<'a>(
    verb: Verb,
    target: TargetWord,
    keys: Keys<'a>,
    at: usize,
    words: &'a [String],
) -> Result<Keys<'a>, usize>
    requires { at + length words.now < 2 ^ 64 }
    ensures { result ≡ keys_from verb target keys.entry at (map string_bytes words.now) }
{
    match words {
        [] => Ok(keys),
        [word, rest @ ..] => {
            let more = with_word(verb, target, keys, word.as_str()).ok_or(at + 1)?;
            keys_from(verb, target, more, at + 1, rest)
        }
    }
}
