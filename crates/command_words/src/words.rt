//! The words of a command, one after another. Nothing here takes memory.
ghost use Rattle.std.specs.Prelude.{◌≡◌, ◌<◌, ◌≤◌, ◌^◌, Some, None, MatchOption, IfOk, IfSome, length, map, drop, slice_get, string_bytes};
ghost use Rattle.whole_text.specs.Numbers.{digits_number};
ghost use Rattle.command_words.specs.Commands.{HasFewClauses, AsksForFewClauses, alone, ask_by, chosen_target, clauses_of, command_of, drawn_words, file_at, file_words, first_key, first_notice, format_of, named, notice_of, request_of, source_words, target_of, valued, verb_of};

use crate::commands::{
    Ask, Command, Format, Make, NodeModel, Notice, OfState, Origin, Request, Slack, Target,
    TargetWord, Verb,
};
use crate::keys::{Keys, keys_from, no_keys, target_by};
use crate::name::{Name, again};
use base::UnitChoice;
use form_steps::PenaltyScope;
use problem_form::{Choices, High, Normal};
use whole_text::digits;

/// The greatest number of clauses of a sample.
const MOST_CLAUSES: u64 = 100_000;

fn verb_of(word: &str) -> Option<Verb>
    ensures { result ≡ verb_of word.now }
{
    match word {
        "compile" => Some(Verb::Compile),
        "size" => Some(Verb::Size),
        "decode" => Some(Verb::Decode),
        "evaluate" => Some(Verb::Evaluate),
        "extend" => Some(Verb::Extend),
        "sample" => Some(Verb::Sample),
        "solve" => Some(Verb::Solve),
        "prove" => Some(Verb::Prove),
        _ => None,
    }
}

fn format_of(word: &str) -> Option<Format>
    ensures { result ≡ format_of word.now }
{
    match word {
        "wcnf" => Some(Format::Wcnf),
        "wbo" => Some(Format::Wbo),
        "opb" => Some(Format::Opb),
        "poly" => Some(Format::Poly),
        "ising" => Some(Format::Ising),
        "qubo" => Some(Format::Qubo),
        _ => None,
    }
}

fn target_of(word: &str) -> Option<TargetWord>
    ensures { result ≡ target_of word.now }
{
    match word {
        "qubo" => Some(TargetWord::Nodes(NodeModel::Qubo)),
        "ising" => Some(TargetWord::Nodes(NodeModel::Ising)),
        "chimera" => Some(TargetWord::Chimera),
        "graph" => Some(TargetWord::Graph),
        _ => None,
    }
}

/// The word at an index, where there is one.
fn word_at(words: &[String], i: usize) -> Option<&str>
    ensures { MatchOption result
        (slice_get (map string_bytes words.now) i ≡ None)
        (λ word. slice_get (map string_bytes words.now) i ≡ Some word.now) }
{
    match words.get(i) {
        Some(word) => Some(word.as_str()),
        None => None,
    }
}

fn verb_word(words: &[String]) -> Result<Verb, usize>
    ensures { result ≡ valued verb_of (map string_bytes words.now) 0 }
{
    match word_at(words, 0) {
        Some(word) => verb_of(word).ok_or(1),
        None => Err(1),
    }
}

fn format_word(words: &[String]) -> Result<Format, usize>
    ensures { result ≡ valued format_of (map string_bytes words.now) 1 }
{
    match word_at(words, 1) {
        Some(word) => format_of(word).ok_or(2),
        None => Err(2),
    }
}

/// What the word at an index says of the target.
fn target_word(words: &[String], i: usize) -> Result<TargetWord, usize>
    requires { i < 2 ^ 32 }
    ensures { result ≡ valued target_of (map string_bytes words.now) i }
{
    match word_at(words, i) {
        Some(word) => target_of(word).ok_or(i + 1),
        None => Err(i + 1),
    }
}

fn number_word(words: &[String]) -> Result<u64, usize>
    ensures { result ≡ valued digits_number (map string_bytes words.now) 1 }
{
    match word_at(words, 1) {
        Some(word) => digits(word.as_bytes()).ok_or(2),
        None => Err(2),
    }
}

/// A count of clauses in digits.
fn clauses_of(word: &str) -> Option<u64>
    ensures value { result ≡ clauses_of word.now }
    ensures few { IfSome result (λ clauses. clauses ≤ 100000) }
{
    let clauses = digits(word.as_bytes())?;
    if clauses <= MOST_CLAUSES {
        Some(clauses)
    } else {
        None
    }
}

fn clauses_word(words: &[String]) -> Result<u64, usize>
    ensures value { result ≡ valued clauses_of (map string_bytes words.now) 2 }
    ensures few { IfOk result (λ clauses. clauses ≤ 100000) }
{
    match word_at(words, 2) {
        Some(word) => clauses_of(word).ok_or(3),
        None => Err(3),
    }
}

/// The name that is the word at an index.
fn named(words: &[String], i: usize) -> Result<Name<'_>, usize>
    requires { i < 2 ^ 32 }
    ensures { result ≡ named (map string_bytes words.now) i }
{
    match word_at(words, i) {
        Some(word) => Ok(Name::new(word)),
        None => Err(i + 1),
    }
}

/// The same, and an empty name where the word is missing.
fn name_at(words: &[String], i: usize) -> Name<'_>
    ensures { result ≡ file_at (map string_bytes words.now) i }
{
    match word_at(words, i) {
        Some(word) => Name::new(word),
        None => Name::new(""),
    }
}

/// The words from an index on.
#[tactic(auto, using(crate::proofs::Texts::texts_from, crate::proofs::Texts::texts_beyond))]
fn words_from(words: &[String], i: usize) -> &[String]
    ensures { map string_bytes result.now ≡ drop i (map string_bytes words.now) }
{
    match words.get(i..) {
        Some(rest) => rest,
        None => &[],
    }
}

/// The index of the first key of a verb.
fn first_key(verb: Verb) -> usize
    ensures index { result ≡ first_key verb }
    ensures small { result < 2 ^ 32 }
{
    match verb {
        Verb::Compile | Verb::Size | Verb::Sample | Verb::Solve => 4,
        Verb::Decode | Verb::Evaluate | Verb::Extend => 5,
        Verb::Prove => 6,
    }
}

/// The words FORMAT TARGET FILE.
fn file_words(words: &[String]) -> Result<(Origin<'_>, TargetWord), usize>
    ensures said { result ≡ file_words (map string_bytes words.now) }
    ensures few { IfOk result (λ source. HasFewClauses source.0) }
{
    let format = format_word(words)?;
    let target = target_word(words, 2)?;
    let file = named(words, 3)?;
    Ok((Origin::File(format, file), target))
}

/// The words NUMBER CLAUSES TARGET.
fn drawn_words(words: &[String]) -> Result<(Origin<'_>, TargetWord), usize>
    ensures said { result ≡ drawn_words (map string_bytes words.now) }
    ensures few { IfOk result (λ source. HasFewClauses source.0) }
{
    let number = number_word(words)?;
    let clauses = clauses_word(words)?;
    let target = target_word(words, 3)?;
    Ok((Origin::Drawn(number, clauses), target))
}

/// The source and the word of its target: FORMAT TARGET FILE, or NUMBER CLAUSES TARGET for a
/// source that is drawn.
fn source_words(verb: Verb, words: &[String]) -> Result<(Origin<'_>, TargetWord), usize>
    ensures said { result ≡ source_words verb (map string_bytes words.now) }
    ensures few { IfOk result (λ source. HasFewClauses source.0) }
{
    match verb {
        Verb::Sample => drawn_words(words),
        _ => file_words(words),
    }
}

/// What a verb asks of the model of a source, by the words behind FILE.
fn ask_by<'a>(verb: Verb, files: &'a [String], order: Option<Name<'a>>) -> Ask<'a>
    ensures { result ≡ ask_by verb (map string_bytes files.now) order.entry }
{
    let file = name_at(files, 0);
    match verb {
        Verb::Compile => Ask::Make(Make::Model),
        Verb::Size => Ask::Make(Make::Size),
        Verb::Sample => Ask::Make(Make::Summary),
        Verb::Solve => Ask::Solve(order),
        Verb::Evaluate => Ask::Evaluate(file),
        Verb::Decode => Ask::State(file, OfState::Decode),
        Verb::Extend => Ask::State(file, OfState::Extend),
        Verb::Prove => Ask::State(file, OfState::Prove(name_at(files, 1))),
    }
}

/// The target that a word and the keys choose, or the position after all words where a word behind
/// FILE or a key that it needs is missing, or the graph were too large.
fn chosen_target<'a>(
    verb: Verb,
    words: &[String],
    target: TargetWord,
    keys: &Keys<'a>,
) -> Result<Target<'a>, usize>
    requires { length words.now < 2 ^ 60 }
    ensures { result ≡ chosen_target verb (map string_bytes words.now) target keys.now }
{
    let missing = words.len() + 1;
    if words.len() < first_key(verb) {
        return Err(missing);
    }
    target_by(target, keys).ok_or(missing)
}

/// The command of the words, or the position of the first word that cannot stand, counted from 1;
/// where no word is wrong but one is missing, or the graph were too large, it is the number of
/// words and one.
fn command(words: &[String]) -> Result<Command<'_>, usize>
    ensures asked { result ≡ command_of (map string_bytes words.now) }
    ensures few { IfOk result (λ command. HasFewClauses command.origin) }
{
    let verb = verb_word(words)?;
    let (origin, word) = source_words(verb, words)?;
    let first = first_key(verb);
    let keys = keys_from(verb, word, no_keys(), first, words_from(words, first))?;
    let target = chosen_target(verb, words, word, &keys)?;
    Ok(Command {
        origin,
        target,
        choices: Choices {
            normal: keys.normal.unwrap_or(Normal::Literal),
            high: keys.high.unwrap_or(High::Monomial),
        },
        unit: keys.unit.unwrap_or(UnitChoice::One),
        bound: keys.bound,
        slack: keys.slack.unwrap_or(Slack::Bits),
        penalty: keys.penalty.unwrap_or(PenaltyScope::Global),
        ask: ask_by(verb, words_from(words, 4), again(&keys.order)),
    })
}

fn notice_of(word: &str) -> Option<Notice>
    ensures { result ≡ notice_of word.now }
{
    match word {
        "--help" | "-h" => Some(Notice::Help),
        "--version" | "-V" => Some(Notice::Version),
        _ => None,
    }
}

/// The notice that the first word names, where it names one.
fn first_notice(words: &[String]) -> Option<Notice>
    ensures { result ≡ first_notice (map string_bytes words.now) }
{
    match word_at(words, 0) {
        Some(word) => notice_of(word),
        None => None,
    }
}

/// A notice that the first word names. A further word cannot stand.
fn alone(words: &[String], notice: Notice) -> Result<Request<'static>, usize>
    ensures { result ≡ alone (map string_bytes words.now) notice }
{
    if words.len() == 1 {
        Ok(Request::Notice(notice))
    } else {
        Err(2)
    }
}

/// What the words ask for, or the position of the first word that cannot stand, counted from 1;
/// where no word is wrong but one is missing, or the graph were too large, it is the number of
/// words and one.
pub fn request(words: &[String]) -> Result<Request<'_>, usize>
    ensures asked { result ≡ request_of (map string_bytes words.now) }
    ensures few { IfOk result AsksForFewClauses }
{
    match first_notice(words) {
        Some(notice) => alone(words, notice),
        None => Ok(Request::Command(command(words)?)),
    }
}
