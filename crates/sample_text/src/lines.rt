//! The lines of a text, each appended by a function of its own.
ghost use Rattle.std.specs.Prelude.{◌≡◌, ◌<◌, ◌∷◌, ◌++◌, OnOk};
ghost use Rattle.std.specs.List.{flat_map};
ghost use Rattle.std.specs.Fmt.{signed_decimal};
ghost use Rattle.sample_text.specs.Sample.{after, clause_words, drawn_clauses, header_words, line, words_of_clause};

use crate::draws::Draws;
use base::NoMemory;
use whole_text::push_number;

/// The numbers of variables and of clauses, and the weight of a hard clause.
pub(crate) fn push_header(
    text: &mut Vec<u8>,
    variables: u64,
    clauses: u64,
    top: u64,
) -> Result<(), NoMemory>
    ensures { let words = header_words variables clauses top in
        OnOk result (text.new.items ≡ text.old.items ++ line words) }
{
    text.extend_from_slice(b"p wcnf ")?;
    push_number(text, i128::from(variables))?;
    text.push(b' ')?;
    push_number(text, i128::from(clauses))?;
    text.push(b' ')?;
    push_number(text, i128::from(top))?;
    text.push(b'\n')?;
    Ok(())
}

/// A literal, after a space.
fn push_literal(text: &mut Vec<u8>, literal: i128) -> Result<(), NoMemory>
    ensures { OnOk result (text.new.items ≡ text.old.items ++ 32 ∷ signed_decimal literal) }
{
    text.push(b' ')?;
    push_number(text, literal)?;
    Ok(())
}

/// A clause of three literals.
fn push_words(
    text: &mut Vec<u8>,
    weight: u64,
    first: i128,
    second: i128,
    third: i128,
) -> Result<(), NoMemory>
    ensures { let words = words_of_clause weight first second third in
        OnOk result (text.new.items ≡ text.old.items ++ line words) }
{
    push_number(text, i128::from(weight))?;
    push_literal(text, first)?;
    push_literal(text, second)?;
    push_literal(text, third)?;
    text.extend_from_slice(b" 0\n")?;
    Ok(())
}

/// A clause that is drawn.
fn push_clause(
    text: &mut Vec<u8>,
    draws: &mut Draws,
    variables: u64,
    top: u64,
) -> Result<(), NoMemory>
    requires { 0 < variables }
    ensures text { let words = clause_words variables top draws.old.state in
        OnOk result (text.new.items ≡ text.old.items ++ line words) }
    ensures state { OnOk result (draws.new.state ≡ after 7 draws.old.state) }
{
    let weight = draws.weight(top);
    let first = draws.literal(variables);
    let second = draws.literal(variables);
    let third = draws.literal(variables);
    push_words(text, weight, first, second, third)
}

/// So many clauses that are drawn.
pub(crate) fn push_clauses(
    text: &mut Vec<u8>,
    draws: &mut Draws,
    count: u64,
    variables: u64,
    top: u64,
) -> Result<(), NoMemory>
    requires { 0 < variables }
    ensures { let clauses = drawn_clauses count variables top draws.old.state in
        OnOk result (text.new.items ≡ text.old.items ++ flat_map line clauses) }
{
    for _ in 0..count {
        push_clause(text, draws, variables, top)?;
    }
    Ok(())
}
