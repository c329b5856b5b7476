//! A whole text.
ghost use Rattle.std.specs.Prelude.{◌≡◌, ◌+◌, ◌*◌, ◌<◌, ◌≤◌, ◌^◌, [], All, OnOk, length, unsigned_abs};
ghost use Rattle.whole_text.specs.TokenTexts.{words_of};
ghost use Rattle.whole_text.specs.Steps.{Gives};
ghost use Rattle.problem_form.specs.NormalForm.{blank, with_product};
ghost use Rattle.problem_form.specs.Problems.{problem_total};
ghost use Rattle.poly_reader.specs.Cost.{normal_reading, polynomial_of_words};
ghost use Rattle.poly_reader.specs.Views.{products_read};

use crate::listed::product;
use crate::name_table::NameTable;
use crate::names::Names;
use base::NoMemory;
use literal_lists::Literal;
use problem_form::Problem;
use std::alloc::Global;
use whole_text::{Style, TextAnswer, TokenText, Words, cut_words};

/// The problem of a text in normal form, and the names of its variables.
#[derive(Drop)]
pub struct Polynomial {
    pub problem: Problem,
    pub names: Names,
}

/// Adds the product of listed literals to a problem, and leaves the list empty. Where there are two,
/// they are put in order without the list.
#[inline(never)]
fn add_listed(
    problem: &mut Problem,
    list: &mut Vec<Literal>,
    coefficient: i128,
) -> Result<(), NoMemory>
    requires within { All (λ l. l.variable < problem.old.variables) list.old.items }
    requires small { problem_total problem.old + unsigned_abs coefficient < 2 ^ 100 }
    ensures added { OnOk result (problem.new ≡ with_product problem.old
        (record { literals = list.old.items; coefficient = coefficient })) }
    ensures emptied { list.new.items ≡ [] }
{
    if list.len() != 2 {
        return problem.add_term(list, coefficient);
    }
    let (first, second) = (list[0], list[1]);
    list.clear();
    problem.add_weighed_pair(first, second, coefficient)
}

/// Adds the products up to the end to a problem that says nothing.
fn products_into<'a>(
    alloc: Global,
    problem: &mut Problem,
    mut words: Words<'a>,
    names: &mut NameTable<'a>,
) -> Result<(), TextAnswer>
    requires says_nothing { problem.old ≡ blank }
    requires none { names.old ≡ [] }
    requires few { length words ≤ 2 ^ 24 }
    ensures { Gives (λ _. (problem.new, names.new)) result (products_read words.entry) }
{
    let mut list = Vec::new(alloc);
    let mut next = words.next();
    while let Some(first) = next {
        let (coefficient, after) = product(first, &mut words, names, &mut list)?;
        problem.widen(names.len() as u64);
        add_listed(problem, &mut list, coefficient)?;
        next = after;
    }
    Ok(())
}

/// The problem of the products up to the end.
fn products<'a>(
    alloc: Global,
    words: Words<'a>,
    names: &mut NameTable<'a>,
) -> Result<Problem, TextAnswer>
    requires none { names.old ≡ [] }
    requires few { length words ≤ 2 ^ 24 }
    ensures { Gives (λ problem. (problem, names.new)) result (products_read words.entry) }
{
    let mut problem = Problem::new(alloc);
    products_into(alloc, &mut problem, words, names)?;
    Ok(problem)
}

/// The problem of words and the names of its variables, read through a table that is empty.
fn read_with<'a>(
    alloc: Global,
    words: Words<'a>,
    table: &mut NameTable<'a>,
) -> Result<Polynomial, TextAnswer>
    requires none { table.old ≡ [] }
    requires few { length words ≤ 2 ^ 24 }
    ensures { Gives (λ polynomial. polynomial) result (polynomial_of_words words.entry) }
{
    let problem = products(alloc, words, table)?;
    let names = table.copied(alloc)?;
    Ok(Polynomial { problem, names })
}

/// The problem of a text that was cut into words, in normal form, and the names of its variables, or
/// the first fault of the text.
pub fn read_poly_tokens(alloc: Global, text: &TokenText) -> Result<Polynomial, TextAnswer>
    requires { length text.now.bytes ≤ 2 ^ 24 }
    ensures { Gives (λ polynomial. polynomial) result (polynomial_of_words (words_of text.now)) }
{
    let mut table = NameTable::new(alloc);
    read_with(alloc, text.words(), &mut table)
}

/// The problem of a text, in normal form, and the names of its variables, or the first fault of the
/// text.
#[tactic(auto, unfolding(crate::specs::Cost::normal_reading, crate::specs::Cost::polynomial_of_words, crate::specs::Poly::reading))]
pub fn read_poly(alloc: Global, text: &[u8]) -> Result<Polynomial, TextAnswer>
    requires { length text.now ≤ 2 ^ 24 }
    ensures { Gives (λ polynomial. polynomial) result (normal_reading text.now) }
{
    read_poly_tokens(alloc, &cut_words(alloc, text, Style::Plain)?)
}
