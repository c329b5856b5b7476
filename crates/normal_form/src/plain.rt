//! Terms that are multiplied out as they come.
ghost use Rattle.std.specs.Prelude.{◌≡◌, ◌≤◌, ◌^◌, OnOk, unsigned_abs};
ghost use Rattle.term_table.specs.MultipliedOut.{plain_terms};
ghost use Rattle.term_table.specs.Rooms.{Fills, HasRoomFor};
ghost use Rattle.normal_form.specs.Behind.{behind};

use crate::multiplied::{first_complement, negated, plain};
use base::NoMemory;
use literal_lists::Literal;
use std::alloc::Global;
use term_table::Gather;

/// Gathers what a term is multiplied out to whose first literals, without complements, stand in the
/// list already. The list ends as it began.
pub(crate) fn gather_plain_terms<T: Gather>(
    terms: &mut T,
    list: &mut Vec<Literal>,
    literals: &[Literal],
    coefficient: &i128,
) -> Result<(), NoMemory>
    requires room { HasRoomFor T.takes terms.old
        (behind list.old.items (plain_terms literals.now coefficient.now)) }
    requires small { unsigned_abs coefficient.now ≤ 2 ^ 124 }
    ensures gathered { OnOk result (Fills T.takes T.holds terms.old terms.new
        (behind list.old.items (plain_terms literals.now coefficient.now))) }
    ensures kept { OnOk result (list.new.items ≡ list.old.items) }
{
    let length = list.len();
    let place = first_complement(literals);
    list.extend_from_slice(&literals[..place])?;
    if place == literals.len() {
        terms.gather(list, *coefficient)?;
    } else {
        let rest = &literals[place + 1..];
        gather_plain_terms(terms, list, rest, coefficient)?;
        list.push(plain(&literals[place]))?;
        gather_plain_terms(terms, list, rest, &negated(coefficient))?;
    }
    list.truncate(length);
    Ok(())
}

/// Gathers terms elsewhere, multiplied out.
#[derive(Drop)]
pub struct PlainTerms<T> {
    terms: T,
    list: Vec<Literal>,
}

impl<T: Gather> PlainTerms<T> {
    /// Takes no memory.
    pub fn new(alloc: Global, terms: T) -> PlainTerms<T>
        ensures { result.terms ≡ terms }
    {
        PlainTerms {
            terms,
            list: Vec::new(alloc),
        }
    }

    /// Where the terms were gathered.
    pub fn into_terms(self) -> T
        ensures { result ≡ self.terms }
    {
        self.terms
    }
}

impl<T: Gather> Gather for PlainTerms<T> {
    ghost use Rattle.std.specs.Prelude.{All};
    ghost use Rattle.normal_form.specs.Multilinear.{multiplied, IsSmall};
    ghost use Rattle.term_table.specs.MultipliedOut.{contributions};

    ghost takes = { λ plain ts. T.takes plain.terms (contributions ts) × All IsSmall ts };

    ghost holds = { λ plain t. T.holds plain.terms (multiplied t) };

    fn gather(&mut self, literals: &[Literal], coefficient: i128) -> Result<(), NoMemory> {
        let place = first_complement(literals);
        if place == literals.len() {
            return self.terms.gather(literals, coefficient);
        }
        self.list.clear();
        gather_plain_terms(&mut self.terms, &mut self.list, literals, &coefficient)
    }
}
