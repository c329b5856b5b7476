//! Literals that are lent from a list.
ghost use Rattle.std.specs.Prelude.{◌≡◌, OnOk, length, map};
ghost use Rattle.std.specs.Cmp.Lexicographic.{slice_cmp};
ghost use Rattle.literal_lists.specs.Codes.{literal_of};
ghost use Rattle.literal_lists.specs.Literals.{literal_cmp};

use crate::literal::Literal;
use base::NoMemory;
use std::cmp::Ordering;
use std::marker::Model;
use std::slice;

/// The literal of a code: twice its variable, and one more where it is negated.
pub(crate) fn literal_of(code: u32) -> Literal
    ensures { result ≡ literal_of code }
{
    Literal {
        variable: u64::from(code / 2),
        negated: code % 2 == 1,
    }
}

/// Where lent literals lie: as their codes, or as they are.
#[derive(Drop)]
pub enum HeldLiterals<'a> {
    Codes(slice::Iter<'a, u32>),
    Listed(slice::Iter<'a, Literal>),
}

/// Literals, one after another. Contracts see the list of those that are left.
#[derive(Drop)]
pub struct Literals<'a> {
    pub(crate) held: HeldLiterals<'a>,
}

impl<'a> Model for Literals<'a> {
    ghost use Rattle.std.specs.Prelude.{List};
    ghost use Rattle.literal_lists.specs.declared.literal.Literal.{Literal};

    ghost Value = { List Literal };

    ghost use Rattle.literal_lists.specs.HeldLists.{literals_held};

    ghost view = { λ a. literals_held a.held };
}

/// The order of lists of literals as codes, which is that of the codes.
fn compared_codes(left: &[u32], right: &[u32]) -> Ordering
    ensures { result ≡ slice_cmp literal_cmp (map literal_of left.now) (map literal_of right.now) }
{
    left.cmp(right)
}

/// The order of two lists, literal by literal.
fn compared_one_by_one(left: Literals<'_>, mut right: Literals<'_>) -> Ordering
    ensures { result ≡ slice_cmp literal_cmp left.entry right.entry }
{
    for literal in left {
        match right.next() {
            None => return Ordering::Greater,
            Some(other) => match literal.cmp(&other) {
                Ordering::Equal => {}
                order => return order,
            },
        }
    }
    match right.next() {
        None => Ordering::Equal,
        Some(_) => Ordering::Less,
    }
}

impl<'a> Literals<'a> {
    /// How many are left.
    pub fn len(&self) -> usize
        ensures { result ≡ length self.now }
    {
        match &self.held {
            HeldLiterals::Codes(rest) => rest.len(),
            HeldLiterals::Listed(rest) => rest.len(),
        }
    }

    /// The order of two lists, by their first difference. A proper prefix stands first.
    pub fn compared(self, other: Literals<'_>) -> Ordering
        ensures { result ≡ slice_cmp literal_cmp self.entry other.entry }
    {
        match (&self.held, &other.held) {
            (HeldLiterals::Codes(left), HeldLiterals::Codes(right)) => {
                compared_codes(left.as_slice(), right.as_slice())
            }
            _ => compared_one_by_one(self, other),
        }
    }

    /// Puts the literals that are left into a list, in place of what it has.
    pub fn copy_into(self, list: &mut Vec<Literal>) -> Result<(), NoMemory>
        ensures { OnOk result (list.new.items ≡ self.entry) }
    {
        list.clear();
        for literal in self {
            list.push(literal)?;
        }
        Ok(())
    }
}

impl<'a> Iterator for Literals<'a> {
    type Item = Literal;

    ghost use Rattle.std.specs.Iterator.{YieldsFirst, item_count};

    ghost next_gives = { YieldsFirst (λ s. s) };

    ghost remaining = { item_count (λ s. s) };

    fn next(&mut self) -> Option<Literal> {
        match &mut self.held {
            HeldLiterals::Codes(rest) => match rest.next() {
                Some(code) => Some(literal_of(*code)),
                None => None,
            },
            HeldLiterals::Listed(rest) => match rest.next() {
                Some(literal) => Some(*literal),
                None => None,
            },
        }
    }
}
